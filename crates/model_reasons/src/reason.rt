// A group with what carries it.
use rml_command::{About, Stage};
use rml_reasons::Carried;

/// A group of goals, and which conjectures carry it, or what it lacks even where all are held.
#[derive(Drop)]
pub struct Reason {
    pub stage: Stage,
    pub about: About,
    pub carried: Carried,
}
