// How an answer is to be shown.
use view_line::Form;

/// The form, and the name of the model's file.
#[derive(Clone, Copy)]
pub struct Showing<'a> {
    pub form: Form,
    pub file: &'a str,
}
