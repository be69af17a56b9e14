// What becomes of a hint and of a line: the words in which acceptance is defined and a checker answers.
use crate::refusal_code::RefusalCode;
use cnf_base::Lit;

/// What a hint does under the literals that are set.
#[derive(Clone, Copy, PartialEq, Eq, Debug)]
pub enum Effect {
    /// No such clause is held.
    Unknown,
    /// All literals of its clause are false.
    Falsified,
    /// All but this one, which is unset.
    Sets(Lit),
    /// Neither.
    Useless,
}

/// Whether a line is accepted, or why it is refused.
#[derive(Clone, Copy, PartialEq, Eq, Debug)]
pub enum Outcome {
    Accepted,
    Refused(RefusalCode),
}
