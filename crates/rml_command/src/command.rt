// Primitives, and the commands that are made of them.
ghost use Rattle.std.specs.Prelude.{◌≡◌, IfOk};
ghost use Rattle.rml_command.specs.View.{primitive};
ghost use Rattle.rml_command.specs.Paths.{is_abort};

use base::Mem;
use fol_formula::{Formula, Sentence, Term};
use fol_sig::{FunId, RelId};
use std::alloc::Global;

/// One step of a block. The right side of an update has the symbol's parameters as its free indices,
/// the last one as 0.
#[derive(Drop)]
pub enum Primitive {
    /// Goes on where the sentence is true.
    Assume(Sentence),
    /// Makes the relation true where the formula was.
    SetRel(RelId, Formula),
    /// Gives the function the values that the term had.
    SetFun(FunId, Term),
    /// Gives a variable any value.
    Havoc(FunId),
    /// Gives a relation any table.
    HavocRel(RelId),
    /// Ends the run as wrong.
    Abort,
}

/// A block. `Seq` without parts is `skip`, and `Choose` has at least one branch.
#[derive(Drop)]
pub enum Command {
    /// One step.
    Prim(Primitive),
    /// The parts, one behind the other.
    Seq(Vec<Command>),
    /// One of the branches.
    Choose(Vec<Command>),
}

impl Primitive {
    /// Whether it is `Abort`.
    pub fn is_abort(&self) -> bool
        ensures { result ≡ is_abort (primitive self.now) }
    {
        matches!(self, Primitive::Abort)
    }

    /// A copy. Err: out of memory.
    pub fn copy(&self, alloc: Global) -> Mem<Primitive>
        ensures { IfOk result (λ q. primitive q ≡ primitive self.now) }
    {
        Ok(match self {
            Primitive::Assume(sentence) => Primitive::Assume(sentence.copy(alloc)?),
            Primitive::SetRel(rel, by) => Primitive::SetRel(*rel, by.copy(alloc)?),
            Primitive::SetFun(fun, by) => Primitive::SetFun(*fun, by.copy(alloc)?),
            Primitive::Havoc(fun) => Primitive::Havoc(*fun),
            Primitive::HavocRel(rel) => Primitive::HavocRel(*rel),
            Primitive::Abort => Primitive::Abort,
        })
    }
}
