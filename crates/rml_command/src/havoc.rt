// What a havoc gives to its symbol, where a path is followed.
ghost use Rattle.std.specs.Prelude.{◌≡◌, IfOk};
ghost use Rattle.rml_command.specs.Elements.{havocs_of};

use base::{Mem, Row};
use fol_sig::Tuple;
use std::alloc::Global;

/// The value that a havoc gives, as following a path takes it.
#[derive(Drop)]
pub enum Havoc {
    /// The element of a variable.
    Element(u32),
    /// The tuples of which a relation is true. One without arguments is true of the empty tuple, or of none.
    Tuples(Row<Tuple>),
}

impl Havoc {
    /// A copy. Err: out of memory.
    pub fn copy(&self, alloc: Global) -> Mem<Havoc>
        ensures { IfOk result (λ havoc. havoc ≡ self.now) }
    {
        match self {
            Havoc::Element(element) => Ok(Havoc::Element(*element)),
            Havoc::Tuples(tuples) => {
                let copied = copy_tuples(alloc, tuples.as_slice())?;
                Ok(Havoc::Tuples(copied))
            }
        }
    }
}

fn copy_tuples(alloc: Global, tuples: &[Tuple]) -> Mem<Row<Tuple>>
    ensures { IfOk result (λ copied. copied ≡ tuples.now) }
{
    let mut copied = Row::new(alloc);
    for tuple in tuples {
        copied.push(tuple.copy())?;
    }
    Ok(copied)
}

/// A copy of a trace's entries. Err: out of memory.
pub fn copy_havocs(alloc: Global, havocs: &[Havoc]) -> Mem<Row<Havoc>>
    ensures { IfOk result (λ copied. copied ≡ havocs.now) }
{
    let mut copied = Row::new(alloc);
    for havoc in havocs {
        copied.push(havoc.copy(alloc)?)?;
    }
    Ok(copied)
}

/// The entries of a trace that takes these elements. Err: out of memory.
pub fn havocs_of(alloc: Global, elements: &[u32]) -> Mem<Row<Havoc>>
    ensures { IfOk result (λ havocs. havocs ≡ havocs_of elements.now) }
{
    let mut havocs = Row::new(alloc);
    for element in elements {
        havocs.push(Havoc::Element(*element))?;
    }
    Ok(havocs)
}
