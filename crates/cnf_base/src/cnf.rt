// Formulas in conjunctive normal form. A clause that is always true keeps its place, since its id is that place.
ghost use Rattle.std.specs.Prelude.{◌≡◌, IfOk};

use crate::Clause;
use base::{Mem, Row};
use std::alloc::Global;
use std::marker::Model;

/// What an id stands for: a clause, or one that is always true.
#[derive(Drop)]
pub enum Entry {
    Clause(Clause),
    True,
}

impl Entry {
    /// A copy; want of memory is all that can keep it out.
    pub fn copy(&self, alloc: Global) -> Mem<Entry>
        ensures { IfOk result (λ copy. copy ≡ self.now) }
    {
        Ok(match self {
            Entry::Clause(clause) => Entry::Clause(clause.copy(alloc)?),
            Entry::True => Entry::True,
        })
    }
}

/// A formula in conjunctive normal form: clauses with the ids 1 to their number, over the variables
/// 1 to `variables`.
#[derive(Drop)]
pub struct Cnf {
    variables: u32,
    clauses: Row<Entry>,
}

impl Model for Cnf {
    ghost use Rattle.cnf_base.specs.Formulas.{Formula};

    ghost Value = { Formula };

    ghost use Rattle.cnf_base.specs.Formulas.{IsFormula};

    ghost view = { λ c. record { variables = c.variables; clauses = c.clauses } };

    ghost invariant = { λ c. IsFormula (record { variables = c.variables; clauses = c.clauses }) };
}

impl Cnf {
    ghost use Rattle.cnf_base.specs.Formulas.{IsFormula};

    /// The formula of these clauses, over the variables 1 to `variables`. The clauses are moved.
    pub fn new(variables: u32, clauses: Row<Entry>) -> Cnf
        requires { IsFormula (record { variables = variables; clauses = clauses }) }
        ensures { result ≡ record { variables = variables; clauses = clauses } }
    {
        Cnf { variables, clauses }
    }

    /// How many variables there are.
    pub fn variables(&self) -> u32
        ensures value { result ≡ self.now.variables }
        ensures formula { IsFormula self.now }
    {
        self.variables
    }

    /// The clauses; the one at place k has the id k + 1.
    pub fn clauses(&self) -> &[Entry]
        ensures value { result.now ≡ self.now.clauses }
        ensures formula { IsFormula self.now }
    {
        self.clauses.as_slice()
    }

    /// A copy; want of memory is all that can keep it out.
    pub fn copy(&self, alloc: Global) -> Mem<Cnf>
        ensures { IfOk result (λ copy. copy ≡ self.now) }
    {
        let clauses = copy_entries(alloc, self.clauses.as_slice())?;
        Ok(Cnf {
            variables: self.variables,
            clauses,
        })
    }
}

fn copy_entries(alloc: Global, entries: &[Entry]) -> Mem<Row<Entry>>
    ensures { IfOk result (λ copies. copies ≡ entries.now) }
{
    let mut copies = Vec::with_capacity(alloc, entries.len())?;
    for entry in entries {
        copies.push(entry.copy(alloc)?)?;
    }
    Ok(Row::from_vec(copies))
}
