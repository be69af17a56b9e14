// The clauses that are held, one after another in one list of literals, so that a clause is read in one piece. Beside
// each stands a position, at which the next search for another literal to watch begins: begun at the front each time,
// it would read the same false literals again and again (Gent, "Optimal Implementation of Watched Literals in
// Conflict-Driven Clause Learning", 2013). A position carries no facts.
ghost use Rattle.std.specs.Prelude.{List, ◌≡◌, ℕ, ◌+◌, ◌<◌, ◌≤◌, [], ◌∷◌, ◌++◌, length, IfOk, OnOk, Some};
ghost use Rattle.cnf_base.specs.declared.cnf.Entry.TheVariants.{Clause, True};
ghost use Rattle.lrat_log.specs.Held.{held_by};

use base::{Mem, place_of};
use cnf_base::Lit;
use std::alloc::Global;
use std::marker::Model;

/// Where the literals of a clause stand, or that it is always true. Places have four bytes each.
#[derive(Clone, Copy)]
pub struct Span {
    pub start: u32,
    pub end: u32,
    pub is_true: bool,
}

/// The clauses, seen as a list of entries. The clause at place k has the id k + 1.
#[derive(Drop)]
pub struct Clauses {
    spans: Vec<Span>,
    literals: Vec<Lit>,
    positions: Vec<u32>,
}

impl Model for Clauses {
    ghost use Rattle.std.specs.Prelude.{List};
    ghost use Rattle.cnf_base.specs.declared.cnf.Entry.{Entry};

    ghost Value = { List Entry };

    ghost use Rattle.cdcl_tables.specs.ClausesView.{entries_of, AreSpans};

    ghost view = { entries_of };

    ghost invariant = { AreSpans };
}

impl Clauses {
    /// No clause.
    pub fn new(alloc: Global) -> Clauses
        ensures { result ≡ [] }
    {
        Clauses {
            spans: Vec::new(alloc),
            literals: Vec::new(alloc),
            positions: Vec::new(alloc),
        }
    }

    /// How many clauses are held, those that are always true among them.
    pub fn len(&self) -> usize
        ensures { result ≡ length self.now }
    {
        self.spans.len()
    }

    /// The literals of the clause with an id.
    pub fn clause(&self, id: u32) -> &[Lit]
        requires { (c : List ℕ) × (held_by self.now id ≡ Some (Clause c)) }
        ensures { held_by self.now id ≡ Some (Clause result.now) }
    {
        let span = self.spans[id as usize - 1];
        &self.literals[span.start as usize..span.end as usize]
    }

    /// The position in the clause at a place at which a search for a literal begins.
    pub fn position(&self, place: u32) -> usize {
        match self.positions.get(place as usize) {
            Some(position) => *position as usize,
            None => 0,
        }
    }

    /// The next search in the clause at a place begins at a position.
    pub fn set_position(&mut self, place: u32, position: usize)
        ensures { self.new ≡ self.old }
    {
        if (place as usize) < self.positions.len() {
            self.positions[place as usize] = u32::try_from(position).unwrap_or(0);
        }
    }

    /// Holds a clause, under the next id. A list of 2^32 literals is taken for want of memory.
    pub fn push(&mut self, clause: &[Lit]) -> Mem<()>
        ensures { OnOk result (self.new ≡ self.old ++ Clause clause.now ∷ []) }
    {
        let start = place_of(self.literals.len())?;
        self.literals.extend_from_slice(clause)?;
        let end = place_of(self.literals.len())?;
        self.spans.push(Span {
            start,
            end,
            is_true: false,
        })?;
        self.positions.push(0)?;
        Ok(())
    }

    /// Holds a clause that is always true, under the next id.
    pub fn push_true(&mut self) -> Mem<()>
        ensures { OnOk result (self.new ≡ self.old ++ True ∷ []) }
    {
        self.spans.push(Span {
            start: 0,
            end: 0,
            is_true: true,
        })?;
        self.positions.push(0)?;
        Ok(())
    }
}
