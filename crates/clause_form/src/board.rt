// What is written of the clauses, and what is open. A node is ended when the next call comes, and not with its last
// part: so a call that is refused for want of memory while it ends nodes leaves what stands for the same calls.
ghost use Rattle.std.specs.Prelude.{◌≡◌, ◌<◌, ◌≤◌, ◌^◌, List, [], ◌∷◌, ◌++◌, take, drop, length, true, false, Some};
ghost use Rattle.std.specs.Prelude.{None, Ok, OnOk, OnErr, IfOk};
ghost use Rattle.ground_terms.specs.Calls.{a_literal, a_node};
ghost use Rattle.clause_form.specs.Numbers.{variable_in};
ghost use Rattle.clause_form.specs.Clauses.{unless_true, implies, implies_each, definition};
ghost use Rattle.clause_form.specs.Machine.{settle, act};
ghost use Rattle.clause_form.specs.Boards.{state_of, IsOpen};

use crate::atom_table::AtomTable;
use crate::frame::Frame;
use crate::stack::Stack;
use base::Mem;
use cnf_base::{Entry, Lit, entry};
use ground_terms::{Atom, Junction};
use smallvec::SmallVec;
use std::alloc::Global;

/// The most variables that there may be.
pub const LIMIT: u32 = 2147483647;

/// How many variables were given, those of the atoms, the open nodes, the literals of their parts so far, and the
/// clauses.
#[derive(Drop)]
pub struct Board {
    pub alloc: Global,
    pub variables: u32,
    pub atoms: AtomTable,
    pub nodes: Stack,
    pub lits: Vec<Lit>,
    pub clauses: Vec<Entry>,
}

// Writes a clause that isn't always true.
fn write(clauses: &mut Vec<Entry>, entry: Entry) -> Mem<()>
    ensures written { OnOk result (clauses.new.items ≡ clauses.old.items ++ unless_true entry) }
    ensures kept { OnErr result (clauses.new.items ≡ clauses.old.items) }
{
    match entry {
        Entry::True => {}
        Entry::Clause(clause) => clauses.push(Entry::Clause(clause))?,
    }
    Ok(())
}

// Writes "own implies one of these".
fn imply(alloc: Global, clauses: &mut Vec<Entry>, own: Lit, parts: &[Lit]) -> Mem<()>
    ensures written { OnOk result (clauses.new.items ≡ clauses.old.items ++ implies own parts.now) }
    ensures kept { OnErr result (clauses.new.items ≡ clauses.old.items) }
{
    let mut lits: SmallVec<Lit, 8> = SmallVec::new(alloc);
    lits.push(own.opposite())?;
    lits.extend_from_slice(parts)?;
    let clause = entry(alloc, lits.as_slice())?;
    write(clauses, clause)?;
    Ok(())
}

// Writes "own implies each of these"; for want of memory a front of it.
fn imply_each(alloc: Global, clauses: &mut Vec<Entry>, own: Lit, parts: &[Lit]) -> Mem<()>
    ensures written { OnOk result (clauses.new.items ≡ clauses.old.items ++ implies_each own parts.now) }
    ensures kept { take (length clauses.old.items) clauses.new.items ≡ clauses.old.items }
{
    let mut rest = parts;
    while let [part, after @ ..] = rest {
        imply(alloc, clauses, own, &[*part])?;
        rest = after;
    }
    Ok(())
}

// Writes what a node implies of its parts.
fn define(
    alloc: Global,
    clauses: &mut Vec<Entry>,
    junction: Junction,
    own: Lit,
    parts: &[Lit],
) -> Mem<()>
    ensures written { OnOk result (clauses.new.items ≡ clauses.old.items ++ definition junction own parts.now) }
    ensures kept { OnErr result (clauses.new.items ≡ clauses.old.items) }
{
    match junction {
        Junction::Or => imply(alloc, clauses, own, parts),
        Junction::And => {
            let before = clauses.len();
            match imply_each(alloc, clauses, own, parts) {
                Ok(()) => Ok(()),
                Err(e) => {
                    clauses.truncate(before);
                    Err(e)
                }
            }
        }
    }
}

// The literals from a place on.
fn behind(lits: &[Lit], start: usize) -> &[Lit]
    ensures { result.now ≡ drop start lits.now }
{
    if start < lits.len() {
        &lits[start..]
    } else {
        &[]
    }
}

impl Board {
    // Ends the innermost node if all its parts are there.
    fn end_node(&mut self) -> Mem<bool>
        ensures same { settle (state_of self.new) ≡ settle (state_of self.old) }
        ensures still { result ≡ Ok false → IsOpen self.new.nodes self.new.lits.items }
        ensures variables { self.new.variables ≡ self.old.variables }
        ensures fewer { IfOk result (λ ended. ended ≡ true → length self.new.nodes < length self.old.nodes) }
    {
        let Some(frame) = self.nodes.first() else {
            return Ok(false);
        };
        let parts = behind(&self.lits, frame.start);
        if parts.len() as u64 != frame.parts {
            return Ok(false);
        }
        define(
            self.alloc,
            &mut self.clauses,
            frame.junction,
            frame.own,
            parts,
        )?;
        self.lits.truncate(frame.start);
        self.nodes.pop();
        Ok(true)
    }

    // Ends a formula if no node is open.
    fn end_formula(&mut self) -> Mem<()>
        requires { IsOpen self.old.nodes self.old.lits.items }
        ensures ended { OnOk result (state_of self.new ≡ settle (state_of self.old)) }
        ensures kept { OnErr result (state_of self.new ≡ state_of self.old) }
        ensures variables { self.new.variables ≡ self.old.variables }
    {
        if self.nodes.first().is_some() {
            return Ok(());
        }
        let [lit, ..] = self.lits.as_slice() else {
            return Ok(());
        };
        let unit = entry(self.alloc, &[*lit])?;
        self.clauses.push(unit)?;
        self.lits.truncate(0);
        Ok(())
    }

    /// Ends what has all its parts.
    pub fn settle(&mut self) -> Mem<()>
        ensures ended { OnOk result (state_of self.new ≡ settle (state_of self.old)) }
        ensures kept { OnErr result (settle (state_of self.new) ≡ settle (state_of self.old)) }
        ensures variables { self.new.variables ≡ self.old.variables }
    {
        while self.end_node()? {}
        self.end_formula()
    }

    /// Takes a literal; false where its atom would have a variable too many.
    pub fn literal(&mut self, atom: Atom, positive: bool) -> Mem<bool>
        requires { self.old.variables ≤ LIMIT }
        ensures taken { result ≡ Ok true → state_of self.new ≡ act (state_of self.old) (a_literal atom positive) }
        ensures left { IfOk result (λ taken. taken ≡ false
            → (variable_in self.old.atoms atom ≡ None) × (self.old.variables ≡ LIMIT)) }
        ensures kept { OnErr result (state_of self.new ≡ state_of self.old) }
        ensures limit { self.new.variables ≤ LIMIT }
    {
        match self.atoms.variable(&atom) {
            Some(variable) => {
                self.lits.push(Lit::new(variable, positive))?;
                Ok(true)
            }
            None => {
                if self.variables == LIMIT {
                    return Ok(false);
                }
                self.new_atom(atom, positive)?;
                Ok(true)
            }
        }
    }

    // Takes a literal of an atom that has no variable.
    fn new_atom(&mut self, atom: Atom, positive: bool) -> Mem<()>
        requires below { self.old.variables < LIMIT }
        requires new { variable_in self.old.atoms atom ≡ None }
        ensures taken { OnOk result (state_of self.new ≡ act (state_of self.old) (a_literal atom positive)) }
        ensures kept { OnErr result (state_of self.new ≡ state_of self.old) }
        ensures limit { self.new.variables ≤ LIMIT }
    {
        let variable = self.variables + 1;
        let before = self.lits.len();
        self.lits.push(Lit::new(variable, positive))?;
        match self.atoms.add(atom, variable) {
            Ok(()) => {
                self.variables = variable;
                Ok(())
            }
            Err(e) => {
                self.lits.truncate(before);
                Err(e)
            }
        }
    }

    /// Opens a node.
    pub fn node(&mut self, junction: Junction, parts: u64) -> Mem<()>
        requires { self.old.variables < LIMIT }
        ensures taken { OnOk result (state_of self.new ≡ act (state_of self.old) (a_node junction parts)) }
        ensures kept { OnErr result (state_of self.new ≡ state_of self.old) }
        ensures limit { self.new.variables ≤ LIMIT }
    {
        let variable = self.variables + 1;
        let before = self.lits.len();
        let own = Lit::positive(variable);
        self.lits.push(own)?;
        let frame = Frame {
            junction,
            own,
            parts,
            start: self.lits.len(),
        };
        match self.nodes.push(frame) {
            Ok(()) => {
                self.variables = variable;
                Ok(())
            }
            Err(e) => {
                self.lits.truncate(before);
                Err(e)
            }
        }
    }
}
