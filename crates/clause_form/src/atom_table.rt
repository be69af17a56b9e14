// The variables of atoms while clauses are written. An atom's variable is found at the atom's number, in a row that is
// as long as the greatest number that came. An atom without a number (it names a symbol or a term that there is not, or
// there are 2^32 atoms or more) is sought among all atoms, so that no caller has to promise anything of its atoms.
ghost use Rattle.std.specs.Prelude.{◌≡◌, ◌<◌, ◌≤◌, ◌^◌, ◌+◌, ℕ, List, [], ◌∷◌, ◌++◌, length, slice_index, None, OnOk};
ghost use Rattle.std.specs.Prelude.{OnErr, IfSome};
ghost use Rattle.clause_form.specs.Numbers.{variable_in};
ghost use Rattle.clause_form.specs.Tables.{some_variable};

use crate::AtomMap;
use base::Mem;
use ground_terms::{Atom, AtomNumbers, atom_laws};
use std::alloc::Global;
use std::marker::Model;

/// The atoms that have a variable, with it, in the order of their variables.
#[derive(Drop)]
pub struct AtomTable {
    numbers: AtomNumbers,
    row: Vec<u32>,
    atoms: Vec<(Atom, u32)>,
}

impl Model for AtomTable {
    ghost use Rattle.std.specs.Prelude.{List, ℕ};
    ghost use Rattle.ground_terms.specs.declared.atom.Atom.{Atom};
    ghost use Rattle.clause_form.specs.Tables.{FindsEach};

    ghost Value = { List (Atom × ℕ) };

    ghost view = { λ t. t.atoms.items };

    ghost invariant = { λ t. FindsEach t.numbers t.row.items t.atoms.items };
}

impl AtomTable {
    pub fn new(alloc: Global, numbers: AtomNumbers) -> AtomTable
        ensures { result ≡ [] }
    {
        AtomTable {
            numbers,
            row: Vec::new(alloc),
            atoms: Vec::new(alloc),
        }
    }

    pub fn variable(&self, atom: &Atom) -> Option<u32>
        ensures value { result ≡ variable_in self.now atom.now }
        ensures range { IfSome result (λ n. (0 < n) × (n < 2 ^ 31)) }
    {
        match self.numbers.number(atom) {
            Some(number) => variable_at(&self.row, number),
            None => scan(&self.atoms, atom),
        }
    }

    /// Adds an atom that has no variable yet. The table is as before where the memory is wanting.
    pub fn add(&mut self, atom: Atom, variable: u32) -> Mem<()>
        requires new { variable_in self.old atom ≡ None }
        requires range { (0 < variable) × (variable < 2 ^ 31) }
        ensures added { OnOk result (self.new ≡ self.old ++ (atom, variable) ∷ []) }
        ensures kept { OnErr result (self.new ≡ self.old) }
    {
        atom_laws();
        let Some(number) = self.numbers.number(&atom) else {
            self.atoms.push((atom, variable))?;
            return Ok(());
        };
        make_room(&mut self.row, number)?;
        self.atoms.push((atom, variable))?;
        self.row[number] = variable;
        Ok(())
    }

    pub fn into_map(self) -> AtomMap
        ensures { result ≡ self }
    {
        AtomMap::new(self.atoms)
    }
}

// The variable at a place of the row.
fn variable_at(row: &[u32], number: usize) -> Option<u32>
    ensures { result ≡ some_variable (slice_index row.now number) }
{
    if number >= row.len() {
        return None;
    }
    match row[number] {
        0 => None,
        variable => Some(variable),
    }
}

// The variable of an atom, sought among all.
fn scan(atoms: &[(Atom, u32)], atom: &Atom) -> Option<u32>
    ensures { result ≡ variable_in atoms.now atom.now }
{
    for entry in atoms {
        if *atom == entry.0 {
            return Some(entry.1);
        }
    }
    None
}

// Lengthens the row so that it has a place for the number.
fn make_room(row: &mut Vec<u32>, number: usize) -> Mem<()>
    requires { number < 2 ^ 32 }
    ensures room { OnOk result (number < length row.new.items) }
    ensures same { (k : ℕ) → slice_index row.new.items k ≡ slice_index row.old.items k }
{
    if row.len() <= number {
        row.resize(number + 1, 0)?;
    }
    Ok(())
}
