// The way back from values of the variables to the atoms.
ghost use Rattle.std.specs.Prelude.{◌≡◌, List, ℕ, [], ◌∷◌, ◌++◌, OnOk, IfOk};
ghost use Rattle.cnf_base.specs.Formulas.{value_of};
ghost use Rattle.clause_form.specs.Meaning.{true_atoms};

use base::Mem;
use cnf_base::Values;
use ground_terms::{Assignment, Atom};
use std::alloc::Global;
use std::marker::Model;

/// The atoms of formulas, each with its variable, in the order of their variables.
#[derive(Drop)]
pub struct AtomMap {
    atoms: Vec<(Atom, u32)>,
}

impl Model for AtomMap {
    ghost use Rattle.std.specs.Prelude.{List, ℕ};
    ghost use Rattle.ground_terms.specs.declared.atom.Atom.{Atom};

    ghost Value = { List (Atom × ℕ) };

    ghost view = { λ m. m.atoms.items };
}

impl AtomMap {
    pub fn new(atoms: Vec<(Atom, u32)>) -> AtomMap
        ensures { result ≡ atoms.items }
    {
        AtomMap { atoms }
    }

    /// The atoms that values of the variables make true. A variable without a value is false.
    pub fn assign(&self, alloc: Global, values: &Values) -> Mem<Assignment>
        ensures { IfOk result (λ assignment. assignment ≡ true_atoms values.now self.now) }
    {
        let mut atoms = Vec::new(alloc);
        for entry in &self.atoms {
            push_true(&mut atoms, entry, values)?;
        }
        Ok(Assignment::new(atoms))
    }
}

// Variables begin at 1: what is asked of 0 is answered as of 1.
fn is_true(values: &Values, variable: u32) -> bool
    ensures { result ≡ value_of values.now variable }
{
    values.value(variable.max(1))
}

// Adds the atom if its variable is true.
fn push_true(atoms: &mut Vec<Atom>, entry: &(Atom, u32), values: &Values) -> Mem<()>
    ensures { OnOk result (atoms.new.items ≡ atoms.old.items ++ true_atoms values.now (entry.now ∷ [])) }
{
    if is_true(values, entry.1) {
        atoms.push(entry.0.copy())?;
    }
    Ok(())
}
