// What follows from the definitions alone. Each function is its contract, and does nothing.
ghost use Rattle.std.specs.Prelude.{◌≡◌, ℕ, ◌+◌, ◌*◌, ◌≤◌, ◌++◌, Bool, true, List, length};
ghost use Rattle.cnf_base.specs.Formulas.{Satisfies, value_of};
ghost use Rattle.ground_terms.specs.declared.atom.Atom.{Atom};
ghost use Rattle.ground_terms.specs.Same.{holds_in};
ghost use Rattle.ground_terms.specs.Trees.{Tree, Trees, trees_of, all_true, nodes_all};
ghost use Rattle.clause_form.specs.Clauses.{clause_form};
ghost use Rattle.ground_terms.specs.Literals.{AreFlat, AreOver};
ghost use Rattle.clause_form.specs.Meaning.{Extends, ExtendsToModel, atoms_of, true_atoms, places_all};

use cnf_base::{entry_laws, opposite_laws};
use ground_terms::atom_laws;

/// An assignment of the atoms satisfies the formulas exactly where it extends to values that satisfy the clauses, and
/// of any values the true atoms are such an assignment.
pub fn clause_laws()
    ensures up { (ps : Trees) (v : Atom → Bool) → all_true v ps ≡ true
        → ExtendsToModel v (atoms_of ps) (clause_form ps) }
    ensures down { (ps : Trees) (v : Atom → Bool) (value : ℕ → Bool) → Extends v (atoms_of ps) value
        → Satisfies value (clause_form ps) → all_true v ps ≡ true }
    ensures extends { (ps : Trees) (values : List Bool)
        → Extends (holds_in (true_atoms values (atoms_of ps))) (atoms_of ps) (value_of values) }
    ensures assigned { (ps : Trees) (values : List Bool) → Satisfies (value_of values) (clause_form ps)
        → all_true (holds_in (true_atoms values (atoms_of ps))) ps ≡ true }
{
    atom_laws();
    opposite_laws();
    entry_laws();
}

/// There are at most two clauses and one variable for each node, and a variable is an atom's or that of an And or an
/// Or. Behind other formulas, formulas that are clauses already have at most two clauses each, and one place; and where
/// their atoms are among given ones, there are no more variables than nodes before, these formulas and these atoms.
pub fn size_laws()
    ensures clauses { (ps : Trees) → length (clause_form ps).clauses ≤ 2 * nodes_all ps }
    ensures variables { (ps : Trees) → (clause_form ps).variables ≤ nodes_all ps }
    ensures each { (ps : Trees) → (clause_form ps).variables ≡ places_all ps + length (atoms_of ps) }
    ensures clauses_behind { (ps qs : List Tree) → AreFlat qs
        → length (clause_form (trees_of (ps ++ qs))).clauses ≤ 2 * (nodes_all (trees_of ps) + length qs) }
    ensures places_behind { (ps qs : List Tree) → AreFlat qs
        → places_all (trees_of (ps ++ qs)) ≤ places_all (trees_of ps) + length qs }
    ensures variables_behind { (ps qs : List Tree) (atoms : List Atom) → AreFlat qs → AreOver atoms (trees_of qs)
        → (clause_form (trees_of (ps ++ qs))).variables ≤ nodes_all (trees_of ps) + length qs + length atoms }
{
    atom_laws();
}
