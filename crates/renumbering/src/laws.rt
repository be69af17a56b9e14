// What holds of a dense formula holds of the formula, under the names.
ghost use Rattle.std.specs.Prelude.{◌≡◌, ℕ, ◌≤◌, List, length, map};
ghost use Rattle.cnf_base.specs.Formulas.{Formula};
ghost use Rattle.lrat_log.specs.declared.line.Line.{Line};
ghost use Rattle.lrat_log.specs.Logs.{IsLogOver};
ghost use Rattle.lrat_log.specs.Refutations.{IsRefutation, IsSpent};
ghost use Rattle.renumbering.specs.Named.{named_line};
ghost use Rattle.cnf_base.specs.Rising.{AreRising};
ghost use Rattle.renumbering.specs.Renumbered.{IsRenumbered};

use lrat_log::{growth_laws, learnt_laws};

/// Logs of the dense formula, under the names.
pub fn renumbering_laws()
    ensures range { (f d : Formula) (names : List ℕ) → IsRenumbered f d names → (lines : List Line)
        → IsLogOver d.variables (length d.clauses) lines
        → IsLogOver f.variables (length f.clauses) (map (named_line names) lines) }
    ensures spent { (f d : Formula) (names : List ℕ) → IsRenumbered f d names → (budget : ℕ) (lines : List Line)
        → IsSpent d budget lines → IsSpent f budget (map (named_line names) lines) }
    ensures refutation { (f d : Formula) (names : List ℕ) → IsRenumbered f d names → (budget : ℕ) (lines : List Line)
        → IsRefutation d budget lines → IsRefutation f budget (map (named_line names) lines) }
    ensures count { (f d : Formula) (names : List ℕ) → IsRenumbered f d names → length d.clauses ≡ length f.clauses }
    ensures few { (f d : Formula) (names : List ℕ) → IsRenumbered f d names → d.variables ≤ f.variables }
{
    growth_laws();
    learnt_laws();
}

/// Names keep to a greater bound.
pub fn variable_laws()
    ensures { (n m last : ℕ) (names : List ℕ) → n ≤ m → AreRising n last names → AreRising m last names }
{}
