// What follows from the definitions alone. Crates above call these, since no proof of one crate names one of another.
ghost use Rattle.std.specs.Prelude.{ℕ, Bool, true, List, [], ◌∷◌, ◌++◌, ◌||◌, ◌==◌, ◌≤◌, ◌<◌, ◌^◌, length, Ok, ◌≡◌};
ghost use Rattle.std.specs.Prelude.{Some, slice_get};
ghost use Rattle.cnf_base.specs.declared.cnf.Entry.TheVariants.{Clause};
ghost use Rattle.cnf_base.specs.Clauses.{SatisfiesClause};
ghost use Rattle.cnf_base.specs.Formulas.{Formula, IsUnsatisfiable};
ghost use Rattle.lrat_log.specs.declared.line.Line.{Line};
ghost use Rattle.lrat_log.specs.Held.{Held, SatisfiesHeld, after_line, after_lines};
ghost use Rattle.lrat_log.specs.Accepted.{outcome_of, outcome_of_addition, last_id, IsFit, IsAccepted};
ghost use Rattle.lrat_log.specs.Accepted.{IsAcceptedFrom, adds_empty};
ghost use Rattle.lrat_log.specs.Learnt.{IsResolvent, IsLearnt, AreLearnt, AreLearntFrom, IsWithin};
ghost use Rattle.lrat_log.specs.Refutations.{IsSpent};
ghost use Rattle.lrat_log.specs.declared.outcome.Outcome.TheVariants.{Accepted};
ghost use Rattle.lrat_log.specs.declared.line.Line.TheVariants.{Add, Delete};
ghost use Rattle.lrat_log.specs.Logs.{IsLog, IsLineOver, IsLogOver};
ghost use Rattle.lrat_log.specs.Reading.{read_of};
ghost use Rattle.lrat_log.specs.declared.fault_code.LogFaultCode.{LogFaultCode};
ghost use Rattle.lrat_log.specs.declared.refusal_code.RefusalCode.{RefusalCode};
ghost use Rattle.lrat_log.specs.FaultCodes as fault_codes;
ghost use Rattle.lrat_log.specs.RefusalCodes as refusal_codes;
ghost use Rattle.lrat_log.specs.Writing.{text_of};

use cnf_base::{opposite_laws, piece_law, word_laws};

/// What an accepted log shows: truth values that satisfy the held clauses satisfy an accepted addition,
/// and where an addition without literals is accepted, none satisfy the formula.
pub fn soundness()
    ensures addition { (value : ℕ → Bool) (held : Held) (ls hints : List ℕ) → SatisfiesHeld value held
        → outcome_of_addition held ls hints ≡ Accepted → SatisfiesClause value ls }
    ensures refutation { (f : Formula) (lines : List Line) → IsAccepted f lines → adds_empty lines ≡ true
        → IsUnsatisfiable f }
{
    opposite_laws();
}

/// Codes of the same number are the same.
pub fn code_laws()
    ensures fault { (a b : LogFaultCode) → fault_codes.number_of a ≡ fault_codes.number_of b → a ≡ b }
    ensures refusal { (a b : RefusalCode) → refusal_codes.number_of a ≡ refusal_codes.number_of b → a ≡ b }
{}

/// Learnt additions are accepted.
pub fn learnt_laws()
    ensures resolvent { (held : Held) (ls hints : List ℕ) → IsResolvent held ls hints
        → outcome_of_addition held ls hints ≡ Accepted }
    ensures log { (f : Formula) (lines : List Line) → AreLearnt f lines → IsAccepted f lines }
{}

/// What is learnt is new. A learnt addition contains no clause that is held, and so none that was learnt before it:
/// no two have the same literals. Of the clauses over V variables that have no opposite literals and are not empty
/// there are `3 ^ V - 1`, so fewer than `3 ^ V` are learnt, and a budget of `3 ^ V` or more is never spent.
pub fn bound_law()
    ensures new { (held : Held) (ls hints : List ℕ) (id : ℕ) (c : List ℕ) → IsLearnt held ls hints
        → held id ≡ Some (Clause c) → IsWithin c ls → ⊥ }
    ensures different { (f : Formula) (lines : List Line) (j k m n : ℕ) (c d gs hs : List ℕ) → AreLearnt f lines
        → j < k → slice_get lines j ≡ Some (Add m c gs) → slice_get lines k ≡ Some (Add n d hs)
        → IsWithin c d → ⊥ }
    ensures log { (f : Formula) (lines : List Line) → AreLearnt f lines → length lines < 3 ^ f.variables }
    ensures budget { (f : Formula) (budget : ℕ) (lines : List Line) → IsSpent f budget lines
        → budget < 3 ^ f.variables }
{
    opposite_laws();
}

/// One more line behind a log: what is held, the greatest id, whether an addition without literals is
/// among the lines, and that the longer log is in range, accepted, or learnt.
pub fn growth_laws()
    ensures held { (held : Held) (lines : List Line) (line : Line)
        → after_lines held (lines ++ line ∷ []) ≡ after_line (after_lines held lines) line }
    ensures last { (last : ℕ) (lines : List Line) (line : Line)
        → last_id last (lines ++ line ∷ []) ≡ last_id (last_id last lines) (line ∷ []) }
    ensures addition { (lines : List Line) (id : ℕ) (ls hints : List ℕ)
        → adds_empty (lines ++ Add id ls hints ∷ []) ≡ (adds_empty lines || length ls == 0) }
    ensures deletion { (lines : List Line) (id : ℕ) (ids : List ℕ)
        → adds_empty (lines ++ Delete id ids ∷ []) ≡ adds_empty lines }
    ensures log { (n : ℕ) (last : ℕ) (lines : List Line) (line : Line) → IsLogOver n last lines
        → IsLineOver n (last_id last lines) line → IsLogOver n last (lines ++ line ∷ []) }
    ensures accepted { (n : ℕ) (held : Held) (last : ℕ) (lines : List Line) (line : Line)
        → IsAcceptedFrom n held last lines → IsFit n (last_id last lines) line
        → outcome_of (after_lines held lines) line ≡ Accepted → IsAcceptedFrom n held last (lines ++ line ∷ []) }
    ensures learnt { (n : ℕ) (held : Held) (last : ℕ) (lines : List Line) (id : ℕ) (ls hints : List ℕ)
        → AreLearntFrom n held last lines → IsFit n (last_id last lines) (Add id ls hints)
        → IsLearnt (after_lines held lines) ls hints → AreLearntFrom n held last (lines ++ Add id ls hints ∷ []) }
{}

/// Lines in the range of a formula are a log, which can be written.
pub fn range_laws()
    ensures { (variables last : ℕ) (lines : List Line) → variables ≤ 2147483647 → IsLogOver variables last lines
        → IsLog lines }
{}

/// What is written is read again, for a formula whose variables the log keeps to and whose clauses
/// have smaller ids.
pub fn round_trip()
    ensures { (variables clauses : ℕ) (lines : List Line) → IsLog lines → IsLogOver variables clauses lines
        → read_of variables clauses (text_of lines) ≡ Ok lines }
{
    word_laws();
    piece_law();
}
