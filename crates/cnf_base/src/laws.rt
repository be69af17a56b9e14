// What follows from the definitions alone. Crates above call these, since no proof of one crate names one of another.
ghost use Rattle.std.specs.Prelude.{ℕ, ◌+◌, ◌≤◌, Bool, true, false, not, List, [], ◌∷◌, ◌++◌, length, decimal, Some};
ghost use Rattle.std.specs.Prelude.{Ok, ◌≡◌, ◌↔◌};
ghost use Rattle.cnf_base.specs.Literals.{opposite, variable_of, is_positive, literal_of, is_true, IsLiteral};
ghost use Rattle.cnf_base.specs.Literals.{AreLiterals};
ghost use Rattle.cnf_base.specs.declared.cnf.Entry.TheVariants.{Clause};
ghost use Rattle.cnf_base.specs.Clauses.{IsClause, IsEntry, entry_of, SatisfiesClause, SatisfiesEntry};
ghost use Rattle.cnf_base.specs.Formulas.{Formula};
ghost use Rattle.cnf_base.specs.declared.text.LineMode.{LineMode};
ghost use Rattle.cnf_base.specs.declared.text.Numeral.{Numeral};
ghost use Rattle.cnf_base.specs.declared.text.LineMode.TheVariants.{LineStart, InLine};
ghost use Rattle.cnf_base.specs.Words.{Word, words_of};
ghost use Rattle.base.specs.Bytes.{is_blank};
ghost use Rattle.cnf_base.specs.Modes.{behind, words_from};
ghost use Rattle.cnf_base.specs.Pieces.{pieces_of};
ghost use Rattle.cnf_base.specs.Cuts.{AreCut};
ghost use Rattle.cnf_base.specs.Places.{BeginBy};
ghost use Rattle.cnf_base.specs.Starts.{IsBetween};
ghost use Rattle.cnf_base.specs.Numerals.{number_of, max_number};
ghost use Rattle.cnf_base.specs.Reading.{read_of};
ghost use Rattle.cnf_base.specs.declared.fault_code.CnfFaultCode.{CnfFaultCode};
ghost use Rattle.cnf_base.specs.FaultCodes as fault_codes;
ghost use Rattle.cnf_base.specs.Writing.{literal_text, text_of, CanWrite};

/// A literal and its opposite.
pub fn opposite_laws()
    ensures twice { (l : ℕ) → opposite (opposite l) ≡ l }
    ensures differs { (l : ℕ) → opposite l ≡ l → ⊥ }
    ensures variable { (l : ℕ) → variable_of (opposite l) ≡ variable_of l }
    ensures literal { (n l : ℕ) → IsLiteral n l → IsLiteral n (opposite l) }
    ensures truth { (value : ℕ → Bool) (l : ℕ) → is_true value (opposite l) ≡ not (is_true value l) }
{}

/// What a list of literals makes is over the same variables, and the same truth values satisfy it; a
/// clause makes itself.
pub fn entry_laws()
    ensures entry { (n : ℕ) (ls : List ℕ) → AreLiterals n ls → IsEntry n (entry_of [] ls) }
    ensures truth { (value : ℕ → Bool) (ls : List ℕ)
        → SatisfiesEntry value (entry_of [] ls) ↔ SatisfiesClause value ls }
    ensures clause { (ls : List ℕ) → IsClause ls → entry_of [] ls ≡ Clause ls }
{}

/// Codes of the same number are the same.
pub fn code_law()
    ensures { (a b : CnfFaultCode) → fault_codes.number_of a ≡ fault_codes.number_of b → a ≡ b }
{}

/// What is written is read again.
pub fn round_trip()
    ensures { (f : Formula) → CanWrite f → read_of (text_of f) ≡ Ok f }
{}

/// The pieces of some words are the words again, cut behind each 0.
pub fn piece_law()
    ensures { (ws : List Word) → AreCut (pieces_of ws) ws }
{}

/// A number, or a literal, in front of a blank is one word, which says it. Words that are found byte by
/// byte are the words of the text, and each begins in it.
pub fn word_laws()
    ensures number { (mode : LineMode) (n : ℕ) (rest : List ℕ) (b at : ℕ)
        → IsBetween mode → n ≤ max_number → is_blank b ≡ true
        → words_from mode at (decimal n ++ b ∷ rest)
        ≡ record { at = at; text = decimal n } ∷ words_from (behind b) (at + length (decimal n) + 1) rest }
    ensures number_value { (n : ℕ)
        → n ≤ max_number → number_of (decimal n) ≡ Some (record { negative = false; value = n }) }
    ensures literal { (mode : LineMode) (n l : ℕ) (rest : List ℕ) (at : ℕ)
        → IsBetween mode → n ≤ max_number → IsLiteral n l
        → words_from mode at (literal_text l ++ 32 ∷ rest)
        ≡ record { at = at; text = literal_text l } ∷ words_from InLine (at + length (literal_text l) + 1) rest }
    ensures literal_value { (n l : ℕ) → n ≤ max_number → IsLiteral n l
        → number_of (literal_text l) ≡ Some (record { negative = not (is_positive l); value = variable_of l }) }
    ensures small { (text : List ℕ) (n : Numeral) → number_of text ≡ Some n → n.value ≤ max_number }
    ensures same { (l : ℕ) → literal_of (not (not (is_positive l))) (variable_of l) ≡ l }
    ensures words { (text : List ℕ) → words_from LineStart 0 text ≡ words_of text }
    ensures places { (text : List ℕ) → BeginBy (length text) (words_of text) }
{}
