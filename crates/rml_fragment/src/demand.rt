// What a sentence of a text must be. The word before it decides, since the same sentence is assumed by one command and
// has its negation assumed by another.
ghost use Rattle.std.specs.Prelude.{◌≡◌, ◌↔◌, IsTrue};
ghost use Rattle.rml_fragment.specs.Demands.{Meets, code_of, demand_of};

use fol_formula::Sentence;
use rml_command::Word;
use rml_lex::FaultCode;

/// What a sentence must be, with its negations at the atoms. Quantifiers inside `ite` don't count.
#[derive(Clone, Copy, Debug, PartialEq, Eq)]
pub enum Demand {
    /// No existential stands in the scope of a universal.
    ExistsForall,
    /// The negation is exists-forall.
    ForallExists,
    /// Both.
    AlternationFree,
    /// No existential stands anywhere.
    Universal,
}

impl Demand {
    /// What stands behind this word must be so.
    pub fn of(word: Word) -> Demand
        ensures { result ≡ demand_of word }
    {
        match word {
            Word::Assume => Demand::ExistsForall,
            Word::Assert => Demand::ForallExists,
            Word::If => Demand::AlternationFree,
        }
    }

    /// The code of the fault of a sentence that is not so.
    pub fn code(self) -> FaultCode
        ensures { result ≡ code_of self }
    {
        match self {
            Demand::ExistsForall | Demand::ForallExists => FaultCode::NotExistsForall,
            Demand::Universal => FaultCode::NotUniversal,
            Demand::AlternationFree => FaultCode::NotAlternationFree,
        }
    }

    /// Whether a sentence is so.
    pub fn is_met(self, sentence: &Sentence) -> bool
        ensures { IsTrue result ↔ Meets self sentence.now }
    {
        let classes = sentence.formula().prefix_classes();
        match self {
            Demand::ExistsForall => classes.exists_forall,
            Demand::ForallExists => classes.forall_exists,
            Demand::AlternationFree => classes.exists_forall && classes.forall_exists,
            Demand::Universal => classes.universal,
        }
    }
}
