// How many existentials the normal form of a formula has, without the normal form. That of the
// negation is counted beside it: an equivalence needs both of both sides, and two walks would double
// the work at each level.
ghost use Rattle.std.specs.Prelude.{◌≡◌, ◌+◌, true, false};
ghost use Rattle.fol_formula.specs.Syntax.{forms_of};
ghost use Rattle.fol_formula.specs.Sentences.{all_of};
ghost use Rattle.fol_formula.specs.View.{form, forms};
ghost use Rattle.fol_formula.specs.Counts.{saturated};
ghost use Rattle.fol_formula.specs.Witnesses.{existentials};
ghost use Rattle.fol_formula.specs.Existentials.{number_of, number_of_all, CountsBoth};

use crate::{Formula, Sentence};

// Of the normal form, and of that of the negation. Both stop at the greatest number.
#[derive(Clone, Copy)]
struct Existentials {
    positive: u64,
    negative: u64,
}

impl Existentials {
    const NONE: Existentials = Existentials {
        positive: 0,
        negative: 0,
    };

    fn beside(self, other: Existentials) -> Existentials
        ensures { CountsBoth result (self.positive + other.positive) (self.negative + other.negative) }
    {
        Existentials {
            positive: self.positive.saturating_add(other.positive),
            negative: self.negative.saturating_add(other.negative),
        }
    }

    fn opposite(self) -> Existentials
        ensures positive { result.positive ≡ self.negative }
        ensures negative { result.negative ≡ self.positive }
    {
        Existentials {
            positive: self.negative,
            negative: self.positive,
        }
    }

    // As sides of an equivalence, which stand both ways.
    fn both_ways(self) -> Existentials
        ensures { CountsBoth result (self.positive + self.negative) (self.positive + self.negative) }
    {
        let all = self.positive.saturating_add(self.negative);
        Existentials {
            positive: all,
            negative: all,
        }
    }

    fn under_all(self) -> Existentials
        ensures { CountsBoth result self.positive (self.negative + 1) }
    {
        Existentials {
            positive: self.positive,
            negative: self.negative.saturating_add(1),
        }
    }

    fn under_some(self) -> Existentials
        ensures { CountsBoth result (self.positive + 1) self.negative }
    {
        Existentials {
            positive: self.positive.saturating_add(1),
            negative: self.negative,
        }
    }
}

impl Formula {
    /// How many existentials its normal form has, or the greatest number where it has more.
    pub fn existentials(&self) -> u64
        ensures { result ≡ saturated (existentials (form self.now)) }
    {
        count(self).positive
    }
}

/// How many existentials the normal form of the sentences' conjunction has, or the greatest number where
/// it has more.
pub fn existentials_of_all(sentences: &[Sentence]) -> u64
    ensures { result ≡ saturated (existentials (all_of sentences.now)) }
{
    count_sentences(sentences)
}

fn count_sentences(sentences: &[Sentence]) -> u64
    ensures { result ≡ saturated (number_of_all true (forms_of sentences.now)) }
{
    let mut all = 0u64;
    for sentence in sentences {
        all = all.saturating_add(count(sentence.formula()).positive);
    }
    all
}

#[cycle(count)]
fn count(formula: &Formula) -> Existentials
    ensures { CountsBoth result (number_of true (form formula.now)) (number_of false (form formula.now)) }
{
    match formula {
        Formula::True => Existentials::NONE,
        Formula::False => Existentials::NONE,
        Formula::Rel(_, _) => Existentials::NONE,
        Formula::Eq(_, _) => Existentials::NONE,
        Formula::Not(p) => count(p).opposite(),
        Formula::And(ps) => count_all(ps),
        Formula::Or(ps) => count_all(ps),
        Formula::Implies(p, q) => count(p).opposite().beside(count(q)),
        Formula::Iff(p, q) => count(p).beside(count(q)).both_ways(),
        Formula::Forall(_, p) => count(p).under_all(),
        Formula::Exists(_, p) => count(p).under_some(),
    }
}

#[cycle(count)]
fn count_all(formulas: &[Formula]) -> Existentials
    ensures { CountsBoth result (number_of_all true (forms formulas.now)) (number_of_all false (forms formulas.now)) }
{
    let mut all = Existentials::NONE;
    for p in formulas {
        all = all.beside(count(p));
    }
    all
}
