// The existentials that a sentence has in normal form, sort by sort, without the normal form. Each part of the sentence
// stands there some times as it is and some times negated; an equivalence has both of both sides, so one walk does.
ghost use Rattle.std.specs.Prelude.{◌≡◌};
ghost use Rattle.fol_formula.specs.View.{form, forms};
ghost use Rattle.ground_size.specs.Walks.{raised_at, raised, all_raised};

use crate::counts::{count_of, set_count};
use fol_formula::Formula;
use fol_sig::Sort;

/// Counts so many existentials of the sort.
fn raise(counts: &mut [u64], sort: Sort, by: u64)
    ensures { counts.new ≡ raised_at counts.old sort.0 by }
{
    let count = count_of(counts, sort).saturating_add(by);
    set_count(counts, sort, count);
}

/// Counts the existentials of a formula that stands so many times as it is, and so many times negated.
#[cycle(existentials)]
pub(crate) fn add_existentials(counts: &mut [u64], formula: &Formula, positive: u64, negative: u64)
    ensures { counts.new ≡ raised positive negative (form formula.now) counts.old }
{
    match formula {
        Formula::True => {}
        Formula::False => {}
        Formula::Rel(_, _) => {}
        Formula::Eq(_, _) => {}
        Formula::Not(p) => add_existentials(counts, p, negative, positive),
        Formula::And(ps) => add_existentials_of_all(counts, ps, positive, negative),
        Formula::Or(ps) => add_existentials_of_all(counts, ps, positive, negative),
        Formula::Implies(p, q) => {
            add_existentials(counts, p, negative, positive);
            add_existentials(counts, q, positive, negative);
        }
        Formula::Iff(p, q) => {
            let both = positive.saturating_add(negative);
            add_existentials(counts, p, both, both);
            add_existentials(counts, q, both, both);
        }
        Formula::Forall(sort, p) => {
            raise(counts, *sort, negative);
            add_existentials(counts, p, positive, negative);
        }
        Formula::Exists(sort, p) => {
            raise(counts, *sort, positive);
            add_existentials(counts, p, positive, negative);
        }
    }
}

#[cycle(existentials)]
fn add_existentials_of_all(counts: &mut [u64], formulas: &[Formula], positive: u64, negative: u64)
    ensures { counts.new ≡ all_raised positive negative (forms formulas.now) counts.old }
{
    for p in formulas {
        add_existentials(counts, p, positive, negative);
    }
}
