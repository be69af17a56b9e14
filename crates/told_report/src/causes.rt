// Why something is left open.
ghost use Rattle.told_text.specs.Written.{Wrote};
ghost use Rattle.told_report.specs.CauseWords.{terms_words, ground_words, conflicts_words};
ghost use Rattle.told_report.specs.CauseWords.{cause_words, cause_line, open_at};

use crate::numbers::{push_numbered, push_two_numbered};
use limits::Cause;
use told_text::Text;

// The most that each option can be.
const MOST_TERMS: u64 = 100_000;

const MOST_GROUND: u64 = 50_000_000;

const MOST_CONFLICTS: u64 = 100_000_000;

fn push_terms(out: &mut Text, n: u64)
    ensures { Wrote out.old out.new (terms_words n) }
{
    if MOST_TERMS < n {
        let more = " ground terms, more than --terms can be (";
        push_two_numbered(out, "", n, more, MOST_TERMS, ")");
    } else {
        let raise = " ground terms; raise --terms, up to ";
        push_two_numbered(out, "", n, raise, MOST_TERMS, "");
    }
}

fn push_ground(out: &mut Text, n: u64)
    ensures { Wrote out.old out.new (ground_words n) }
{
    if MOST_GROUND < n {
        let more = ", more than --ground can be (";
        push_two_numbered(out, "ground size ", n, more, MOST_GROUND, ")");
    } else {
        let raise = "; raise --ground, up to ";
        push_two_numbered(out, "ground size ", n, raise, MOST_GROUND, "");
    }
}

fn push_conflicts(out: &mut Text, n: u64)
    ensures { Wrote out.old out.new (conflicts_words n) }
{
    if n < MOST_CONFLICTS {
        let raise = " conflicts were too few; raise --conflicts, up to ";
        push_two_numbered(out, "", n, raise, MOST_CONFLICTS, "");
    } else {
        let spent = " conflicts were too few, and --conflicts can be no more";
        push_numbered(out, "", n, spent);
    }
}

/// Adds why something is left open, and what helps.
pub fn push_cause_words(out: &mut Text, cause: &Cause)
    ensures { Wrote out.old out.new (cause_words cause.now) }
{
    match cause {
        Cause::Formula => out.push_str("the formula is too large"),
        Cause::Terms(n) => push_terms(out, *n),
        Cause::Ground(n) => push_ground(out, *n),
        Cause::Conflicts(n) => push_conflicts(out, *n),
    }
}

/// Adds it as a line of its own, behind a word.
#[tactic(auto, using(std::proofs::Common::append_assoc), unfolding(crate::specs::CauseWords::cause_line))]
pub fn push_cause_line(out: &mut Text, before: &str, cause: &Cause)
    ensures { Wrote out.old out.new (cause_line before.now cause.now) }
{
    out.push_str(before);
    push_cause_words(out, cause);
    out.push_str("\n");
}

/// Adds the path of a goal that is left open, and why it is, between two words.
#[tactic(auto, using(std::proofs::Common::append_assoc), unfolding(crate::specs::CauseWords::open_at))]
pub fn push_open_at(out: &mut Text, before: &str, path: u32, cause: &Cause, behind: &str)
    ensures { Wrote out.old out.new (open_at before.now path cause.now behind.now) }
{
    push_numbered(out, before, path as u64, ": ");
    push_cause_words(out, cause);
    out.push_str(behind);
}
