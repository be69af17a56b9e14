// Numbers between words.
ghost use Rattle.told_text.specs.Written.{Wrote};
ghost use Rattle.told_report.specs.NumberText.{numbered, two_numbered};

use told_text::Text;

/// Adds a number between two words.
#[tactic(auto, using(std::proofs::Common::append_assoc), unfolding(crate::specs::NumberText::numbered))]
pub fn push_numbered(out: &mut Text, before: &str, n: u64, behind: &str)
    ensures { Wrote out.old out.new (numbered before.now n behind.now) }
{
    out.push_str(before);
    out.push_number(n);
    out.push_str(behind);
}

/// Adds two numbers, with words before, between and behind them.
#[tactic(auto, using(std::proofs::Common::append_assoc), unfolding(crate::specs::NumberText::two_numbered))]
pub fn push_two_numbered(
    out: &mut Text,
    before: &str,
    n: u64,
    between: &str,
    most: u64,
    behind: &str,
)
    ensures { Wrote out.old out.new (two_numbered before.now n between.now most behind.now) }
{
    push_numbered(out, before, n, between);
    out.push_number(most);
    out.push_str(behind);
}
