// Marks, told line by line.
ghost use Rattle.std.specs.Prelude.{◌≤◌, length};
ghost use Rattle.branches.specs.Within.{MarksWithin};
ghost use Rattle.branches.specs.MarkText.{place_text, number_text, count_text, branch_text, turn_text};
ghost use Rattle.branches.specs.MarkText.{mark_text, marks_text};
ghost use Rattle.told_text.specs.Written.{Wrote};

use crate::mark::{Branch, Mark, Turn};
use rml_lex::place;
use told_text::Text;

#[tactic(auto, using(std::proofs::Common::append_assoc), unfolding(crate::specs::MarkText::place_text))]
fn push_place(out: &mut Text, text: &[u8], at: u64)
    requires { at ≤ length text.now }
    ensures { Wrote out.old out.new (place_text text.now at) }
{
    let (line, column) = place(text, at);
    out.push_str("  at ");
    out.push_number(line);
    out.push_str(":");
    out.push_number(column);
}

#[tactic(auto, using(std::proofs::Common::append_assoc), unfolding(crate::specs::MarkText::number_text))]
fn push_branch_number(out: &mut Text, number: u64)
    ensures { Wrote out.old out.new (number_text number) }
{
    out.push_str(" `choose` takes branch ");
    out.push_number(number);
}

#[tactic(auto, using(std::proofs::Common::append_assoc), unfolding(crate::specs::MarkText::count_text))]
fn push_branch_count(out: &mut Text, count: u64)
    ensures { Wrote out.old out.new (count_text count) }
{
    out.push_str(" of ");
    out.push_number(count);
    out.push_str("\n");
}

#[tactic(auto, using(std::proofs::Common::append_assoc))]
fn push_branch(out: &mut Text, branch: Branch)
    ensures { Wrote out.old out.new (branch_text branch) }
{
    push_branch_number(out, branch.number);
    push_branch_count(out, branch.count);
}

#[tactic(auto, unfolding(crate::specs::MarkText::turn_text))]
fn push_turn(out: &mut Text, turn: Turn)
    ensures { Wrote out.old out.new (turn_text turn) }
{
    match turn {
        Turn::AssertFails => out.push_str(" the `assert` fails\n"),
        Turn::AssertPasses => out.push_str(" the `assert` is passed\n"),
        Turn::IfHolds => out.push_str(" the condition of `if` is true\n"),
        Turn::IfFails => out.push_str(" the condition of `if` is false\n"),
        Turn::Takes(branch) => push_branch(out, branch),
    }
}

#[tactic(auto, using(std::proofs::Common::append_assoc))]
fn push_line(out: &mut Text, text: &[u8], mark: Mark)
    requires { mark.at ≤ length text.now }
    ensures { Wrote out.old out.new (mark_text text.now mark) }
{
    push_place(out, text, mark.at);
    push_turn(out, mark.turn);
}

/// Adds a line for each mark: its line and column in the text, and the way that is taken there.
pub fn push_marks(out: &mut Text, text: &[u8], marks: &[Mark])
    requires { MarksWithin (length text.now) marks.now }
    ensures { Wrote out.old out.new (marks_text text.now marks.now) }
{
    let mut rest = marks;
    while let [mark, after @ ..] = rest {
        push_line(out, text, *mark);
        rest = after;
    }
}
