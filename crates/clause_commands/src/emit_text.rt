// The lines that stand in place of what was to be written.
ghost use Rattle.std.specs.Prelude.{◌≡◌, IfOk};
ghost use Rattle.clause_commands.specs.Emit.{fails_text, undecided_text, no_goal_text};

use base::{Mem, push_number, push_text};
use limits::Cause;
use rml_report::push_cause;
use std::alloc::Global;

/// The line of a goal that fails.
#[tactic(auto, using(std::proofs::Common::append_assoc), unfolding(crate::specs::Emit::fails_text))]
pub fn fails_line(alloc: Global, number: u64) -> Mem<Vec<u8>>
    ensures { IfOk result (λ line. line.items ≡ fails_text number) }
{
    let mut out = Vec::new(alloc);
    push_text(&mut out, "goal ")?;
    push_number(&mut out, number)?;
    push_text(&mut out, " fails\n")?;
    Ok(out)
}

/// The line of a goal that was left open.
#[tactic(auto, using(std::proofs::Common::append_assoc), unfolding(crate::specs::Emit::undecided_text))]
pub fn undecided_line(alloc: Global, number: u64, cause: Cause) -> Mem<Vec<u8>>
    ensures { IfOk result (λ line. line.items ≡ undecided_text number cause) }
{
    let mut out = Vec::new(alloc);
    push_text(&mut out, "goal ")?;
    push_number(&mut out, number)?;
    push_text(&mut out, " undecided ")?;
    push_cause(&mut out, &cause)?;
    push_text(&mut out, "\n")?;
    Ok(out)
}

/// The line of a number that is above the number of goals.
#[tactic(auto, using(std::proofs::Common::append_assoc), unfolding(crate::specs::Emit::no_goal_text))]
pub fn no_goal_line(alloc: Global, goals: u64) -> Mem<Vec<u8>>
    ensures { IfOk result (λ line. line.items ≡ no_goal_text goals) }
{
    let mut out = Vec::new(alloc);
    push_text(&mut out, "there are ")?;
    push_number(&mut out, goals)?;
    push_text(&mut out, " goals\n")?;
    Ok(out)
}
