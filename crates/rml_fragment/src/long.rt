// Where a block has too many paths. They are counted, and none is built, so that a text that multiplies them is refused
// in the time that it takes to read it.
ghost use Rattle.std.specs.Prelude.{◌≡◌, map};
ghost use Rattle.rml_command.specs.View.{command as command_view};
ghost use Rattle.rml_fragment.specs.First.{IsFirstOf, SomePlaced};
ghost use Rattle.rml_fragment.specs.Faults.{HasManyPaths, HasLongBlock};

use crate::first::{earlier, fault_unless};
use rml_command::{Command, Model, has_few_paths};
use rml_lex::{Fault, FaultCode};

/// The first fault by which a block has too many paths. No path is built.
pub fn long_block_fault(model: &Model) -> Option<Fault>
    ensures { IsFirstOf (HasLongBlock model.now) result }
{
    let places = model.places();
    let init = block_fault(model.init(), places.init);
    let actions = action_fault(model.actions(), places.actions.as_slice());
    let last = block_fault(model.last(), places.last);
    let others = earlier(actions, last);
    earlier(init, others)
}

// The fault of one block.
fn block_fault(block: &Command, at: u64) -> Option<Fault>
    ensures { IsFirstOf (λ f. (f.at ≡ at) × HasManyPaths (command_view block.now) f.code) result }
{
    fault_unless(has_few_paths(block), FaultCode::TooManyPaths, at)
}

// The first fault of an action.
fn action_fault(actions: &[Command], places: &[u64]) -> Option<Fault>
    ensures { IsFirstOf (SomePlaced HasManyPaths (map command_view actions.now) places.now) result }
{
    let mut first = None;
    let mut rest = actions;
    let mut left = places;
    while let [action, more @ ..] = rest {
        let [at, after @ ..] = left else {
            return first;
        };
        first = earlier(first, block_fault(action, *at));
        rest = more;
        left = after;
    }
    first
}
