// A whole tree: its items are judged from the first to the last, each by what those before it declare, and the first
// fault ends the judging. So a name is known behind its declaration alone.
ghost use Rattle.std.specs.Prelude.{◌≡◌, length, None, Some, OnOk, IfErr};
ghost use Rattle.base.specs.Because.{Because};
ghost use Rattle.rml_lex.specs.Tokens.{StandsBy};
ghost use Rattle.rml_syntax.specs.Tree.{file_tree, item_trees};
ghost use Rattle.std.specs.List.{AllByRecursion};
ghost use Rattle.rml_syntax.specs.Within.{TreeWithin, ItemWithin};
ghost use Rattle.rml_syntax.specs.Shape.{IsShaped, ItemNests};
ghost use Rattle.rml_names.specs.Sound.{IsSorted};
ghost use Rattle.rml_items.specs.Items.{no_items, items_demands, with_items, fault_of};
ghost use Rattle.rml_items.specs.Progress.{standing_of};
ghost use Rattle.rml_items.specs.Answering.{Answers};
ghost use Rattle.rml_terms.specs.Shape.{max_nesting};

use crate::items::{Progress, judge_item};
use crate::laws::fault_law;
use base::Refused;
use rml_lex::Fault;
use rml_names::Declarations;
use rml_syntax::{Format, Item, Tree};
use std::alloc::Global;

// The items, from the first to the last, behind those that were judged.
fn judge_items(
    alloc: Global,
    text: &[u8],
    format: Format,
    progress: &mut Progress,
    items: &[Item],
) -> Result<(), Refused<Fault>>
    requires within { AllByRecursion (ItemWithin (length text.now)) (item_trees items.now) }
    requires shape { AllByRecursion (ItemNests max_nesting) (item_trees items.now) }
    requires sound { IsSorted (standing_of progress.old).words }
    ensures { Answers (λ _. standing_of progress.new) result
        (items_demands text.now format (standing_of progress.old) (item_trees items.now))
        (with_items text.now (standing_of progress.old) (item_trees items.now)) }
{
    for item in items {
        judge_item(alloc, text, format, progress, item)?;
    }
    Ok(())
}

/// Judges the names and sorts of a tree: of its demands that are not met, the fault is the first in the order of
/// reading.
pub fn judge(alloc: Global, text: &[u8], tree: &Tree) -> Result<(), Refused<Fault>>
    requires within { TreeWithin (length text.now) (file_tree tree.now) }
    requires shape { IsShaped (file_tree tree.now) }
    ensures met { OnOk result (fault_of text.now (file_tree tree.now) ≡ None) }
    ensures fault { IfErr result (Because (λ f. fault_of text.now (file_tree tree.now) ≡ Some f)) }
    ensures place { IfErr result (Because (StandsBy (length text.now))) }
{
    fault_law();
    let mut progress = Progress {
        known: Declarations::new(alloc),
        has_init: false,
        has_last: false,
    };
    let judged = judge_items(alloc, text, tree.format, &mut progress, &tree.items);
    drop(progress);
    judged
}
