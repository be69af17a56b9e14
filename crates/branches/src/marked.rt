// The marks of a path, by its number.
ghost use Rattle.std.specs.Prelude.{◌≡◌, ◌++◌, ℕ, List, None, IfOk, OnOk};
ghost use Rattle.base.specs.Lists.{numbered};
ghost use Rattle.rml_syntax.specs.Tree.{command_trees, block_of, file_tree};
ghost use Rattle.rml_syntax.specs.Within.{TreeWithin};
ghost use Rattle.rml_syntax.specs.declared.tree.Format.{Format};
ghost use Rattle.rml_names.specs.Drafts.{DraftTree};
ghost use Rattle.rml_sort_check.specs.Demands.{first_fault, block_demands};
ghost use Rattle.rml_items.specs.Items.{fault_of};
ghost use Rattle.branches.specs.Marked.{marked_block};
ghost use Rattle.branches.specs.Stages.{marks_in, marks_of};
ghost use Rattle.branches.specs.Within.{MarksWithin};

use crate::laws::mark_law;
use crate::mark::Mark;
use crate::search::{count_through_block, push_along_block};
use crate::stages::stage_commands;
use base::Mem;
use rml_command::Stage;
use rml_syntax::{Command, Tree};
use std::alloc::Global;

// The marks of a block's path, by its number from 1; none where there is no such path. What the conditions stand for,
// and so the model, is the same to them.
fn push_path(alloc: Global, commands: &[Command], path: u32, marks: &mut Vec<Mark>) -> Mem<()>
    ensures { OnOk result ((text : List ℕ) (format : Format) (d : DraftTree)
        → first_fault (block_demands text d.vocabulary format (block_of (command_trees commands.now))) ≡ None
        → marks.new.items ≡ marks.old.items
        ++ marks_in (numbered (marked_block text d (block_of (command_trees commands.now))) path)) }
{
    if path == 0 {
        return Ok(());
    }
    let number = path as u64 - 1;
    if number < count_through_block(commands, 1) {
        push_along_block(alloc, commands, 1, number, marks)?;
    }
    Ok(())
}

/// The marks of a path of a stage's block, by its number from 1, in the order in which the path comes to them; none
/// where there is no such path. They are those of every text for which the tree has no fault of names and sorts. It
/// takes the time of reading the block once for each level of its branches.
pub fn marks_of(alloc: Global, tree: &Tree, stage: Stage, path: u32) -> Mem<Vec<Mark>>
    ensures marks { IfOk result (λ marks. (text : List ℕ) → fault_of text (file_tree tree.now) ≡ None
        → marks.items ≡ marks_of text (file_tree tree.now).items stage path) }
    ensures within { IfOk result (λ marks. (text : List ℕ) (n : ℕ) → fault_of text (file_tree tree.now) ≡ None
        → TreeWithin n (file_tree tree.now) → MarksWithin n marks.items) }
{
    mark_law();
    rml_items::met_law();
    let mut marks = Vec::new(alloc);
    if let Some(commands) = stage_commands(tree, stage) {
        push_path(alloc, commands, path, &mut marks)?;
    }
    Ok(marks)
}
