// A whole tree: its names and sorts are judged first, and then its items are built from the first to the last. So
// nothing is built of a text that has a fault, and what is too large is found before it is written out.
ghost use Rattle.std.specs.Prelude.{◌≡◌, length, None, IfOk, OnOk, IfErr};
ghost use Rattle.std.specs.List.{AllByRecursion};
ghost use Rattle.base.specs.Because.{Because};
ghost use Rattle.rml_lex.specs.Tokens.{StandsBy};
ghost use Rattle.rml_syntax.specs.Tree.{file_tree, item_trees};
ghost use Rattle.rml_syntax.specs.Within.{TreeWithin, ItemWithin};
ghost use Rattle.rml_syntax.specs.Shape.{IsShaped, ItemNests};
ghost use Rattle.rml_names.specs.Drafts.{draft_in, empty_draft};
ghost use Rattle.rml_items.specs.Answering.{Answers};
ghost use Rattle.rml_items.specs.Items.{fault_of};
ghost use Rattle.rml_sorts.specs.Items.{draft_of, items_sizes, model_of, size_fault_of, IsRefusal};
ghost use Rattle.rml_items.specs.Laws.{HaveMet};
ghost use Rattle.rml_sorts.specs.Sound.{IsSound};
ghost use Rattle.rml_terms.specs.Shape.{max_nesting};

use crate::items::build_item;
use crate::laws::{model_law, size_fault_law};
use base::Refused;
use rml_command::Model;
use rml_lex::Fault;
use rml_names::ModelDraft;
use rml_syntax::{Format, Item, Tree};
use std::alloc::Global;

// The items, from the first to the last, behind those that were built.
fn build_items(
    alloc: Global,
    text: &[u8],
    format: Format,
    draft: &mut ModelDraft,
    items: &[Item],
) -> Result<(), Refused<Fault>>
    requires within { AllByRecursion (ItemWithin (length text.now)) (item_trees items.now) }
    requires shape { AllByRecursion (ItemNests max_nesting) (item_trees items.now) }
    requires sound { IsSound (draft_in draft.old) }
    requires met { HaveMet text.now format (draft_in draft.old).vocabulary (item_trees items.now) }
    ensures { Answers (λ _. draft_in draft.new) result
        (items_sizes text.now (draft_in draft.old) (item_trees items.now))
        (draft_of text.now (draft_in draft.old) (item_trees items.now)) }
{
    fol_subst::instance_laws();
    rml_items::sorted_law();
    rml_items::met_law();
    for item in items {
        build_item(alloc, text, format, draft, item)?;
    }
    Ok(())
}

/// What is built of a tree whose names and sorts are right: its model, and the right sides of its derived relations,
/// which no model has; or the fault of what is too large.
pub fn draft_model(alloc: Global, text: &[u8], tree: &Tree) -> Result<ModelDraft, Refused<Fault>>
    requires within { TreeWithin (length text.now) (file_tree tree.now) }
    requires shape { IsShaped (file_tree tree.now) }
    requires met { fault_of text.now (file_tree tree.now) ≡ None }
    ensures draft { Answers draft_in result (items_sizes text.now empty_draft (file_tree tree.now).items)
        (draft_of text.now empty_draft (file_tree tree.now).items) }
    ensures place { IfErr result (Because (StandsBy (length text.now))) }
{
    size_fault_law();
    rml_items::met_law();
    let mut draft = ModelDraft::new(alloc);
    match build_items(alloc, text, tree.format, &mut draft, &tree.items) {
        Ok(()) => Ok(draft),
        Err(refused) => {
            drop(draft);
            Err(refused)
        }
    }
}

/// The model of a tree, or its fault: of its names and sorts the first in the order of reading, or else the first use
/// of a derived relation in what is too large once all uses are written out.
pub fn resolve(alloc: Global, text: &[u8], tree: &Tree) -> Result<Model, Refused<Fault>>
    requires within { TreeWithin (length text.now) (file_tree tree.now) }
    requires shape { IsShaped (file_tree tree.now) }
    ensures model { IfOk result (λ m. m ≡ model_of text.now (file_tree tree.now)) }
    ensures names { OnOk result (fault_of text.now (file_tree tree.now) ≡ None) }
    ensures sizes { OnOk result (size_fault_of text.now (file_tree tree.now) ≡ None) }
    ensures fault { IfErr result (Because (IsRefusal text.now (file_tree tree.now))) }
    ensures place { IfErr result (Because (StandsBy (length text.now))) }
{
    rml_items::judge(alloc, text, tree)?;
    let draft = draft_model(alloc, text, tree)?;
    model_law();
    let model = draft.into_model(alloc)?;
    Ok(model)
}
