// The source of a model, by the tree of its text.
ghost use Rattle.std.specs.Prelude.{◌≡◌, None};
ghost use Rattle.rml_syntax.specs.Tree.{file_tree};
ghost use Rattle.rml_items.specs.Items.{fault_of};
ghost use Rattle.rml_sorts.specs.Items.{model_of, size_fault_of};
ghost use Rattle.command_parts.specs.ModelTexts.{IsTheModel};
ghost use Rattle.told_fault.specs.declared.reading.Reading.TheVariants.{Parsed};
ghost use Rattle.told_fault.specs.Readings.{IsReading};
ghost use Rattle.view_run.specs.Views.{source_of};

use branches::Source;
use rml_command::Checked;
use rml_syntax::Tree;
use std::alloc::Global;
use told_fault::Reading;

/// The tree of a text that has this model: it has no fault, and the model is its own. Nothing is done.
pub fn model_of_tree(text: &[u8], tree: &Tree, model: &Checked)
    requires tree { IsReading text.now (Parsed tree.now) }
    requires model { IsTheModel text.now model.now }
    ensures right { fault_of text.now (file_tree tree.now) ≡ None }
    ensures small { size_fault_of text.now (file_tree tree.now) ≡ None }
    ensures own { model.now ≡ model_of text.now (file_tree tree.now) }
{
    rml_lex::one_reading();
    rml_syntax::one_tree_or_fault();
}

/// The source of a text's model, where its tree is known.
pub fn source_of<'a>(
    alloc: Global,
    text: &'a [u8],
    reading: &'a Reading,
    model: &Checked,
) -> Option<Source<'a>>
    requires reading { IsReading text.now reading.now }
    requires model { IsTheModel text.now model.now }
    ensures { result ≡ source_of text.now reading.now }
{
    match reading {
        Reading::Parsed(tree) => {
            model_of_tree(text, tree, model);
            Some(Source::new(alloc, text, tree))
        }
        Reading::NoTokens(_) | Reading::Unexpected(_, _) | Reading::TooDeep => None,
    }
}
