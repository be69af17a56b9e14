// What a person is told by the text of a model: the branches that its paths take, and its derived relations.
ghost use Rattle.std.specs.Prelude.{◌≡◌, IfOk};
ghost use Rattle.fol_sig.specs.Symbols.{symbols};
ghost use Rattle.command_parts.specs.ModelTexts.{IsTheModel};
ghost use Rattle.told_fault.specs.Readings.{IsReading};
ghost use Rattle.told_derived.specs.Definitions.{FitDefinitions};
ghost use Rattle.view_run.specs.Views.{definitions_in, told_by, text_told};

use crate::source::{model_of_tree, source_of};
use base::Mem;
use branches::Source;
use fol_sig::Structure;
use rml_command::{Checked, Model, Stage};
use std::alloc::Global;
use told_derived::Definitions;
use told_fault::Reading;
use told_report::InText;
use told_text::Text;

/// The source of a model and its derived relations, where they are known.
#[derive(Drop)]
pub struct Telling<'a> {
    pub source: Option<Source<'a>>,
    pub definitions: Definitions,
}

impl<'a> InText for Telling<'a> {
    ghost told = { λ t. told_by t.source t.definitions };

    ghost is_over = { λ t sig. FitDefinitions sig t.definitions };

    fn push_lines(&self, out: &mut Text, stage: Stage, path: u32) {
        if let Some(source) = &self.source {
            source.push_lines(out, stage, path);
        }
    }

    fn push_facts(&self, alloc: Global, out: &mut Text, model: &Model, structure: &Structure) {
        self.definitions.push_facts(alloc, out, model, structure);
    }

    fn push_changes(
        &self,
        alloc: Global,
        out: &mut Text,
        model: &Model,
        before: &Structure,
        after: &Structure,
    ) {
        self.definitions
            .push_changes(alloc, out, model, before, after);
    }
}

// The derived relations of a text that has this model.
fn definitions_in(
    alloc: Global,
    text: &[u8],
    reading: &Reading,
    model: &Checked,
) -> Mem<Definitions>
    requires reading { IsReading text.now reading.now }
    requires model { IsTheModel text.now model.now }
    ensures value { IfOk result (λ d. d ≡ definitions_in text.now reading.now) }
    ensures fit { IfOk result (FitDefinitions (symbols model.now.signature)) }
{
    match reading {
        Reading::Parsed(tree) => {
            model_of_tree(text, tree, model);
            let definitions = Definitions::of(alloc, text, tree)?;
            Ok(definitions)
        }
        Reading::NoTokens(_) | Reading::Unexpected(_, _) | Reading::TooDeep => {
            Ok(Definitions::none(alloc))
        }
    }
}

/// What is told by a text that has this model.
pub fn telling_of<'a>(
    alloc: Global,
    text: &'a [u8],
    reading: &'a Reading,
    model: &Checked,
) -> Mem<Telling<'a>>
    requires reading { IsReading text.now reading.now }
    requires model { IsTheModel text.now model.now }
    ensures told { IfOk result (λ t. told_by t.source t.definitions ≡ text_told text.now reading.now) }
    ensures fit { IfOk result (λ t. FitDefinitions (symbols model.now.signature) t.definitions) }
{
    let definitions = definitions_in(alloc, text, reading, model)?;
    let source = source_of(alloc, text, reading, model);
    Ok(Telling {
        source,
        definitions,
    })
}
