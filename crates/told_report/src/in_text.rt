// What the text of a model says that the model does not. What that is, is for the crates that find it in the text.
ghost use Rattle.fol_sig.specs.Symbols.{Symbols, FitsStructure, symbols};
ghost use Rattle.told_text.specs.Written.{Wrote};
ghost use Rattle.told_states.specs.Alike.{AreAlike};
ghost use Rattle.told_report.specs.InText.{TextTold};

use fol_sig::Structure;
use rml_command::{Model, Stage};
use std::alloc::Global;
use told_text::Text;

/// What is told by the text of a model: the branches that the paths of its blocks take, and its derived relations.
pub trait InText {
    /// What is told.
    ghost told: { Self → TextTold };

    /// The derived relations are over these symbols.
    ghost is_over: { Self → Symbols → Type 0 };

    /// Adds the lines of the branches of the path of this number, from 1, of a stage's block.
    fn push_lines(&self, out: &mut Text, stage: Stage, path: u32)
        ensures { Wrote out.old out.new ((told self.now).lines stage path) };

    /// Adds what the derived relations are in a structure of the model.
    fn push_facts(&self, alloc: Global, out: &mut Text, model: &Model, structure: &Structure)
        requires symbols { is_over self.now (symbols model.now.signature) }
        requires structure { FitsStructure (symbols model.now.signature) structure.now }
        ensures { Wrote out.old out.new ((told self.now).facts model.now structure.now) };

    /// Adds what of them differs between two structures of the model.
    fn push_changes(
        &self,
        alloc: Global,
        out: &mut Text,
        model: &Model,
        before: &Structure,
        after: &Structure,
    )
        requires symbols { is_over self.now (symbols model.now.signature) }
        requires before { FitsStructure (symbols model.now.signature) before.now }
        requires after { FitsStructure (symbols model.now.signature) after.now }
        requires alike { AreAlike before.now after.now }
        ensures { Wrote out.old out.new ((told self.now).changes model.now before.now after.now) };
}
