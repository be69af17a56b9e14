// The source of a model, as what tells the ways of its paths.
ghost use Rattle.std.specs.Prelude.{◌≡◌, length, None, IfOk};
ghost use Rattle.rml_syntax.specs.Tree.{file_tree};
ghost use Rattle.rml_syntax.specs.Within.{TreeWithin};
ghost use Rattle.rml_items.specs.Items.{fault_of};
ghost use Rattle.branches.specs.Stages.{marks_of};
ghost use Rattle.branches.specs.Within.{MarksWithin};
ghost use Rattle.branches.specs.MarkText.{branch_lines};
ghost use Rattle.told_text.specs.Written.{Wrote};

use crate::lines::push_marks;
use crate::mark::Mark;
use crate::marked::marks_of;
use base::Mem;
use rml_command::Stage;
use rml_syntax::Tree;
use std::alloc::Global;
use std::marker::Model;
use told_text::Text;

/// A text and its tree, which stands within the text and has no fault of names and sorts.
#[derive(Drop)]
pub struct Source<'a> {
    alloc: Global,
    text: &'a [u8],
    tree: &'a Tree,
}

impl<'a> Model for Source<'a> {
    ghost use Rattle.std.specs.Prelude.{◌≡◌, length, None};
    ghost use Rattle.std.specs.Coded.{codes};
    ghost use Rattle.rml_syntax.specs.contracts.tree.Tree as whole;
    ghost use Rattle.rml_syntax.specs.Tree.{file_tree};
    ghost use Rattle.rml_syntax.specs.Within.{TreeWithin};
    ghost use Rattle.rml_items.specs.Items.{fault_of};
    ghost use Rattle.branches.specs.Sources.{TextAndTree};

    ghost Value = { TextAndTree };

    ghost coded = { Prim.hlevel (codes, whole.the_row.coded) };

    ghost view = { λ s. record { text = s.text.now; tree = s.tree.now } };

    ghost invariant = { λ s. TreeWithin (length s.text.now) (file_tree s.tree.now)
        × (fault_of s.text.now (file_tree s.tree.now) ≡ None) };
}

impl<'a> Source<'a> {
    /// The text and its tree.
    pub fn new(alloc: Global, text: &'a [u8], tree: &'a Tree) -> Source<'a>
        requires within { TreeWithin (length text.now) (file_tree tree.now) }
        requires faultless { fault_of text.now (file_tree tree.now) ≡ None }
        ensures { result ≡ record { text = text.now; tree = tree.now } }
    {
        Source { alloc, text, tree }
    }

    /// The text.
    pub fn text(&self) -> &[u8]
        ensures { result.now ≡ self.now.text }
    {
        self.text
    }

    /// The marks of a path of a stage's block, by its number from 1; none where there is no such path.
    pub fn marks(&self, stage: Stage, path: u32) -> Mem<Vec<Mark>>
        ensures marks { IfOk result (λ marks.
            marks.items ≡ marks_of self.now.text (file_tree self.now.tree).items stage path) }
        ensures within { IfOk result (λ marks. MarksWithin (length self.now.text) marks.items) }
    {
        let marks = marks_of(self.alloc, self.tree, stage, path)?;
        Ok(marks)
    }

    /// Adds a line for each `if`, `choose` and `assert` on a path of a stage's block, by its number from 1: where it
    /// stands, and which way the path takes. No line where there is no such path.
    pub fn push_lines(&self, out: &mut Text, stage: Stage, path: u32)
        ensures { Wrote out.old out.new (branch_lines self.now.text (file_tree self.now.tree).items stage path) }
    {
        let Ok(marks) = marks_of(self.alloc, self.tree, stage, path) else {
            out.want();
            return;
        };
        push_marks(out, self.text, &marks);
    }
}
