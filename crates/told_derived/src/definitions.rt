// The derived relations of a text, and what is told of all of them.
ghost use Rattle.std.specs.Prelude.{◌≡◌, ◌<◌, length, None, IfOk};
ghost use Rattle.fol_sig.specs.Symbols.{FitsStructure, symbols};
ghost use Rattle.rml_syntax.specs.Tree.{file_tree};
ghost use Rattle.rml_syntax.specs.Within.{TreeWithin};
ghost use Rattle.rml_syntax.specs.Shape.{IsShaped};
ghost use Rattle.rml_items.specs.Items.{fault_of};
ghost use Rattle.rml_sorts.specs.Items.{model_of, size_fault_of};
ghost use Rattle.told_text.specs.Written.{Wrote};
ghost use Rattle.told_states.specs.Alike.{AreAlike};
ghost use Rattle.rml_names.specs.Drafts.{draft_in};
ghost use Rattle.told_derived.specs.Definitions.{definition_at, definitions_of, drafted, no_definitions};
ghost use Rattle.told_derived.specs.Definitions.{FitDefinitions};
ghost use Rattle.told_derived.specs.DerivedText.{facts_text, changes_text};

use crate::derived::Derived;
use crate::telling::{push_change_lines, push_facts_line};
use base::{Mem, Refused, Row};
use fol_sig::{Sorts, Structure};
use fol_subst::Template;
use rml_command::{Model, Name};
use rml_names::{Declarations, ModelDraft};
use rml_sorts::{draft_law, draft_model};
use rml_syntax::Tree;
use std::alloc::{AllocError, Global};
use std::marker;
use told_states::{Labels, sizes};
use told_text::Text;

/// The derived relations of a text, in the order of their definitions.
#[derive(Drop)]
pub struct Definitions {
    names: Row<Name>,
    sorts: Vec<Sorts>,
    bodies: Vec<Template>,
}

impl marker::Model for Definitions {
    ghost use Rattle.std.specs.Coded.{codes};
    ghost use Rattle.fol_formula.specs.Code.{form_code};
    ghost use Rattle.told_derived.specs.Definitions.{Definitions};

    ghost Value = { Definitions };

    ghost coded = { Prim.hlevel (codes, form_code) };

    ghost view = { λ d. record { names = d.names; sorts = d.sorts.items; bodies = d.bodies.items } };
}

// Those of a draft under these names. Nothing else of it is kept.
fn with_names(draft: ModelDraft, names: Row<Name>) -> Definitions
    ensures { result ≡ record (drafted (draft_in draft)) { names = names } }
{
    let ModelDraft {
        declared,
        bodies,
        listed,
        axioms,
        conjectures,
        init,
        actions,
        last,
        places,
    } = draft;
    let Declarations {
        signature,
        names: tables,
        derived,
    } = declared;
    drop(signature);
    drop(tables);
    drop(listed);
    drop(axioms);
    drop(conjectures);
    drop(init);
    drop(actions);
    drop(last);
    drop(places);
    Definitions {
        names,
        sorts: derived,
        bodies,
    }
}

// Those of a draft.
fn taken_from(alloc: Global, draft: ModelDraft) -> Mem<Definitions>
    ensures { IfOk result (λ d. d ≡ drafted (draft_in draft)) }
{
    match draft.declared.names.derived.names(alloc) {
        Ok(names) => Ok(with_names(draft, names)),
        Err(wanting) => {
            drop(draft);
            Err(wanting)
        }
    }
}

impl Definitions {
    /// None.
    pub fn none(alloc: Global) -> Definitions
        ensures { result ≡ no_definitions }
    {
        Definitions {
            names: Row::new(alloc),
            sorts: Vec::new(alloc),
            bodies: Vec::new(alloc),
        }
    }

    /// Those of the tree of a text that has a model.
    pub fn of(alloc: Global, text: &[u8], tree: &Tree) -> Mem<Definitions>
        requires within { TreeWithin (length text.now) (file_tree tree.now) }
        requires shape { IsShaped (file_tree tree.now) }
        requires right { fault_of text.now (file_tree tree.now) ≡ None }
        requires small { size_fault_of text.now (file_tree tree.now) ≡ None }
        ensures value { IfOk result (λ d. d ≡ definitions_of text.now (file_tree tree.now)) }
        ensures fit { IfOk result (FitDefinitions (symbols (model_of text.now (file_tree tree.now)).signature)) }
    {
        draft_law();
        match draft_model(alloc, text, tree) {
            Ok(draft) => {
                let definitions = taken_from(alloc, draft)?;
                Ok(definitions)
            }
            Err(Refused::For(_)) => unreachable!(),
            Err(Refused::NoMemory) => Err(AllocError),
        }
    }

    // The one of this number.
    fn at(&self, number: usize) -> Derived<'_>
        requires names { number < length self.now.names }
        requires sorts { number < length self.now.sorts }
        requires bodies { number < length self.now.bodies }
        ensures { result ≡ definition_at self.now number }
    {
        Derived {
            name: self.names.as_slice()[number].as_slice(),
            sorts: self.sorts[number].as_slice(),
            body: self.bodies[number].formula(),
        }
    }

    /// Adds a line for each that is true of a tuple in a structure of the model.
    pub fn push_facts(&self, alloc: Global, out: &mut Text, model: &Model, structure: &Structure)
        requires fit { FitDefinitions (symbols model.now.signature) self.now }
        requires structure { FitsStructure (symbols model.now.signature) structure.now }
        ensures { Wrote out.old out.new (facts_text self.now model.now structure.now) }
    {
        let Ok(labels) = Labels::of(alloc, model, structure) else {
            out.want();
            return;
        };
        let Ok(sizes) = sizes(alloc, model, structure) else {
            out.want();
            return;
        };
        for number in 0..self.sorts.len() {
            let derived = self.at(number);
            push_facts_line(alloc, out, &labels, structure, &sizes, &derived);
        }
    }

    /// Adds a line for each tuple of which one of them comes to be true or false between two structures of the model.
    pub fn push_changes(
        &self,
        alloc: Global,
        out: &mut Text,
        model: &Model,
        before: &Structure,
        after: &Structure,
    )
        requires fit { FitDefinitions (symbols model.now.signature) self.now }
        requires before { FitsStructure (symbols model.now.signature) before.now }
        requires after { FitsStructure (symbols model.now.signature) after.now }
        requires alike { AreAlike before.now after.now }
        ensures { Wrote out.old out.new (changes_text self.now model.now before.now after.now) }
    {
        let Ok(labels) = Labels::of(alloc, model, before) else {
            out.want();
            return;
        };
        let Ok(sizes) = sizes(alloc, model, before) else {
            out.want();
            return;
        };
        for number in 0..self.sorts.len() {
            let derived = self.at(number);
            push_change_lines(alloc, out, &labels, before, after, &sizes, &derived);
        }
    }
}
