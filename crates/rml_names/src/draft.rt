// The model that is built of the items so far. What its text declares is kept beside its parts, and grows by calls of
// its own; each call here adds one part.
ghost use Rattle.std.specs.Prelude.{◌≡◌, ◌++◌, ◌∷◌, [], OnOk};
ghost use Rattle.rml_command.specs.View.{command as command_view};
ghost use Rattle.rml_names.specs.Drafts.{draft_in, empty_draft, places_in};

use crate::declarations::Declarations;
use base::Mem;
use fol_formula::Sentence;
use fol_subst::Template;
use rml_command::{Command, Condition, Name};
use std::alloc::Global;

/// The axioms of listed sorts: no two names of a sort are one element, and each element has a name.
#[derive(Drop)]
pub struct ListedAxioms {
    /// The names of the sorts.
    pub names: Vec<Name>,
    /// What is assumed of each sort.
    pub sentences: Vec<Sentence>,
    /// Where the names of the sorts begin.
    pub places: Vec<u64>,
}

/// The places at which the fragment may be left: bytes of the text, counted from 0.
#[derive(Drop)]
pub struct PlaceLists {
    /// The names of the functions and variables.
    pub functions: Vec<u64>,
    /// The names of the axioms.
    pub axioms: Vec<u64>,
    /// The names of the conjectures.
    pub conjectures: Vec<u64>,
    /// The word `init`.
    pub init: u64,
    /// The names of the actions.
    pub actions: Vec<u64>,
    /// The word `final`.
    pub last: u64,
    /// The conditions of all blocks.
    pub conditions: Vec<Condition>,
    /// The quantifiers inside an `ite`, on the right of `:=` and of a definition.
    pub quantifiers: Vec<u64>,
}

/// The model of the items that were read so far: what they declare, and the parts of a model.
#[derive(Drop)]
pub struct ModelDraft {
    /// What is declared so far.
    pub declared: Declarations,
    /// The right sides of the derived relations so far, with all uses written out, each a template of its parameters.
    pub bodies: Vec<Template>,
    /// The axioms of the listed sorts so far.
    pub listed: ListedAxioms,
    /// The axioms so far.
    pub axioms: Vec<Sentence>,
    /// The conjectures so far.
    pub conjectures: Vec<Sentence>,
    /// The block `init`, or `skip`.
    pub init: Command,
    /// The blocks of the actions so far.
    pub actions: Vec<Command>,
    /// The block `final`, or `skip`.
    pub last: Command,
    /// The places so far.
    pub places: PlaceLists,
}

// No places.
fn no_places(alloc: Global) -> PlaceLists
    ensures { places_in result ≡ empty_draft.places }
{
    PlaceLists {
        functions: Vec::new(alloc),
        axioms: Vec::new(alloc),
        conjectures: Vec::new(alloc),
        init: 0,
        actions: Vec::new(alloc),
        last: 0,
        conditions: Vec::new(alloc),
        quantifiers: Vec::new(alloc),
    }
}

// A block that is missing.
fn skip(alloc: Global) -> Command
    ensures { command_view result ≡ empty_draft.init }
{
    Command::Seq(Vec::new(alloc))
}

impl ModelDraft {
    /// No items.
    pub fn new(alloc: Global) -> Self
        ensures { draft_in result ≡ empty_draft }
    {
        ModelDraft {
            declared: Declarations::new(alloc),
            bodies: Vec::new(alloc),
            listed: ListedAxioms {
                names: Vec::new(alloc),
                sentences: Vec::new(alloc),
                places: Vec::new(alloc),
            },
            axioms: Vec::new(alloc),
            conjectures: Vec::new(alloc),
            init: skip(alloc),
            actions: Vec::new(alloc),
            last: skip(alloc),
            places: no_places(alloc),
        }
    }

    /// Adds an axiom, its place, and the places of its quantifiers that stand inside an `ite`. Err: out of memory.
    pub fn push_axiom(
        &mut self,
        sentence: Sentence,
        place: u64,
        mut quantifiers: Vec<u64>,
    ) -> Mem<()>
        ensures { OnOk result (draft_in self.new ≡ record (draft_in self.old) {
          axioms = (draft_in self.old).axioms ++ sentence ∷ [];
          places = record (draft_in self.old).places {
            axioms = (draft_in self.old).places.axioms ++ place ∷ [];
            quantifiers = (draft_in self.old).places.quantifiers ++ quantifiers.items;
          };
        }) }
    {
        self.axioms.push(sentence)?;
        self.places.axioms.push(place)?;
        self.places.quantifiers.append(&mut quantifiers)?;
        Ok(())
    }

    /// Adds the axiom of a listed sort, with the sort's name and place. Err: out of memory.
    pub fn push_listed(&mut self, name: Name, sentence: Sentence, place: u64) -> Mem<()>
        ensures { OnOk result (draft_in self.new ≡ record (draft_in self.old) {
          listed = record {
            names = (draft_in self.old).listed.names ++ name ∷ [];
            sentences = (draft_in self.old).listed.sentences ++ sentence ∷ [];
            places = (draft_in self.old).listed.places ++ place ∷ [];
          };
        }) }
    {
        self.listed.names.push(name)?;
        self.listed.sentences.push(sentence)?;
        self.listed.places.push(place)?;
        Ok(())
    }

    /// Adds a conjecture, its place, and the places of its quantifiers that stand inside an `ite`. Err: out of memory.
    pub fn push_conjecture(
        &mut self,
        sentence: Sentence,
        place: u64,
        mut quantifiers: Vec<u64>,
    ) -> Mem<()>
        ensures { OnOk result (draft_in self.new ≡ record (draft_in self.old) {
          conjectures = (draft_in self.old).conjectures ++ sentence ∷ [];
          places = record (draft_in self.old).places {
            conjectures = (draft_in self.old).places.conjectures ++ place ∷ [];
            quantifiers = (draft_in self.old).places.quantifiers ++ quantifiers.items;
          };
        }) }
    {
        self.conjectures.push(sentence)?;
        self.places.conjectures.push(place)?;
        self.places.quantifiers.append(&mut quantifiers)?;
        Ok(())
    }

    /// Adds the block of an action, and its place. Err: out of memory.
    pub fn push_action(&mut self, block: Command, place: u64) -> Mem<()>
        ensures { OnOk result (draft_in self.new ≡ record (draft_in self.old) {
          actions = (draft_in self.old).actions ++ command_view block ∷ [];
          places = record (draft_in self.old).places { actions = (draft_in self.old).places.actions ++ place ∷ [] };
        }) }
    {
        self.actions.push(block)?;
        self.places.actions.push(place)?;
        Ok(())
    }

    /// Adds the place of a function or variable. Err: out of memory.
    pub fn push_function(&mut self, place: u64) -> Mem<()>
        ensures { OnOk result (draft_in self.new ≡ record (draft_in self.old) {
          places = record (draft_in self.old).places
              { functions = (draft_in self.old).places.functions ++ place ∷ [] };
        }) }
    {
        self.places.functions.push(place)?;
        Ok(())
    }

    /// Adds the right side of a derived relation, and the places of its quantifiers. Err: out of memory.
    pub fn push_body(&mut self, body: Template, mut quantifiers: Vec<u64>) -> Mem<()>
        ensures { OnOk result (draft_in self.new ≡ record (draft_in self.old) {
          bodies = (draft_in self.old).bodies ++ body ∷ [];
          places = record (draft_in self.old).places
              { quantifiers = (draft_in self.old).places.quantifiers ++ quantifiers.items };
        }) }
    {
        self.bodies.push(body)?;
        self.places.quantifiers.append(&mut quantifiers)?;
        Ok(())
    }

    /// Adds the conditions of a block, and the places of its quantifiers that may not stand there. Err: out of memory.
    pub fn push_places(
        &mut self,
        mut conditions: Vec<Condition>,
        mut quantifiers: Vec<u64>,
    ) -> Mem<()>
        ensures { OnOk result (draft_in self.new ≡ record (draft_in self.old) {
          places = record (draft_in self.old).places {
            conditions = (draft_in self.old).places.conditions ++ conditions.items;
            quantifiers = (draft_in self.old).places.quantifiers ++ quantifiers.items;
          };
        }) }
    {
        self.places.conditions.append(&mut conditions)?;
        self.places.quantifiers.append(&mut quantifiers)?;
        Ok(())
    }
}
