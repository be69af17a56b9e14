// A model of a text. Its parts fit one another from the moment it is made, so that whoever reads one of them has the
// whole condition (`IsModel`) at hand, and no call asks for it.
ghost use Rattle.std.specs.Prelude.{◌≡◌, map};
ghost use Rattle.rml_command.specs.View.{command};
ghost use Rattle.rml_command.specs.Models.{IsModel};
ghost use Rattle.rml_command.specs.Parts.{model_of};

use crate::command::Command;
use crate::names::Names;
use crate::places::Places;
use base::Row;
use fol_formula::Sentence;
use fol_sig::Signature;

/// What a model is made of, before it is known to fit. A missing block is `skip`.
#[derive(Drop)]
pub struct Parts {
    /// The sorts, relations and functions; a variable is a function without arguments.
    pub signature: Signature,
    /// The names of what is declared.
    pub names: Names,
    /// The axioms, in the order of the file.
    pub axioms: Row<Sentence>,
    /// The conjectures, in the order of the file.
    pub conjectures: Row<Sentence>,
    /// The block `init`.
    pub init: Command,
    /// The blocks of the actions, in the order of the file.
    pub actions: Row<Command>,
    /// The block `final`.
    pub last: Command,
    /// Where the text may break the fragment.
    pub places: Places,
}

/// A model: symbols, axioms, conjectures and blocks that fit one another, with the names and the places of its text.
#[derive(Drop)]
pub struct Model {
    parts: Parts,
}

impl std::marker::Model for Model {
    ghost use Rattle.rml_command.specs.Models.{ModelTree, IsModel};
    ghost use Rattle.rml_command.specs.ModelCode.{model_code};

    ghost Value = { ModelTree };

    ghost coded = { model_code };

    ghost use Rattle.rml_command.specs.Parts.{model_of};

    ghost view = { λ m. model_of m.parts };

    ghost invariant = { λ m. IsModel (model_of m.parts) };
}

impl Model {
    /// The model of parts that fit.
    pub fn new(parts: Parts) -> Model
        requires { IsModel (model_of parts) }
        ensures { result ≡ model_of parts }
    {
        Model { parts }
    }

    /// Its symbols.
    pub fn signature(&self) -> &Signature
        ensures value { result.now ≡ self.now.signature }
        ensures model { IsModel self.now }
    {
        &self.parts.signature
    }

    /// The names of what it declares.
    pub fn names(&self) -> &Names
        ensures value { result.now ≡ self.now.names }
        ensures model { IsModel self.now }
    {
        &self.parts.names
    }

    /// Its axioms, in the order of the file.
    pub fn axioms(&self) -> &[Sentence]
        ensures value { result.now ≡ self.now.axioms }
        ensures model { IsModel self.now }
    {
        self.parts.axioms.as_slice()
    }

    /// Its conjectures, in the order of the file.
    pub fn conjectures(&self) -> &[Sentence]
        ensures value { result.now ≡ self.now.conjectures }
        ensures model { IsModel self.now }
    {
        self.parts.conjectures.as_slice()
    }

    /// The block that runs first.
    pub fn init(&self) -> &Command
        ensures value { command result.now ≡ self.now.init }
        ensures model { IsModel self.now }
    {
        &self.parts.init
    }

    /// The blocks of its actions, in the order of the file.
    pub fn actions(&self) -> &[Command]
        ensures value { map command result.now ≡ self.now.actions }
        ensures model { IsModel self.now }
    {
        self.parts.actions.as_slice()
    }

    /// The block that runs last, once or not at all.
    pub fn last(&self) -> &Command
        ensures value { command result.now ≡ self.now.last }
        ensures model { IsModel self.now }
    {
        &self.parts.last
    }

    /// Where its text may break the fragment.
    pub fn places(&self) -> &Places
        ensures value { result.now ≡ self.now.places }
        ensures model { IsModel self.now }
    {
        &self.parts.places
    }
}
