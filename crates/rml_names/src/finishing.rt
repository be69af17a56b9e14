// The model of a draft, with the axioms of listed sorts before the others.
ghost use Rattle.std.specs.Prelude.{◌≡◌, ◌++◌, [], OnOk, IfOk};
ghost use Rattle.rml_command.specs.Models.{IsModel};
ghost use Rattle.rml_names.specs.Drafts.{draft_in, model_of_draft, places_in};

use crate::declarations::{Declarations, NameTables};
use crate::draft::{ModelDraft, PlaceLists};
use base::{Mem, Row};
use rml_command::{Model, Name, Names, Parts, Places};
use std::alloc::Global;

// The names as lists, with these for those of the axioms.
fn all_names(alloc: Global, tables: &NameTables, axioms: Row<Name>) -> Mem<Names>
    ensures { IfOk result (λ names. names ≡ record {
      sorts = tables.now.sorts;
      relations = tables.now.relations;
      functions = tables.now.functions;
      axioms = axioms;
      conjectures = tables.now.conjectures;
      actions = tables.now.actions;
    }) }
{
    Ok(Names {
        sorts: tables.sorts.names(alloc)?,
        relations: tables.relations.names(alloc)?,
        functions: tables.functions.names(alloc)?,
        axioms,
        conjectures: tables.conjectures.names(alloc)?,
        actions: tables.actions.names(alloc)?,
    })
}

// The places as lists.
fn all_places(lists: PlaceLists) -> Places
    ensures { result ≡ places_in lists }
{
    Places {
        functions: Row::from_vec(lists.functions),
        axioms: Row::from_vec(lists.axioms),
        conjectures: Row::from_vec(lists.conjectures),
        init: lists.init,
        actions: Row::from_vec(lists.actions),
        last: lists.last,
        conditions: Row::from_vec(lists.conditions),
        quantifiers: Row::from_vec(lists.quantifiers),
    }
}

impl ModelDraft {
    // Puts the axioms of listed sorts before the others, and their places too.
    fn join_listed(&mut self) -> Mem<()>
        ensures { OnOk result (draft_in self.new ≡ record (draft_in self.old) {
          listed = record (draft_in self.old).listed { sentences = []; places = [] };
          axioms = (draft_in self.old).listed.sentences ++ (draft_in self.old).axioms;
          places = record (draft_in self.old).places
              { axioms = (draft_in self.old).listed.places ++ (draft_in self.old).places.axioms };
        }) }
    {
        self.listed.sentences.append(&mut self.axioms)?;
        self.axioms.append(&mut self.listed.sentences)?;
        self.listed.places.append(&mut self.places.axioms)?;
        self.places.axioms.append(&mut self.listed.places)?;
        Ok(())
    }

    // The names of the model.
    fn model_names(&mut self, alloc: Global) -> Mem<Names>
        ensures names { IfOk result (λ names. names ≡ (model_of_draft (draft_in self.old)).names) }
        ensures kept { OnOk result (draft_in self.new ≡ record (draft_in self.old) {
          listed = record (draft_in self.old).listed { names = [] };
        }) }
    {
        let mut axioms = Vec::new(alloc);
        axioms.append(&mut self.listed.names)?;
        let mut declared = self.declared.names.axioms.names(alloc)?.into_vec();
        axioms.append(&mut declared)?;
        let names = all_names(alloc, &self.declared.names, Row::from_vec(axioms))?;
        Ok(names)
    }

    /// The model, with its names and places as lists. Err: out of memory.
    pub fn into_model(mut self, alloc: Global) -> Mem<Model>
        requires { IsModel (model_of_draft (draft_in self)) }
        ensures { IfOk result (λ m. m ≡ model_of_draft (draft_in self)) }
    {
        match self.finish(alloc) {
            Ok(names) => Ok(self.with_names(names)),
            Err(wanting) => {
                drop(self);
                Err(wanting)
            }
        }
    }

    // Joins the axioms, and gives the names.
    fn finish(&mut self, alloc: Global) -> Mem<Names>
        ensures names { IfOk result (λ names. names ≡ (model_of_draft (draft_in self.old)).names) }
        ensures joined { OnOk result (draft_in self.new ≡ record (draft_in self.old) {
          listed = record { names = []; sentences = []; places = [] };
          axioms = (model_of_draft (draft_in self.old)).axioms;
          places = (model_of_draft (draft_in self.old)).places;
        }) }
    {
        let names = self.model_names(alloc)?;
        self.join_listed()?;
        Ok(names)
    }

    // The model, with these names, where no axiom stands apart.
    fn with_names(self, names: Names) -> Model
        requires model { IsModel (record (model_of_draft (draft_in self)) {
          names = names;
          axioms = (draft_in self).axioms;
          places = (draft_in self).places;
        }) }
        ensures { result ≡ record (model_of_draft (draft_in self)) {
          names = names;
          axioms = (draft_in self).axioms;
          places = (draft_in self).places;
        } }
    {
        let ModelDraft {
            declared,
            bodies,
            listed,
            axioms,
            conjectures,
            init,
            actions,
            last,
            places,
        } = self;
        let Declarations {
            signature,
            names: tables,
            derived,
        } = declared;
        drop(bodies);
        drop(listed);
        drop(tables);
        drop(derived);
        Model::new(Parts {
            signature,
            names,
            axioms: Row::from_vec(axioms),
            conjectures: Row::from_vec(conjectures),
            init,
            actions: Row::from_vec(actions),
            last,
            places: all_places(places),
        })
    }
}
