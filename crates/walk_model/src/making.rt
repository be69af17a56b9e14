// The model of a walk is made from copies of what the model declares, and of its paths, the walk's.
ghost use Rattle.std.specs.Prelude.{◌≡◌, ℕ, [], false, IfOk};
ghost use Rattle.fol_sig.specs.Symbols.{symbols};
ghost use Rattle.fol_sig.specs.Strata.{IsStrata, IsOnCycle};
ghost use Rattle.rml_command.specs.Trees.{seq, no_commands};
ghost use Rattle.rml_command.specs.View.{command as command_view};
ghost use Rattle.rml_command.specs.Paths.{has_abort, paths_of};
ghost use Rattle.rml_command.specs.Fragment.{IsChecked};
ghost use Rattle.rml_command.specs.Parts.{model_of};
ghost use Rattle.walks.specs.Walks.{joined};
ghost use Rattle.walks.specs.Laws.{AreLegs};
ghost use Rattle.walk_model.specs.WalkModels.{model_with, walk_model, stopped_model};

use crate::copying::{copy_names, copy_places, copy_sentences};
use crate::joining::{join, join_and_abort, skip};
use crate::laws::{stopped_model_law, walk_model_law};
use base::{Mem, Refused, Row};
use fol_formula::Sentence;
use fol_sig::{Signature, Strata, strata};
use rml_command::{Checked, Command, Model, Names, Parts, Paths, Places, few_paths};
use std::alloc::{AllocError, Global};
use walks::Leg;

// The strata of a signature whose functions have no cycle.
fn strata_of(alloc: Global, signature: &Signature) -> Mem<Strata>
    requires { (f : ℕ) → IsOnCycle (symbols signature.now) f → ⊥ }
    ensures { IfOk result (IsStrata (symbols signature.now)) }
{
    match strata(alloc, signature) {
        Ok(order) => Ok(order),
        Err(Refused::For(_)) => unreachable!(),
        Err(Refused::NoMemory) => Err(AllocError),
    }
}

// What a check of the model would find. Its actions are none, so their paths are not looked for.
#[derive(Drop)]
struct Found {
    strata: Strata,
    init: Paths,
    last: Paths,
}

fn find(alloc: Global, model: &Model) -> Mem<Found>
    requires { IsChecked model.now }
    ensures strata { IfOk result (λ f. IsStrata (symbols model.now.signature) f.strata) }
    ensures init { IfOk result (λ f. f.init ≡ paths_of model.now.init) }
    ensures last { IfOk result (λ f. f.last ≡ paths_of model.now.last) }
{
    let strata = strata_of(alloc, model.signature())?;
    let init = few_paths(alloc, model.init())?;
    let last = few_paths(alloc, model.last())?;
    Ok(Found { strata, init, last })
}

// The model with what is found of it.
fn with_paths(alloc: Global, model: Model) -> Mem<Checked>
    requires checked { IsChecked model }
    requires none { model.actions ≡ [] }
    ensures { IfOk result (λ c. c ≡ model) }
{
    match find(alloc, &model) {
        Err(wanting) => {
            drop(model);
            Err(wanting)
        }
        Ok(Found { strata, init, last }) => Ok(Checked::new(
            alloc,
            model,
            strata,
            init,
            Row::new(alloc),
            last,
        )),
    }
}

// What a model declares, but for its blocks.
#[derive(Drop)]
struct Declared {
    signature: Signature,
    names: Names,
    axioms: Row<Sentence>,
    conjectures: Row<Sentence>,
    places: Places,
}

fn copy_declared(alloc: Global, model: &Model) -> Mem<Declared>
    ensures signature { IfOk result (λ d. d.signature ≡ model.now.signature) }
    ensures names { IfOk result (λ d. d.names ≡ record model.now.names { actions = [] }) }
    ensures axioms { IfOk result (λ d. d.axioms ≡ model.now.axioms) }
    ensures conjectures { IfOk result (λ d. d.conjectures ≡ model.now.conjectures) }
    ensures places { IfOk result (λ d. d.places ≡ record model.now.places { actions = [] }) }
{
    let signature = model.signature().copy(alloc)?;
    let names = copy_names(alloc, model.names())?;
    let axioms = copy_sentences(alloc, model.axioms())?;
    let conjectures = copy_sentences(alloc, model.conjectures())?;
    let places = copy_places(alloc, model.places())?;
    Ok(Declared {
        signature,
        names,
        axioms,
        conjectures,
        places,
    })
}

// With this block in the place of init, and no others.
fn parts_with(alloc: Global, declared: Declared, init: Command) -> Parts
    ensures { model_of result ≡ record {
      signature = declared.signature;
      names = declared.names;
      axioms = declared.axioms;
      conjectures = declared.conjectures;
      init = command_view init;
      actions = [];
      last = seq no_commands;
      places = declared.places;
    } }
{
    Parts {
        signature: declared.signature,
        names: declared.names,
        axioms: declared.axioms,
        conjectures: declared.conjectures,
        init,
        actions: Row::new(alloc),
        last: skip(alloc),
        places: declared.places,
    }
}

// The model with this block in the place of init.
fn with_block(alloc: Global, model: &Model, init: Command) -> Mem<Checked>
    requires { IsChecked (model_with model.now (command_view init)) }
    ensures { IfOk result (λ c. c ≡ model_with model.now (command_view init)) }
{
    match copy_declared(alloc, model) {
        Ok(declared) => with_paths(alloc, Model::new(parts_with(alloc, declared, init))),
        Err(wanting) => {
            drop(init);
            Err(wanting)
        }
    }
}

/// The model of a walk: the same symbols, axioms and conjectures, and the walk in the place of init.
pub fn model_of_walk(alloc: Global, checked: &Checked, legs: &[Leg]) -> Mem<Checked>
    requires { AreLegs checked.now legs.now }
    ensures { IfOk result (λ c. c ≡ walk_model checked.now legs.now) }
{
    walk_model_law();
    let model = checked.model();
    let init = join(alloc, checked, legs)?;
    let made = with_block(alloc, model, init)?;
    Ok(made)
}

/// The model of a walk that does not abort, with an abort at its end.
pub fn model_of_stopped_walk(alloc: Global, checked: &Checked, legs: &[Leg]) -> Mem<Checked>
    requires legs { AreLegs checked.now legs.now }
    requires ends { has_abort (joined checked.now legs.now) ≡ false }
    ensures { IfOk result (λ c. c ≡ stopped_model checked.now legs.now) }
{
    stopped_model_law();
    let model = checked.model();
    let init = join_and_abort(alloc, checked, legs)?;
    let made = with_block(alloc, model, init)?;
    Ok(made)
}
