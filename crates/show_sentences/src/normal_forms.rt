// The normal forms of a model's axioms, and of the negations of its conjectures.
use crate::models::{fault_of, model_of};
use base::Mem;
use call_files::Call;
use fol_formula::{Ae, Ea, Formula, Sentence};
use fol_nnf::{negate, normal};
use rml_command::Model;
use std::alloc::Global;

fn push_formula(alloc: Global, list: &mut String, formula: &Formula) -> Mem<()> {
    list.push_str(format!(in alloc; "[{formula:?}]")?.as_str())
}

// Pushes the normal form of a sentence, which ends with that.
fn push_normal_form(alloc: Global, list: &mut String, sentence: Ea) -> Mem<()> {
    let normal = normal(alloc, &sentence);
    drop(sentence);
    let normal = normal?;
    let pushed = push_formula(alloc, list, normal.sentence().formula());
    drop(normal);
    pushed
}

fn push_axiom(alloc: Global, list: &mut String, sentence: &Sentence) -> Mem<()> {
    match Ea::of(sentence.copy(alloc)?) {
        Ok(sentence) => push_normal_form(alloc, list, sentence),
        Err(sentence) => {
            drop(sentence);
            list.push_str("[not exists-forall]")
        }
    }
}

fn push_conjecture(alloc: Global, list: &mut String, sentence: &Sentence) -> Mem<()> {
    match Ae::of(sentence.copy(alloc)?) {
        Ok(sentence) => push_normal_form(alloc, list, negate(alloc, sentence)?),
        Err(sentence) => {
            drop(sentence);
            list.push_str("[not forall-exists]")
        }
    }
}

fn normal_forms(alloc: Global, model: &Model) -> Mem<String> {
    let mut list = String::new(alloc);
    for axiom in model.axioms() {
        push_axiom(alloc, &mut list, axiom)?;
    }
    for conjecture in model.conjectures() {
        push_conjecture(alloc, &mut list, conjecture)?;
    }
    Ok(list)
}

/// The normal form of each axiom, and that of the negation of each conjecture.
pub struct NormalForms;

impl Call for NormalForms {
    fn answer(alloc: Global, input: &str) -> Mem<String> {
        match model_of(alloc, input.as_bytes()) {
            Ok(model) => {
                let answer = normal_forms(alloc, &model);
                drop(model);
                answer
            }
            Err(refused) => fault_of(alloc, refused),
        }
    }
}
