// The axioms and conjectures of a model: how large they are, and in which fragments they lie.
use crate::models::{fault_of, model_of};
use base::Mem;
use call_files::Call;
use fol_formula::{Ae, Ea, Formula, Normal, Sentence, Universal};
use rml_command::Model;
use std::alloc::Global;

fn push_if(list: &mut String, is_so: bool, name: &str) -> Mem<()> {
    if is_so {
        list.push_str(", ")?;
        list.push_str(name)?;
    }
    Ok(())
}

// The classes in which a formula lies, as it stands.
fn push_classes(list: &mut String, formula: &Formula) -> Mem<()> {
    let classes = formula.prefix_classes();
    push_if(list, classes.universal, "universal")?;
    push_if(list, classes.existential, "existential")?;
    push_if(list, classes.exists_forall, "exists-forall")?;
    push_if(list, classes.forall_exists, "forall-exists")?;
    push_if(list, formula.is_quantifier_free(), "quantifier-free")?;
    push_if(list, formula.has_plain_terms(), "plain terms")?;
    push_if(list, formula.is_normal_form(), "normal form")
}

// Whether a type took a sentence, which ends with that.
fn is_taken<T: Drop>(taken: Result<T, Sentence>) -> bool {
    let is_ok = taken.is_ok();
    drop(taken);
    is_ok
}

// The types that take the sentence.
fn push_types(alloc: Global, list: &mut String, sentence: &Sentence) -> Mem<()> {
    push_if(list, is_taken(Ea::of(sentence.copy(alloc)?)), "Ea")?;
    push_if(list, is_taken(Ae::of(sentence.copy(alloc)?)), "Ae")?;
    push_if(
        list,
        is_taken(Universal::of(sentence.copy(alloc)?)),
        "Universal",
    )?;
    push_if(list, is_taken(Normal::of(sentence.copy(alloc)?)), "Normal")
}

fn push_fragments(alloc: Global, list: &mut String, sentences: &[Sentence]) -> Mem<()> {
    for sentence in sentences {
        let (nodes, depth) = (sentence.nodes(), sentence.depth());
        list.push_str(format!(in alloc; "[{nodes} nodes, {depth} deep")?.as_str())?;
        push_classes(list, sentence.formula())?;
        push_types(alloc, list, sentence)?;
        list.push(']')?;
    }
    Ok(())
}

fn fragments_told(alloc: Global, model: &Model) -> Mem<String> {
    let mut list = String::new(alloc);
    push_fragments(alloc, &mut list, model.axioms())?;
    push_fragments(alloc, &mut list, model.conjectures())?;
    Ok(list)
}

/// What is said of each axiom and of each conjecture.
pub struct Fragments;

impl Call for Fragments {
    fn answer(alloc: Global, input: &str) -> Mem<String> {
        match model_of(alloc, input.as_bytes()) {
            Ok(model) => {
                let answer = fragments_told(alloc, &model);
                drop(model);
                answer
            }
            Err(refused) => fault_of(alloc, refused),
        }
    }
}
