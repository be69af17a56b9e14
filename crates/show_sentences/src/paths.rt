// The paths of a model's first block, in order.
use crate::models::{fault_of, model_of};
use base::{Mem, Refused};
use call_files::Call;
use rml_command::{Model, Path, Paths, Primitive, paths};
use std::alloc::{AllocError, Global};

// Havoc is shown by the number of its symbol, so that steps of a path can be told from one another.
fn push_step(alloc: Global, list: &mut String, primitive: &Primitive) -> Mem<()> {
    match primitive {
        Primitive::Assume(_) => list.push_str(" assume")?,
        Primitive::SetRel(relation, _) => {
            let number = relation.0;
            list.push_str(format!(in alloc; " relation {number}")?.as_str())?
        }
        Primitive::SetFun(function, _) => {
            let number = function.0;
            list.push_str(format!(in alloc; " function {number}")?.as_str())?
        }
        Primitive::Havoc(variable) => {
            let number = variable.0;
            list.push_str(format!(in alloc; " {number}")?.as_str())?
        }
        Primitive::HavocRel(relation) => {
            let number = relation.0;
            list.push_str(format!(in alloc; " relation {number}")?.as_str())?
        }
        Primitive::Abort => list.push_str(" abort")?,
    }
    Ok(())
}

fn push_path(alloc: Global, list: &mut String, path: &Path) -> Mem<()> {
    for primitive in path.primitives() {
        push_step(alloc, list, primitive)?;
    }
    list.push(';')
}

fn listed(alloc: Global, all: &Paths) -> Mem<String> {
    let count = all.len();
    let mut list = format!(in alloc; "{count} paths:")?;
    for number in 0..count.min(8) {
        let path = all.path(number);
        let pushed = push_path(alloc, &mut list, &path);
        drop(path);
        pushed?;
    }
    Ok(list)
}

fn init_paths(alloc: Global, model: &Model) -> Mem<String> {
    match paths(alloc, model.init()) {
        Ok(all) => {
            let list = listed(alloc, &all);
            drop(all);
            list
        }
        Err(Refused::For(_)) => String::from_str(alloc, "too many paths"),
        Err(Refused::NoMemory) => Err(AllocError),
    }
}

/// How many paths the block `init` has, and the first eight of them.
pub struct BlockPaths;

impl Call for BlockPaths {
    fn answer(alloc: Global, input: &str) -> Mem<String> {
        match model_of(alloc, input.as_bytes()) {
            Ok(model) => {
                let answer = init_paths(alloc, &model);
                drop(model);
                answer
            }
            Err(refused) => fault_of(alloc, refused),
        }
    }
}
