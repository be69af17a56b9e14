// Where a path of a model's first block ends, followed from the blank structure of some sizes, and which conjectures
// are true there.
ghost use Rattle.std.specs.Prelude.{◌≡◌, ◌<◌, All, IsTrue, IfOk, IfSome, length, slice_get};
ghost use Rattle.fol_sig.specs.Symbols.{symbols, FitsStructure};
ghost use Rattle.rml_command.specs.Models.{FitsPath};
ghost use Rattle.rml_command.specs.Fragment.{IsChecked};
ghost use Rattle.rml_command.specs.Goals.{stage_paths};

use base::{Mem, Refused, Row};
use call_files::Call;
use fol_eval::{Env, holds};
use fol_sig::Structure;
use rml_command::{Checked, Path, Stage, goal_law, havocs_of};
use rml_exec::{Followed, Trace, follow};
use rml_front::read_model;
use std::alloc::{AllocError, Global};

// What a run is made of, as the input writes it: `SIZES / PATH / ELEMENTS / MODEL`, with spaces between numbers.
#[derive(Clone, Copy)]
struct Input<'a> {
    sizes: &'a str,
    path: &'a str,
    elements: &'a str,
    model: &'a str,
}

fn parts_of(input: &str) -> Option<Input<'_>> {
    let (sizes, rest) = input.split_once(" / ")?;
    let (path, rest) = rest.split_once(" / ")?;
    let (elements, model) = rest.split_once(" / ")?;
    Some(Input {
        sizes,
        path,
        elements,
        model,
    })
}

fn numbers_of(alloc: Global, text: &str) -> Mem<Vec<u32>> {
    let mut numbers = Vec::new(alloc);
    for word in text.split(' ') {
        if let Ok(number) = word.parse::<u32>() {
            numbers.push(number)?;
        }
    }
    Ok(numbers)
}

fn are_positive(sizes: &[u32]) -> bool
    ensures { IsTrue result → All (λ n. 0 < n) sizes.now }
{
    sizes.iter().all(|size| *size > 0)
}

fn blank(alloc: Global, checked: &Checked, sizes: &[u32]) -> Mem<Option<Structure>>
    ensures { IfOk result (λ o. IfSome o (FitsStructure (symbols checked.now.signature))) }
{
    let signature = checked.model().signature();
    if sizes.len() != signature.sorts() as usize || !are_positive(sizes) {
        return Ok(None);
    }
    let structure = Structure::new(alloc, signature, sizes)?;
    Ok(Some(structure))
}

// The path of the block `init` at this place, from 0.
#[tactic(auto, using(crate::proofs::BlockPaths::fits_at))]
fn path_at(checked: &Checked, place: usize) -> Option<Path<'_>>
    ensures { IfSome result (λ p. FitsPath (symbols checked.now.signature) p) }
{
    goal_law();
    let paths = checked.stage_paths(Stage::Init);
    if place < paths.len() {
        Some(paths.path(place))
    } else {
        None
    }
}

// Which conjectures are true in a structure.
fn truths(alloc: Global, checked: &Checked, structure: &Structure) -> Mem<String>
    requires { FitsStructure (symbols checked.now.signature) structure.now }
{
    let mut list = String::from_str(alloc, "ended:")?;
    let mut rest = checked.model().conjectures();
    while let [sentence, after @ ..] = rest {
        let is_true = holds(structure, sentence.formula(), &Env::Empty);
        list.push_str(if is_true { " true" } else { " false" })?;
        rest = after;
    }
    Ok(list)
}

fn end(
    alloc: Global,
    checked: &Checked,
    path: &Path,
    trace: &Trace,
    start: &Structure,
) -> Mem<String>
    requires path { FitsPath (symbols checked.now.signature) path.now }
    requires start { FitsStructure (symbols checked.now.signature) start.now }
{
    match follow(alloc, checked, path, trace, start)? {
        Followed::Ended(structure) => {
            let answer = truths(alloc, checked, &structure);
            drop(structure);
            answer
        }
        Followed::Aborted => String::from_str(alloc, "aborted"),
        Followed::Blocked => String::from_str(alloc, "blocked"),
    }
}

fn follow_from(
    alloc: Global,
    checked: &Checked,
    path: &Path,
    trace: &Trace,
    sizes: &[u32],
) -> Mem<String>
    requires { FitsPath (symbols checked.now.signature) path.now }
{
    match blank(alloc, checked, sizes)? {
        Some(start) => {
            let answer = end(alloc, checked, path, trace, &start);
            drop(start);
            answer
        }
        None => String::from_str(alloc, "no sizes of this model"),
    }
}

fn follow_input(alloc: Global, checked: &Checked, input: Input) -> Mem<String> {
    let path_number = input.path.parse::<u32>().unwrap_or(0);
    let sizes = numbers_of(alloc, input.sizes)?;
    let elements = numbers_of(alloc, input.elements)?;
    let trace = Trace {
        path: path_number,
        havoc: havocs_of(alloc, &elements)?,
    };
    match path_at(checked, path_number.saturating_sub(1) as usize) {
        Some(path) => {
            let answer = follow_from(alloc, checked, &path, &trace, &sizes);
            drop(path);
            drop(trace);
            answer
        }
        None => String::from_str(alloc, "no path of this block"),
    }
}

/// How following ends.
pub struct Runs;

impl Call for Runs {
    fn answer(alloc: Global, input: &str) -> Mem<String> {
        let Some(input) = parts_of(input) else {
            return String::from_str(alloc, "no sizes, path, elements and model");
        };
        match read_model(alloc, input.model.as_bytes()) {
            Ok(checked) => {
                let answer = follow_input(alloc, &checked, input);
                drop(checked);
                answer
            }
            Err(Refused::For(_)) => String::from_str(alloc, "a fault of the model"),
            Err(Refused::NoMemory) => Err(AllocError),
        }
    }
}
