// A structure with another table for one symbol: one evaluation for each tuple.
ghost use Rattle.std.specs.Prelude.{◌≡◌, ◌<◌, ◌++◌, [], OnOk};
ghost use Rattle.fol_sig.specs.Tables.{numbers, reading};
ghost use Rattle.fol_sig.specs.Symbols.{Symbols, FitsStructure};
ghost use Rattle.fol_sig.specs.Updates.{cells_from};
ghost use Rattle.fol_formula.specs.View.{form, term};
ghost use Rattle.fol_formula.specs.Truth.{truth, value as value_of};
ghost use Rattle.fol_formula.specs.Fits.{HasTruth, HasValue};
ghost use Rattle.fol_eval.specs.Elements.{elements};
ghost use Rattle.rml_command.specs.Trees.{set_rel, set_fun, havoc};
ghost use Rattle.rml_command.specs.Outcomes.{set_relation as relation_set, set_function as function_set};
ghost use Rattle.rml_command.specs.Outcomes.{set_variable as variable_set, range_of};
ghost use Rattle.rml_exec.specs.Steps.{CanUpdate, AtEachTuple};

use base::Mem;
use fol_eval::{Env, holds, value};
use fol_formula::{Formula, Term};
use fol_sig::{FunId, RelId, Sort, Structure};
use std::alloc::Global;

/// The formula is evaluated in the structure as it was.
pub fn set_relation(alloc: Global, structure: &mut Structure, rel: RelId, by: &Formula) -> Mem<()>
    requires { CanUpdate (set_rel rel.0 (form by.now)) structure.old }
    ensures set { OnOk result (structure.new ≡ relation_set structure.old rel.0 (form by.now)) }
    ensures fits { OnOk result ((sig : Symbols) → FitsStructure sig structure.old → FitsStructure sig structure.new) }
{
    fol_sig::update_laws();
    let mut cells = Vec::new(alloc);
    fill_relation(
        structure,
        by,
        structure.relation_sorts(rel),
        &Env::Empty,
        &mut cells,
    )?;
    structure.set_relation_cells(rel, cells);
    Ok(())
}

/// The term is evaluated in the structure as it was.
pub fn set_function(alloc: Global, structure: &mut Structure, fun: FunId, by: &Term) -> Mem<()>
    requires { CanUpdate (set_fun fun.0 (term by.now)) structure.old }
    ensures set { OnOk result (structure.new ≡ function_set structure.old fun.0 (term by.now)) }
    ensures fits { OnOk result ((sig : Symbols) → FitsStructure sig structure.old → FitsStructure sig structure.new) }
{
    fol_sig::update_laws();
    fol_formula::agreement();
    let mut cells = Vec::new(alloc);
    fill_function(
        structure,
        by,
        structure.function_sorts(fun),
        &Env::Empty,
        &mut cells,
    )?;
    structure.set_function_cells(fun, cells);
    Ok(())
}

/// Sets a program variable to an element of its sort.
pub fn set_variable(
    alloc: Global,
    structure: &mut Structure,
    variable: FunId,
    element: u32,
) -> Mem<()>
    requires variable { CanUpdate (havoc variable.0) structure.old }
    requires in_range { element < range_of structure.old variable.0 }
    ensures set { OnOk result (structure.new ≡ variable_set structure.old variable.0 element) }
    ensures fits { OnOk result ((sig : Symbols) → FitsStructure sig structure.old → FitsStructure sig structure.new) }
{
    let mut cells = Vec::new(alloc);
    cells.push(element)?;
    structure.set_function_cells(variable, cells);
    Ok(())
}

// The truth of the formula at each tuple of these sorts behind the elements of `env`.
fn fill_relation(
    structure: &Structure,
    by: &Formula,
    sorts: &[Sort],
    env: &Env,
    cells: &mut Vec<bool>,
) -> Mem<()>
    requires { AtEachTuple structure.now (HasTruth structure.now (form by.now)) (numbers sorts.now) (elements env.now) }
    ensures { OnOk result (cells.new.items ≡ cells.old.items ++ cells_from structure.now.sizes
        (λ tuple. truth (reading structure.now) (form by.now) tuple) (numbers sorts.now) (elements env.now)) }
{
    match sorts.split_first() {
        None => {
            cells.push(holds(structure, by, env))?;
        }
        Some((sort, rest)) => {
            for element in 0..structure.size(*sort) {
                let inner = Env::Bind {
                    element,
                    outer: &*env,
                };
                fill_relation(structure, by, rest, &inner, cells)?;
            }
        }
    }
    Ok(())
}

// The value of the term at each tuple of these sorts behind the elements of `env`.
fn fill_function(
    structure: &Structure,
    by: &Term,
    sorts: &[Sort],
    env: &Env,
    cells: &mut Vec<u32>,
) -> Mem<()>
    requires { AtEachTuple structure.now (HasValue structure.now (term by.now)) (numbers sorts.now) (elements env.now) }
    ensures { OnOk result (cells.new.items ≡ cells.old.items ++ cells_from structure.now.sizes
        (λ tuple. value_of (reading structure.now) (term by.now) tuple) (numbers sorts.now) (elements env.now)) }
{
    match sorts.split_first() {
        None => {
            cells.push(value(structure, by, env))?;
        }
        Some((sort, rest)) => {
            for element in 0..structure.size(*sort) {
                let inner = Env::Bind {
                    element,
                    outer: &*env,
                };
                fill_function(structure, by, rest, &inner, cells)?;
            }
        }
    }
    Ok(())
}
