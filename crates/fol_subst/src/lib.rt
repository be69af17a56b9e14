//! Replacement of a symbol in a formula by what it is set to, shifting of indices, and templates: formulas with
//! parameters. Bound variables are never captured. How large the result of a replacement is, is counted before
//! anything is built, and that of a template follows from counts that are taken once. A replacement takes the
//! formula and changes it in place, so what does not mention the symbol is not copied.
#![tactic(auto)]

mod change;
mod counted;
mod extent;
mod indices;
mod laws;
mod measure;
mod own;
mod places;
mod replacement;
mod template;

ghost use Rattle.std.specs.Prelude.{IfOk, IfErr, IsTrue};
ghost use Rattle.base.specs.Because.{Because};
ghost use Rattle.fol_formula.specs.View.{form, term as term_view};
ghost use Rattle.fol_subst.specs.Replace.{change_rel, change_fun, change_const, changed_form};
ghost use Rattle.fol_subst.specs.Shift.{shift_form};
ghost use Rattle.fol_subst.specs.Limits.{is_too_large};
ghost use Rattle.fol_subst.specs.Outcome.{CanReplace, CanShift, IsReplacement, IsShifted};
ghost use Rattle.fol_subst.specs.Changes.{change_of};

use base::Refused;
use change::change_formula;
pub use counted::Counted;
pub use extent::{Extent, MOST_DEPTH, MOST_NODES};
use fol_formula::{Formula, Term};
use fol_sig::{FunId, RelId};
use indices::{Shift, copy_formula};
pub use laws::{conditions, exactness, extent_laws, instance_laws, own_values, same_size};
use measure::Measure;
pub use own::{is_own_fun, is_own_rel};
use replacement::Replacement;
use std::alloc::Global;
pub use template::Template;

/// The result would have over 1,000,000 nodes, or be over 1,000 deep.
#[derive(Clone, Copy, PartialEq, Eq, Debug)]
pub struct FormulaLimit;

/// The formula with `by` in the place of the relation, with its size. The indices that `by` does not bind
/// are the relation's parameters, the last one 0.
pub fn replace_rel(
    alloc: Global,
    within: Formula,
    rel: RelId,
    by: &Formula,
) -> Result<Counted, Refused<FormulaLimit>>
    requires { CanReplace (form within) (change_rel rel.0 (form by.now)) }
    ensures replaced { IfOk result
        (λ c. IsReplacement (form within) (change_rel rel.0 (form by.now)) (form c.formula)) }
    ensures limit { IfErr result
        (Because (λ _. IsTrue (is_too_large (changed_form (change_rel rel.0 (form by.now)) 0 (form within))))) }
{
    let counted = replace(alloc, within, &Replacement::Rel(rel, &*by))?;
    Ok(counted)
}

/// The formula with `by` in the place of the function, with its size. The indices that `by` does not bind
/// are the function's parameters, the last one 0.
pub fn replace_fun(
    alloc: Global,
    within: Formula,
    fun: FunId,
    by: &Term,
) -> Result<Counted, Refused<FormulaLimit>>
    requires { CanReplace (form within) (change_fun fun.0 (term_view by.now)) }
    ensures replaced { IfOk result
        (λ c. IsReplacement (form within) (change_fun fun.0 (term_view by.now)) (form c.formula)) }
    ensures limit { IfErr result
        (Because (λ _. IsTrue
        (is_too_large (changed_form (change_fun fun.0 (term_view by.now)) 0 (form within))))) }
{
    let counted = replace(alloc, within, &Replacement::Fun(fun, &*by))?;
    Ok(counted)
}

/// The formula with the bound variable that has this index outside of it in the place of the program
/// variable `fun`, with its size.
pub fn replace_const(
    alloc: Global,
    within: Formula,
    fun: FunId,
    index: u32,
) -> Result<Counted, Refused<FormulaLimit>>
    requires { CanReplace (form within) (change_const fun.0 index) }
    ensures replaced { IfOk result (λ c. IsReplacement (form within) (change_const fun.0 index) (form c.formula)) }
    ensures limit { IfErr result
        (Because (λ _. IsTrue (is_too_large (changed_form (change_const fun.0 index) 0 (form within))))) }
{
    let counted = replace(alloc, within, &Replacement::Const(fun, index))?;
    Ok(counted)
}

/// Raises by `by` each index that is bound outside the formula and is at least `from` there.
pub fn shift(
    alloc: Global,
    within: &Formula,
    from: u32,
    by: u32,
) -> Result<Formula, Refused<FormulaLimit>>
    requires { CanShift (form within.now) from by }
    ensures shifted { IfOk result (λ f. IsShifted (form within.now) from by (form f)) }
    ensures limit { IfErr result (Because (λ _. IsTrue (is_too_large (shift_form from by (form within.now))))) }
{
    fol_formula::quantified();
    let extent = Extent::new(within.nodes(), within.depth());
    if extent.is_over() {
        return Err(Refused::For(FormulaLimit));
    }
    let shifted = copy_formula(alloc, within, &Shift { by: by as u64 }, from as u64)?;
    Ok(shifted)
}

fn replace(
    alloc: Global,
    within: Formula,
    change: &Replacement,
) -> Result<Counted, Refused<FormulaLimit>>
    requires { CanReplace (form within) (change_of change.now) }
    ensures replaced { IfOk result (λ c. IsReplacement (form within) (change_of change.now) (form c.formula)) }
    ensures limit { IfErr result
        (Because (λ _. IsTrue (is_too_large (changed_form (change_of change.now) 0 (form within))))) }
{
    exactness();
    fol_formula::indices();
    let measure = Measure::of(change);
    let extent = measure.formula(&within, change);
    if extent.is_over() {
        return Err(Refused::For(FormulaLimit));
    }
    let formula = change_formula(alloc, within, change, &measure, 0)?;
    Ok(Counted {
        formula,
        nodes: extent.count,
        depth: extent.depth,
    })
}
