// Constants in the place of existential quantifiers, as far down as And, Or and existentials go: in
// normal form an exists-forall sentence has none below.
ghost use Rattle.std.specs.Prelude.{◌≡◌, ◌+◌, ◌<◌, ◌^◌, ◌∷◌, ◌++◌, length, suc, IfOk, OnOk};
ghost use Rattle.fol_sig.specs.Tables.{numbers};
ghost use Rattle.fol_formula.specs.View.{form, forms};
ghost use Rattle.skolem.specs.Constants.{new_sorts, all_new_sorts, constant, skolem_form, skolem_forms};
ghost use Rattle.skolem.specs.Scopes.{slots};

use crate::named::named_formula;
use crate::scope::Scope;
use base::Mem;
use fol_formula::Formula;
use fol_sig::{FunId, Sort};
use std::alloc::Global;

/// The formula with constants, which stand behind so many functions and those that are in the list
/// already. The sorts of the new ones are added to the list.
#[cycle(skolem)]
pub fn skolem_formula(
    alloc: Global,
    p: &Formula,
    functions: u32,
    scope: &Scope,
    constants: &mut Vec<Sort>,
) -> Mem<Formula>
    requires few { functions + length constants.old.items + length (new_sorts (form p.now)) < 2 ^ 32 }
    ensures tree { IfOk result
        (λ f. form f ≡ skolem_form (functions + length constants.old.items) (slots scope.now) (form p.now)) }
    ensures sorts { OnOk result (numbers constants.new.items ≡ numbers constants.old.items ++ new_sorts (form p.now)) }
{
    match p {
        Formula::And(ps) => {
            let ps = skolem_formulas(alloc, ps, functions, scope, constants)?;
            Ok(Formula::And(ps))
        }
        Formula::Or(ps) => {
            let ps = skolem_formulas(alloc, ps, functions, scope, constants)?;
            Ok(Formula::Or(ps))
        }
        Formula::Exists(k, p) => {
            let p = skolem_exists(alloc, *k, p, functions, scope, constants)?;
            Ok(p)
        }
        _ => {
            let p = named_formula(alloc, p, scope)?;
            Ok(p)
        }
    }
}

// The body of an existential of this sort, whose index is the next constant.
#[cycle(skolem)]
fn skolem_exists(
    alloc: Global,
    sort: Sort,
    p: &Formula,
    functions: u32,
    scope: &Scope,
    constants: &mut Vec<Sort>,
) -> Mem<Formula>
    requires few { functions + length constants.old.items + suc (length (new_sorts (form p.now))) < 2 ^ 32 }
    ensures tree { IfOk result
        (λ f. form f ≡ skolem_form (suc (functions + length constants.old.items))
        (constant (functions + length constants.old.items) ∷ slots scope.now) (form p.now)) }
    ensures sorts { OnOk result (numbers constants.new.items ≡ numbers constants.old.items ++ sort.0
        ∷ new_sorts (form p.now)) }
{
    let function = FunId(functions + constants.len() as u32);
    constants.push(sort)?;
    let inner = Scope::Constant {
        function,
        outer: &*scope,
    };
    let p = skolem_formula(alloc, p, functions, &inner, constants)?;
    Ok(p)
}

#[cycle(skolem)]
fn skolem_formulas(
    alloc: Global,
    ps: &[Formula],
    functions: u32,
    scope: &Scope,
    constants: &mut Vec<Sort>,
) -> Mem<Vec<Formula>>
    requires few { functions + length constants.old.items + length (all_new_sorts (forms ps.now)) < 2 ^ 32 }
    ensures tree { IfOk result
        (λ fs. forms fs.items ≡ skolem_forms (functions + length constants.old.items) (slots scope.now)
        (forms ps.now)) }
    ensures sorts { OnOk result (numbers constants.new.items ≡ numbers constants.old.items
        ++ all_new_sorts (forms ps.now)) }
{
    fol_formula::lists();
    let mut all = Vec::with_capacity(alloc, ps.len())?;
    for p in ps {
        all.push(skolem_formula(alloc, p, functions, scope, constants)?)?;
    }
    Ok(all)
}
