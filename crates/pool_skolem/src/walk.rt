// Constants in the place of existential quantifiers, as far down as And, Or and existentials go: in normal form an
// exists-forall sentence has none below. A row may be long, and is walked by a loop.
ghost use Rattle.std.specs.Prelude.{◌≡◌, ◌+◌, ◌<◌, ◌^◌, ◌++◌, ◌∷◌, length, suc, IfOk, OnOk};
ghost use Rattle.skolem.specs.Constants.{new_sorts, all_new_sorts, constant, named_form, skolem_form, skolem_forms};
ghost use Rattle.fol_pool.specs.Trees.{IsAt, Grows, HasForm, HasForms, a_form, some_forms, form_at, forms_at};
ghost use Rattle.pool_subst.specs.Memos.{AreRight};
ghost use Rattle.pool_skolem.specs.Named.{slots, next};
ghost use Rattle.pool_skolem.specs.Naming.{naming};

use crate::naming::Naming;
use crate::scope::Scope;
use crate::supply::Constants;
use base::Mem;
use fol_pool::{Node, Pool, Shape};
use fol_sig::Sort;
use pool_subst::{Memo, change};
use std::alloc::Global;

/// The formula with constants, which stand behind those that there are already, in a scope of which the memo has what
/// was made.
#[cycle(skolem)]
pub fn skolem_node(
    alloc: Global,
    pool: &mut Pool,
    at: Node,
    scope: &Scope,
    memo: &mut Memo,
    constants: &mut Constants,
) -> Mem<Node>
    requires there { HasForm pool.old at.0 }
    requires few { next constants.old + length (new_sorts (form_at pool.old at.0)) < 2 ^ 32 }
    requires right { AreRight (naming (slots scope.now)) pool.old memo.old }
    ensures node { IfOk result (λ node. IsAt pool.new node.0
        (a_form (skolem_form (next constants.old) (slots scope.now) (form_at pool.old at.0)))) }
    ensures functions { constants.new.functions ≡ constants.old.functions }
    ensures sorts { OnOk result (constants.new.sorts ≡ constants.old.sorts ++ new_sorts (form_at pool.old at.0)) }
    ensures grows { Grows pool.old pool.new }
    ensures right { AreRight (naming (slots scope.now)) pool.new memo.new }
{
    if !pool.has_existential(at) {
        let node = named_node(pool, at, scope, memo)?;
        return Ok(node);
    }
    match pool.shape(at) {
        Shape::And(ps) => {
            let row = skolem_row(alloc, pool, ps, scope, memo, constants)?;
            let node = pool.add(Shape::And(row))?;
            Ok(node)
        }
        Shape::Or(ps) => {
            let row = skolem_row(alloc, pool, ps, scope, memo, constants)?;
            let node = pool.add(Shape::Or(row))?;
            Ok(node)
        }
        Shape::Exists(k, p) => {
            let node = skolem_exists(alloc, pool, k, p, scope, constants)?;
            Ok(node)
        }
        _ => {
            let node = named_node(pool, at, scope, memo)?;
            Ok(node)
        }
    }
}

// The body of an existential of this sort, whose index is the next constant.
#[cycle(skolem)]
fn skolem_exists(
    alloc: Global,
    pool: &mut Pool,
    sort: Sort,
    body: Node,
    scope: &Scope,
    constants: &mut Constants,
) -> Mem<Node>
    requires there { HasForm pool.old body.0 }
    requires few { next constants.old + suc (length (new_sorts (form_at pool.old body.0))) < 2 ^ 32 }
    ensures node { IfOk result (λ node. IsAt pool.new node.0
        (a_form (skolem_form (suc (next constants.old)) (constant (next constants.old) ∷ slots scope.now)
        (form_at pool.old body.0)))) }
    ensures functions { constants.new.functions ≡ constants.old.functions }
    ensures sorts { OnOk result (constants.new.sorts
        ≡ constants.old.sorts ++ sort.0 ∷ new_sorts (form_at pool.old body.0)) }
    ensures grows { Grows pool.old pool.new }
{
    let constant = constants.add(sort)?;
    let inner = Scope::Inside {
        constant,
        outer: &*scope,
    };
    let mut memo = Memo::new(alloc);
    let node = skolem_node(alloc, pool, body, &inner, &mut memo, constants)?;
    Ok(node)
}

// A row of formulas, from the first on.
#[cycle(skolem)]
fn skolem_row(
    alloc: Global,
    pool: &mut Pool,
    row: Node,
    scope: &Scope,
    memo: &mut Memo,
    constants: &mut Constants,
) -> Mem<Node>
    requires there { HasForms pool.old row.0 }
    requires few { next constants.old + length (all_new_sorts (forms_at pool.old row.0)) < 2 ^ 32 }
    requires right { AreRight (naming (slots scope.now)) pool.old memo.old }
    ensures node { IfOk result (λ node. IsAt pool.new node.0
        (some_forms (skolem_forms (next constants.old) (slots scope.now) (forms_at pool.old row.0)))) }
    ensures functions { constants.new.functions ≡ constants.old.functions }
    ensures sorts { OnOk result (constants.new.sorts
        ≡ constants.old.sorts ++ all_new_sorts (forms_at pool.old row.0)) }
    ensures grows { Grows pool.old pool.new }
    ensures right { AreRight (naming (slots scope.now)) pool.new memo.new }
{
    let mut parts = Vec::new(alloc);
    let mut rest = row;
    while let Shape::FormThen(first, after) = pool.shape(rest) {
        let part = skolem_node(alloc, pool, first, scope, memo, constants)?;
        parts.push(part)?;
        rest = after;
    }
    let node = pool.row_of(&parts)?;
    Ok(node)
}

// A formula without existentials, or one below which no constant is put.
fn named_node(pool: &mut Pool, at: Node, scope: &Scope, memo: &mut Memo) -> Mem<Node>
    requires there { HasForm pool.old at.0 }
    requires right { AreRight (naming (slots scope.now)) pool.old memo.old }
    ensures node { IfOk result (λ node. IsAt pool.new node.0 (a_form (named_form (slots scope.now)
        (form_at pool.old at.0)))) }
    ensures grows { Grows pool.old pool.new }
    ensures right { AreRight (naming (slots scope.now)) pool.new memo.new }
{
    let node = change(pool, &Naming { scope }, 0, at, memo)?;
    Ok(node)
}
