//! Symbols of formulas in a pool are replaced, and their indices shifted, node by node: what becomes of a node under so
//! many binders is made once, however often the node is a part of others. What a replacement and a shift are is said by
//! `fol_subst`, of trees. Both are cases of one walk by rules, which others may take with rules of their own.
#![tactic(auto)]

mod indices;
mod memo;
mod mentions;
mod replacement;
mod walk;

ghost use Rattle.std.specs.Prelude.{◌≡◌, IfOk};
ghost use Rattle.fol_subst.specs.Replace.{changed_form};
ghost use Rattle.fol_subst.specs.Shift.{shift_form};
ghost use Rattle.fol_pool.specs.Trees.{IsAt, Grows, HasForm, a_form, form_at};
ghost use Rattle.pool_subst.specs.Replacements.{HasReplacement, change_in};

use base::Mem;
use fol_pool::{Node, Pool};
use indices::Shift;
pub use memo::Memo;
use mentions::mentioned;
pub use replacement::Replacement;
use replacement::Replacing;
use std::alloc::Global;
pub use walk::{NodeRules, change, changed};

/// The node of a formula with a symbol replaced. The walk nests as deep as the formula. Err: out of memory, or an index
/// that four bytes do not hold, and each node is as before.
pub fn replace(alloc: Global, pool: &mut Pool, within: Node, change: Replacement) -> Mem<Node>
    requires within { HasForm pool.old within.0 }
    requires change { HasReplacement pool.old change }
    ensures node { IfOk result
        (λ node. IsAt pool.new node.0
        (a_form (changed_form (change_in pool.old change) 0 (form_at pool.old within.0)))) }
    ensures grows { Grows pool.old pool.new }
{
    let mentioned = mentioned(alloc, pool, change, within)?;
    let rules = Replacing {
        alloc,
        change,
        mentioned: &mentioned,
    };
    let node = changed(alloc, pool, &rules, 0, within)?;
    Ok(node)
}

/// The node of a formula in which each index that is bound outside and is at least `from` there is raised by `by`. The
/// walk nests as deep as the formula. Err: out of memory, or an index that four bytes do not hold, and each node is as
/// before.
pub fn shift(alloc: Global, pool: &mut Pool, within: Node, from: u32, by: u32) -> Mem<Node>
    requires { HasForm pool.old within.0 }
    ensures node { IfOk result
        (λ node. IsAt pool.new node.0 (a_form (shift_form from by (form_at pool.old within.0)))) }
    ensures grows { Grows pool.old pool.new }
{
    let node = changed(alloc, pool, &Shift { by }, from, within)?;
    Ok(node)
}
