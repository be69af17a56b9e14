// A model is checked. What the check finds on its way, the strata and the paths, is handed on, so that nobody seeks it
// again.
ghost use Rattle.std.specs.Prelude.{◌≡◌, map, IfOk, OnOk, IfErr};
ghost use Rattle.std.specs.List.{AllByRecursion};
ghost use Rattle.base.specs.Because.{Because};
ghost use Rattle.fol_sig.specs.Symbols.{symbols};
ghost use Rattle.fol_sig.specs.Strata.{IsStrata};
ghost use Rattle.rml_lex.specs.declared.token.Fault.{Fault as OneFault};
ghost use Rattle.rml_command.specs.View.{command as command_view};
ghost use Rattle.rml_command.specs.Paths.{paths_of};
ghost use Rattle.rml_command.specs.Models.{EachBlock};
ghost use Rattle.rml_command.specs.Fragment.{HasFewPaths, IsChecked};
ghost use Rattle.rml_fragment.specs.First.{IsFirst};
ghost use Rattle.rml_fragment.specs.Faults.{Breaks, HasLongBlock, IsFault};

use crate::fragment::fragment_strata;
use crate::laws::passing_law;
use crate::long::long_block_fault;
use base::{Mem, Refused, Row};
use fol_sig::Strata;
use rml_command::{Checked, Command, Model, Paths, few_paths};
use rml_lex::Fault;
use std::alloc::Global;

/// The model with its strata and the paths of its blocks, or its fault: the first by which it leaves the fragment, and
/// only where it does not, the first of a block with more than 4,096 paths. A model with a fault is dropped.
pub fn check(alloc: Global, model: Model) -> Result<Checked, Refused<Fault>>
    ensures model { IfOk result (λ c. c ≡ model) }
    ensures checked { OnOk result (IsChecked model) }
    ensures faultless { OnOk result ((fault : OneFault) → IsFault model fault → ⊥) }
    ensures fault { IfErr result (Because (IsFault model)) }
{
    match fragment_strata(alloc, &model) {
        Ok(strata) => check_blocks(alloc, model, strata),
        Err(refused) => {
            drop(model);
            Err(refused)
        }
    }
}

// The model is in the fragment.
fn check_blocks(alloc: Global, model: Model, strata: Strata) -> Result<Checked, Refused<Fault>>
    requires fragment { (fault : OneFault) → Breaks model fault → ⊥ }
    requires strata { IsStrata (symbols model.signature) strata }
    ensures model { IfOk result (λ c. c ≡ model) }
    ensures checked { OnOk result (IsChecked model) }
    ensures faultless { OnOk result ((fault : OneFault) → HasLongBlock model fault → ⊥) }
    ensures fault { IfErr result (Because (IsFirst (HasLongBlock model))) }
{
    let _ = model.signature();
    passing_law();
    match long_block_fault(&model) {
        Some(fault) => {
            drop(model);
            drop(strata);
            Err(Refused::For(fault))
        }
        None => {
            let checked = with_paths(alloc, model, strata)?;
            Ok(checked)
        }
    }
}

// The paths of the blocks are listed, and all is known.
fn with_paths(alloc: Global, model: Model, strata: Strata) -> Mem<Checked>
    requires checked { IsChecked model }
    requires strata { IsStrata (symbols model.signature) strata }
    ensures { IfOk result (λ c. c ≡ model) }
{
    match block_lists(alloc, &model) {
        Err(wanting) => {
            drop(model);
            drop(strata);
            Err(wanting)
        }
        Ok(
            BlockPaths {
                init,
                actions,
                last,
            },
        ) => Ok(Checked::new(alloc, model, strata, init, actions, last)),
    }
}

// The paths of the blocks of a model.
#[derive(Drop)]
struct BlockPaths {
    init: Paths,
    actions: Row<Paths>,
    last: Paths,
}

// The paths of each block.
fn block_lists(alloc: Global, model: &Model) -> Mem<BlockPaths>
    requires { EachBlock HasFewPaths model.now }
    ensures init { IfOk result (λ l. l.init ≡ paths_of model.now.init) }
    ensures actions { IfOk result (λ l. l.actions ≡ map paths_of model.now.actions) }
    ensures last { IfOk result (λ l. l.last ≡ paths_of model.now.last) }
{
    let init = few_paths(alloc, model.init())?;
    let actions = action_paths(alloc, model.actions())?;
    let last = few_paths(alloc, model.last())?;
    Ok(BlockPaths {
        init,
        actions,
        last,
    })
}

// The paths of each action.
fn action_paths(alloc: Global, actions: &[Command]) -> Mem<Row<Paths>>
    requires { AllByRecursion HasFewPaths (map command_view actions.now) }
    ensures { IfOk result (λ all. all ≡ map paths_of (map command_view actions.now)) }
{
    let mut all = Row::new(alloc);
    let mut rest = actions;
    while let [action, after @ ..] = rest {
        all.push(few_paths(alloc, action)?)?;
        rest = after;
    }
    Ok(all)
}
