// The values of a conjecture's leading quantifiers.
ghost use Rattle.std.specs.Prelude.{◌≡◌, ◌<◌, ◌++◌, All, length, slice_get, IfOk};
ghost use Rattle.fol_sig.specs.Tables.{numbers};
ghost use Rattle.fol_formula.specs.View.{form};
ghost use Rattle.rml_command.specs.Goals.{leading_sorts};
ghost use Rattle.report_read.specs.Reading.{value_sorts};

use base::{Mem, Row};
use fol_formula::Formula;
use fol_sig::Sort;
use rml_command::Checked;
use std::alloc::Global;

// The sorts of the leading run of `forall`, behind those before.
#[tactic(auto, using(std::proofs::Common::append_assoc))]
fn push_leading(formula: &Formula, before: Row<Sort>) -> Mem<Row<Sort>>
    ensures { IfOk result (λ sorts. numbers sorts ≡ numbers before ++ leading_sorts (form formula.now)) }
{
    let mut sorts = before;
    match formula {
        Formula::Forall(sort, body) => {
            sorts.push(*sort)?;
            let all = push_leading(body, sorts)?;
            Ok(all)
        }
        _ => Ok(sorts),
    }
}

/// The sorts of the leading run of `forall` of a conjecture.
pub fn value_sorts(alloc: Global, checked: &Checked, conjecture: u32) -> Mem<Row<Sort>>
    requires { conjecture < length checked.now.conjectures }
    ensures sorts { IfOk result
        (λ sorts. numbers sorts ≡ value_sorts (slice_get checked.now.conjectures conjecture)) }
    ensures known { IfOk result (λ sorts. All (λ k. k < checked.now.signature.sorts) (numbers sorts)) }
{
    let sentence = &checked.model().conjectures()[conjecture as usize];
    let sorts = push_leading(sentence.formula(), Row::new(alloc))?;
    Ok(sorts)
}
