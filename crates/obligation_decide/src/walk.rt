// From a model of a refuting sentence with constants to the counterexample that it is. Nothing is searched.
ghost use Rattle.std.specs.Prelude.{◌≡◌, ℕ, ◌+◌, ◌<◌, ◌^◌, true, [], length, slice_index, IfOk};
ghost use Rattle.fol_sig.specs.Tables.{fun_at};
ghost use Rattle.fol_sig.specs.Symbols.{symbols};
ghost use Rattle.fol_sig.specs.Constants.{reduct};
ghost use Rattle.skolem.specs.Laws.{HasConstant};
ghost use Rattle.rml_command.specs.Goals.{IsGoal};
ghost use Rattle.rml_wp.specs.Preconditions.{answered as answered_of};
ghost use Rattle.rml_wp.specs.Answered.{IsCutOfSatisfying};
ghost use Rattle.obligation_decide.specs.Restricted.{IsRefutingWith, RefutesAs};
ghost use Rattle.obligation_decide.specs.WithConstants.{constant_sorts, HoldsWithConstants};

use base::{Mem, Row};
use fol_formula::Ea;
use fol_sig::{FunId, Signature, Structure};
use rml_command::{Checked, Goal};
use rml_exec::{Counterexample, Trace};
use rml_wp::{Premises, goal_havocs, read_witness};
use std::alloc::Global;

/// The counterexample of a goal that a model of its refuting sentence is, with constants in the place of the
/// existentials: the elements and values stand among those of the constants, the tables are those of its fresh
/// relations, and the structure is the model without these and the constants.
pub fn read_counterexample(
    alloc: Global,
    checked: &Checked,
    premises: Premises,
    goal: &Goal,
    answered: &Signature,
    sentence: &Ea,
    model: Structure,
) -> Mem<Counterexample>
    requires goal { IsGoal checked.now goal.now }
    requires sentence { IsRefutingWith premises checked.now goal.now sentence.now }
    requires answered { answered.now ≡ answered_of checked.now goal.now }
    requires model { HoldsWithConstants answered.now sentence.now model }
    requires few { length answered.now.functions + length (constant_sorts sentence.now) < 2 ^ 32 }
    ensures goal { IfOk result (λ shown. shown.goal ≡ goal.now) }
    ensures path { IfOk result (λ shown. shown.trace.path ≡ goal.now.path) }
    ensures refutes { IfOk result
        (λ s. RefutesAs premises checked.now goal.now sentence.now s.structure s.trace.havoc s.values) }
    ensures holds { IfOk result (λ s. IsCutOfSatisfying checked.now goal.now sentence.now s.structure) }
    ensures structure { IfOk result
        (λ s. s.structure ≡ reduct (symbols checked.now.signature) (reduct (symbols answered.now) model)) }
{
    skolem::witnesses();
    skolem::exactness();
    fol_nnf::exactness();
    witness::sentence_law();
    witness::counterexample_law();
    rml_wp::answered_goal(checked, goal);
    let signature = checked.model().signature();
    let functions = answered.function_count();
    let count = sentence.sentence().formula().existentials() as u32;
    let constants = constants(alloc, &model, functions, count)?;
    let witness = read_witness(alloc, checked, premises, goal, &constants)?;
    let mut structure = model;
    structure.restrict(answered);
    let elements = witness.havoc.as_slice();
    let havoc = goal_havocs(alloc, checked, goal, answered, &structure, elements)?;
    structure.restrict(signature);
    Ok(Counterexample {
        structure,
        trace: Trace {
            path: goal.path,
            havoc: Row::from_vec(havoc),
        },
        goal: *goal,
        values: witness.values,
    })
}

// The values of so many functions without arguments, behind these functions.
fn constants(alloc: Global, model: &Structure, functions: u32, count: u32) -> Mem<Vec<u32>>
    requires few { functions + count < 2 ^ 32 }
    requires there { (i : ℕ) → i < count → HasConstant model.now (functions + i) }
    ensures { IfOk result (λ v. (i : ℕ) → i < count → slice_index v.items i ≡ fun_at model.now (functions + i) []) }
{
    let mut values = Vec::with_capacity(alloc, count as usize)?;
    for i in 0..count {
        values.push(model.fun(FunId(functions + i), &[]))?;
    }
    Ok(values)
}
