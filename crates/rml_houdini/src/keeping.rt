// What suffices for a goal is found by its counterexamples: where a structure satisfies all that is assumed, something
// that it breaks is assumed too, until no structure is left (counterexample-guided refinement; Clarke, Grumberg, Jha,
// Lu and Veith, JACM 2003). So most goals are decided with few conjectures, and none again while these are held.
ghost use Rattle.std.specs.Prelude.{◌≡◌, ◌<◌, length, true, All, IfOk, OnOk, IfSome};
ghost use Rattle.fol_sig.specs.Symbols.{FitsStructure, symbols};
ghost use Rattle.rml_command.specs.Goals.{IsGoal};
ghost use Rattle.rml_wp.specs.declared.premises.Premises.TheVariants.{Affected};
ghost use Rattle.rml_wp.specs.Preconditions.{answered as answered_of, goal_precondition};
ghost use Rattle.rml_command.specs.InductiveSets.{conjectures_of, Has, IsWithin};
ghost use Rattle.limits.specs.Ceilings.{ceilings};
ghost use Rattle.rml_houdini.specs.Keeping.{Grows, IsTurn, AreHeldBefore};
ghost use Rattle.obligation_decide.specs.GoalDecisions.{IsFailing};

use crate::assumed::{Assumed, sentences_of};
use crate::trying::{Tried, try_with};
use base::{Mem, Refused};
use fol_eval::{Env, holds, satisfies};
use fol_formula::{Ae, Formula, Sentence};
use fol_sig::{Signature, Structure};
use limits::Limits;
use rml_command::{Checked, Goal, Stage};
use rml_exec::Counterexample;
use rml_wp::{Premises, precondition};
use std::alloc::{AllocError, Global};

/// What a turn ends with.
#[derive(Drop)]
pub enum Turn {
    /// The goal has no counterexample where this is assumed.
    Holds,
    /// It has this one where all of these are held.
    Fails(Counterexample),
    /// More is assumed.
    Again,
    /// A limit is passed.
    Open,
}

/// Whether a goal holds by some of the held conjectures, which are found beginning with what is assumed, or fails where
/// all are held. Where a limit is passed on the way, nothing is said.
pub fn keep(
    alloc: Global,
    checked: &Checked,
    goal: &Goal,
    held: &[u32],
    assumed: &mut Assumed,
    limits: &Limits,
) -> Mem<Turn>
    requires goal { IsGoal checked.now goal.now }
    requires held { All (λ k. k < length checked.now.conjectures) held.now }
    requires within { IsWithin assumed.old.held.items held.now }
    ensures grows { OnOk result (Grows held.now assumed.old.held.items assumed.new.held.items) }
    ensures turn { IfOk result (IsTurn (ceilings limits.now) checked.now held.now goal.now assumed.new) }
{
    match precondition(alloc, checked, Premises::Affected, goal) {
        Ok((answered, precondition)) => {
            let turn = keep_from(
                alloc,
                checked,
                goal,
                &answered,
                &precondition,
                held,
                assumed,
                limits,
            );
            drop(answered);
            drop(precondition);
            turn
        }
        Err(Refused::NoMemory) => Err(AllocError),
        Err(Refused::For(_)) => Ok(Turn::Open),
    }
}

// The same, given the goal's precondition. Each turn but the last assumes one thing more.
fn keep_from(
    alloc: Global,
    checked: &Checked,
    goal: &Goal,
    answered: &Signature,
    precondition: &Ae,
    held: &[u32],
    assumed: &mut Assumed,
    limits: &Limits,
) -> Mem<Turn>
    requires goal { IsGoal checked.now goal.now }
    requires answered { answered.now ≡ answered_of checked.now goal.now }
    requires precondition { precondition.now ≡ goal_precondition Affected checked.now goal.now }
    requires held { All (λ k. k < length checked.now.conjectures) held.now }
    requires within { IsWithin assumed.old.held.items held.now }
    ensures grows { OnOk result (Grows held.now assumed.old.held.items assumed.new.held.items) }
    ensures turn { IfOk result (IsTurn (ceilings limits.now) checked.now held.now goal.now assumed.new) }
{
    for _ in 0..held.len() + 2 {
        match take_turn(
            alloc,
            checked,
            goal,
            answered,
            precondition,
            held,
            assumed,
            limits,
        )? {
            Turn::Again => {}
            last => return Ok(last),
        }
    }
    Ok(Turn::Open)
}

// One try, and what it shows to be needed.
fn take_turn(
    alloc: Global,
    checked: &Checked,
    goal: &Goal,
    answered: &Signature,
    precondition: &Ae,
    held: &[u32],
    assumed: &mut Assumed,
    limits: &Limits,
) -> Mem<Turn>
    requires goal { IsGoal checked.now goal.now }
    requires answered { answered.now ≡ answered_of checked.now goal.now }
    requires precondition { precondition.now ≡ goal_precondition Affected checked.now goal.now }
    requires held { All (λ k. k < length checked.now.conjectures) held.now }
    requires within { IsWithin assumed.old.held.items held.now }
    ensures grows { OnOk result (Grows held.now assumed.old.held.items assumed.new.held.items) }
    ensures turn { IfOk result (IsTurn (ceilings limits.now) checked.now held.now goal.now assumed.new) }
{
    match try_with(
        alloc,
        checked,
        goal,
        answered,
        precondition,
        assumed,
        limits,
    )? {
        Tried::Holds => Ok(Turn::Holds),
        Tried::Over(_) | Tried::ManyConstants => Ok(Turn::Open),
        Tried::Met(structure) => {
            let more = assume_broken(checked, goal.stage, held, &structure, assumed);
            drop(structure);
            more?;
            Ok(Turn::Again)
        }
        Tried::Breaks(shown) => judge(alloc, checked, goal, held, shown, assumed, limits),
    }
}

// Assumes a held conjecture that a structure breaks; or the axioms, where it breaks them or nothing else.
fn assume_broken(
    checked: &Checked,
    stage: Stage,
    held: &[u32],
    structure: &Structure,
    assumed: &mut Assumed,
) -> Mem<()>
    requires structure { FitsStructure (symbols checked.now.signature) structure.now }
    requires held { All (λ k. k < length checked.now.conjectures) held.now }
    ensures { OnOk result (Grows held.now assumed.old.held.items assumed.new.held.items) }
{
    if satisfies(structure, checked.model().axioms()) {
        if let Some(conjecture) = broken_before(checked, stage, held, structure) {
            assumed.held.push(conjecture)?;
            return Ok(());
        }
    }
    assumed.lawful = true;
    Ok(())
}

// Assumes a held conjecture that a counterexample breaks; where it breaks none, it is one where all are held.
fn judge(
    alloc: Global,
    checked: &Checked,
    goal: &Goal,
    held: &[u32],
    shown: Counterexample,
    assumed: &mut Assumed,
    limits: &Limits,
) -> Mem<Turn>
    requires held { All (λ k. k < length checked.now.conjectures) held.now }
    requires fails { IsFailing (ceilings limits.now) checked.now
        (conjectures_of checked.now assumed.old.held.items) goal.now shown }
    ensures grows { OnOk result (Grows held.now assumed.old.held.items assumed.new.held.items) }
    ensures turn { IfOk result (IsTurn (ceilings limits.now) checked.now held.now goal.now assumed.new) }
{
    match broken_before(checked, goal.stage, held, &shown.structure) {
        Some(conjecture) => {
            drop(shown);
            assumed.held.push(conjecture)?;
            Ok(Turn::Again)
        }
        None => match are_held_before(alloc, checked, goal.stage, held, &shown.structure) {
            Ok(true) => Ok(Turn::Fails(shown)),
            Ok(false) => {
                drop(shown);
                Ok(Turn::Open)
            }
            Err(wanting) => {
                drop(shown);
                Err(wanting)
            }
        },
    }
}

// Whether all held conjectures are true, which before init need not be.
fn are_held_before(
    alloc: Global,
    checked: &Checked,
    stage: Stage,
    held: &[u32],
    structure: &Structure,
) -> Mem<bool>
    requires structure { FitsStructure (symbols checked.now.signature) structure.now }
    requires held { All (λ k. k < length checked.now.conjectures) held.now }
    ensures { IfOk result (λ yes. yes ≡ true → AreHeldBefore checked.now stage held.now structure.now) }
{
    rml_wp::sentence_law();
    match stage {
        Stage::Init => Ok(true),
        _ => {
            let chosen = sentences_of(alloc, checked.model().conjectures(), held)?;
            Ok(satisfies(structure, &chosen))
        }
    }
}

// A held conjecture that the structure breaks; before init none is needed. What is found guides the search, and is
// looked at again.
fn broken_before(
    checked: &Checked,
    stage: Stage,
    held: &[u32],
    structure: &Structure,
) -> Option<u32>
    requires structure { FitsStructure (symbols checked.now.signature) structure.now }
    requires held { All (λ k. k < length checked.now.conjectures) held.now }
    ensures { IfSome result (λ k. Has held.now k) }
{
    match stage {
        Stage::Init => None,
        _ => first_broken(checked, held, structure),
    }
}

// A held conjecture that the structure breaks. One with fewer variables comes first: it has fewer instances.
fn first_broken(checked: &Checked, held: &[u32], structure: &Structure) -> Option<u32>
    requires structure { FitsStructure (symbols checked.now.signature) structure.now }
    requires held { All (λ k. k < length checked.now.conjectures) held.now }
    ensures { IfSome result (λ k. Has held.now k) }
{
    for variables in 0..most_variables(checked, held) {
        if let Some(conjecture) = broken_with(checked, held, structure, variables) {
            return Some(conjecture);
        }
    }
    None
}

// The first that has so many variables.
fn broken_with(
    checked: &Checked,
    held: &[u32],
    structure: &Structure,
    variables: u32,
) -> Option<u32>
    requires structure { FitsStructure (symbols checked.now.signature) structure.now }
    requires held { All (λ k. k < length checked.now.conjectures) held.now }
    ensures { IfSome result (λ k. Has held.now k) }
{
    let conjectures = checked.model().conjectures();
    for conjecture in held {
        let formula = conjectures[*conjecture as usize].formula();
        if variables_of(formula) == variables && !holds(structure, formula, &Env::Empty) {
            return Some(*conjecture);
        }
    }
    None
}

// More than any of them has.
fn most_variables(checked: &Checked, held: &[u32]) -> u32
    requires { All (λ k. k < length checked.now.conjectures) held.now }
{
    let conjectures = checked.model().conjectures();
    let mut most = 0;
    for conjecture in held {
        let variables = variables_of(conjectures[*conjecture as usize].formula()).saturating_add(1);
        if variables > most {
            most = variables;
        }
    }
    most
}

fn variables_of(formula: &Formula) -> u32 {
    match formula {
        Formula::Forall(_, body) => variables_of(body).saturating_add(1),
        _ => 0,
    }
}
