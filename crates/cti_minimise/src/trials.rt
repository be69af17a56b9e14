// Trials: whether a goal has a counterexample within bounds.
ghost use Rattle.std.specs.Prelude.{◌≡◌, ◌≤◌, true, IfOk};
ghost use Rattle.obligation_decide.specs.Restricted.{IsRestrictedDecision};
ghost use Rattle.obligation_decide.specs.Costs.{IsRestrictedMeasured};
ghost use Rattle.limits.specs.Ceilings.{ceilings};
ghost use Rattle.lean_decide.specs.Sought.{IsSought};
ghost use Rattle.cti_minimise.specs.Bounding.{bounds_by, bounds_on};
ghost use Rattle.cti_minimise.specs.Saying.{said_by};
ghost use Rattle.cti_minimise.specs.Within.{numbers_within, AreBoundsFor};
ghost use Rattle.cti_minimise.specs.Steps.{AreTrials, IsShown, PassWith, AllPassAt, IsAttempt, IsTrial, limits_of};

use crate::bounds::{Bounds, MOST_PAIRED, Saying, bounds_on};
use crate::extents::{extent, is_within};
use crate::laws::{bound_law, saying_law};
use base::Mem;
use fol_sig::{RelId, Signature};
use lean_decide::{Prepared, Sought};
use limits::{Cause, Limits};
use obligation_decide::{Decision, Measured, decide_where};
use rml_command::{Checked, Goal};
use rml_exec::Counterexample;
use std::alloc::Global;

/// What a trial ends with.
#[derive(Drop)]
pub enum Trial {
    /// No counterexample is within the bounds.
    Refuted,
    /// This one is.
    Found(Counterexample),
    /// Whether one is, is left open.
    Open(Cause),
}

/// What a trial ends with that is decided by a lean sentence. No limit is its own.
#[derive(Drop)]
pub enum Attempt {
    /// No counterexample is within the bounds.
    Refuted,
    /// This one is.
    Found(Counterexample),
    Open,
}

/// The trials of a goal under limits. They share what is built of the goal: the bounds of a trial are parts more in the
/// And of its refuting sentence.
#[derive(Clone, Copy)]
pub struct Trials<'a> {
    pub checked: &'a Checked,
    pub goal: &'a Goal,
    pub limits: &'a Limits,
    pub prepared: &'a Prepared,
}

impl<'a> Trials<'a> {
    /// Whether the goal has a counterexample within the bounds. A limit, or a spent budget, is always that of the
    /// refuting sentence with all axioms and with all constants of the bounds: where lean sentences leave the trial
    /// open, that one decides. Where the trial is tried again, those that say the bounds in short left it open.
    pub fn try_bounds(&self, alloc: Global, bounds: &Bounds, again: bool) -> Mem<Trial>
        requires trials { AreTrials self.now }
        requires bounds { AreBoundsFor self.now.checked.now.signature bounds.now }
        ensures { IfOk result (IsTrial self.now bounds.now) }
    {
        match self.try_lean(alloc, bounds, again)? {
            Attempt::Refuted => return Ok(Trial::Refuted),
            Attempt::Found(smaller) => return Ok(Trial::Found(smaller)),
            Attempt::Open => {}
        }
        match self.decide(alloc, bounds)? {
            Decision::Holds(_) => Ok(Trial::Refuted),
            Decision::Fails(smaller) => Ok(Trial::Found(smaller)),
            Decision::Undecided(cause) => Ok(Trial::Open(cause)),
        }
    }

    /// The same by lean sentences that say the bounds in short, where the trial passes no limit by its size and is no
    /// smaller.
    pub fn try_short(&self, alloc: Global, bounds: &Bounds) -> Mem<Attempt>
        requires trials { AreTrials self.now }
        requires bounds { AreBoundsFor self.now.checked.now.signature bounds.now }
        ensures { IfOk result (IsAttempt self.now bounds.now) }
    {
        if !is_short(self.checked.model().signature(), bounds, self.limits) {
            return Ok(Attempt::Open);
        }
        match self.measure(alloc, bounds)? {
            Measured::Within(size) => self.attempt_short(alloc, bounds, size),
            Measured::Over(_) => Ok(Attempt::Open),
        }
    }

    /// Whether the trials of the bounds below this one, from the lowest on, pass no limit by their size either. They
    /// are no larger, so they pass none; that is looked at, and rests on no law.
    pub fn pass_below(&self, alloc: Global, bounds: &Bounds, lowest: u64) -> Mem<bool>
        requires trials { AreTrials self.now }
        requires bounds { AreBoundsFor self.now.checked.now.signature bounds.now }
        ensures { IfOk result (λ pass. pass ≡ true
            → AllPassAt self.now bounds.now.numbers.now bounds.now.place lowest bounds.now.most) }
    {
        for most in lowest..bounds.most {
            let lower = Bounds {
                numbers: bounds.numbers,
                place: bounds.place,
                most,
            };
            match self.measure(alloc, &lower)? {
                Measured::Within(_) => {}
                Measured::Over(_) => return Ok(false),
            }
        }
        Ok(true)
    }

    // By lean sentences, those first that say the bounds in short, unless it is tried again.
    fn try_lean(&self, alloc: Global, bounds: &Bounds, again: bool) -> Mem<Attempt>
        requires trials { AreTrials self.now }
        requires bounds { AreBoundsFor self.now.checked.now.signature bounds.now }
        ensures { IfOk result (IsAttempt self.now bounds.now) }
    {
        let size = match self.measure(alloc, bounds)? {
            Measured::Within(size) => size,
            Measured::Over(_) => return Ok(Attempt::Open),
        };
        if !again && is_short(self.checked.model().signature(), bounds, self.limits) {
            match self.attempt_short(alloc, bounds, size)? {
                Attempt::Open => {}
                decided => return Ok(decided),
            }
        }
        self.attempt_by(alloc, bounds, Saying::Named, size)
    }

    // With the bounds said in short. A trial at a relation is tried without the bounds on those before it at first:
    // what it refutes is refuted, and what it finds mostly keeps to them.
    fn attempt_short(&self, alloc: Global, bounds: &Bounds, size: u64) -> Mem<Attempt>
        requires trials { AreTrials self.now }
        requires bounds { AreBoundsFor self.now.checked.now.signature bounds.now }
        requires size { size ≤ self.now.limits.now.ground_size }
        requires pass { PassWith self.now (numbers_within bounds.now) }
        ensures { IfOk result (IsAttempt self.now bounds.now) }
    {
        if bounds.place > self.checked.model().signature().sorts() as usize {
            match self.attempt_by(alloc, bounds, Saying::Sparse, size)? {
                Attempt::Open => {}
                decided => return Ok(decided),
            }
        }
        self.attempt_by(alloc, bounds, Saying::Short, size)
    }

    // An attempt with the bounds said so, by a lean sentence within this ground size.
    fn attempt_by(&self, alloc: Global, bounds: &Bounds, saying: Saying, size: u64) -> Mem<Attempt>
        requires trials { AreTrials self.now }
        requires bounds { AreBoundsFor self.now.checked.now.signature bounds.now }
        requires size { size ≤ self.now.limits.now.ground_size }
        requires pass { PassWith self.now (numbers_within bounds.now) }
        ensures { IfOk result (IsAttempt self.now bounds.now) }
    {
        bound_law();
        saying_law();
        let narrowed = narrowed(self.limits, size);
        match self.seek(alloc, bounds, saying, &narrowed)? {
            Sought::Nowhere => Ok(Attempt::Refuted),
            Sought::Found(found) => self.kept(alloc, bounds, found),
            Sought::Open => Ok(Attempt::Open),
        }
    }

    // What is found, where it is within the bounds: that is looked at.
    fn kept(&self, alloc: Global, bounds: &Bounds, found: Counterexample) -> Mem<Attempt>
        requires bounds { AreBoundsFor self.now.checked.now.signature bounds.now }
        requires failing { IsShown self.now found }
        requires pass { PassWith self.now (numbers_within bounds.now) }
        ensures { IfOk result (IsAttempt self.now bounds.now) }
    {
        bound_law();
        let numbers = extent(alloc, self.checked.model().signature(), &found.structure)?;
        if is_within(&numbers, bounds) {
            Ok(Attempt::Found(found))
        } else {
            Ok(Attempt::Open)
        }
    }

    // What a trial would cost.
    fn measure(&self, alloc: Global, bounds: &Bounds) -> Mem<Measured>
        requires trials { AreTrials self.now }
        requires bounds { AreBoundsFor self.now.checked.now.signature bounds.now }
        ensures { IfOk result (IsRestrictedMeasured (limits_of self.now) self.now.checked.now
            (bounds_on self.now.checked.now.signature (numbers_within bounds.now)) self.now.goal.now) }
    {
        let signature = self.checked.model().signature();
        let sentences = bounds_on(alloc, signature, bounds, Saying::Named)?;
        let measured = self
            .prepared
            .measure(alloc, self.checked, self.goal, &sentences, self.limits);
        drop(sentences);
        let measured = measured?;
        Ok(measured)
    }

    // Seeks a counterexample with the bounds said so, by a lean sentence.
    fn seek(&self, alloc: Global, bounds: &Bounds, saying: Saying, limits: &Limits) -> Mem<Sought>
        requires trials { AreTrials self.now }
        requires bounds { AreBoundsFor self.now.checked.now.signature bounds.now }
        ensures { IfOk result (IsSought (ceilings limits.now) self.now.checked.now
            (bounds_by (said_by self.now.checked.now.signature saying bounds.now.place) 0 (numbers_within bounds.now))
            self.now.goal.now) }
    {
        let signature = self.checked.model().signature();
        let sentences = bounds_on(alloc, signature, bounds, saying)?;
        let sought = self
            .prepared
            .seek(alloc, self.checked, self.goal, &sentences, limits);
        drop(sentences);
        let sought = sought?;
        Ok(sought)
    }

    // Decides the goal by the whole refuting sentence with the bounds, said by constants.
    fn decide(&self, alloc: Global, bounds: &Bounds) -> Mem<Decision>
        requires trials { AreTrials self.now }
        requires bounds { AreBoundsFor self.now.checked.now.signature bounds.now }
        ensures { IfOk result (IsRestrictedDecision (limits_of self.now) self.now.checked.now
            (bounds_on self.now.checked.now.signature (numbers_within bounds.now)) self.now.goal.now) }
    {
        let signature = self.checked.model().signature();
        let sentences = bounds_on(alloc, signature, bounds, Saying::Named)?;
        let decision = decide_where(alloc, self.checked, self.goal, &sentences, self.limits);
        drop(sentences);
        let decision = decision?;
        Ok(decision)
    }
}

// Whether the bound is on few things: a sentence that names more elements of tuples than terms are allowed passes their
// limit, and for more elements of a sort there is no shorter one.
fn is_short(signature: &Signature, bounds: &Bounds, limits: &Limits) -> bool
    requires { AreBoundsFor signature.now bounds.now }
{
    let place = bounds.place;
    let sorts = signature.sorts() as usize;
    if place < sorts {
        bounds.most <= MOST_PAIRED as u64
    } else {
        let arguments = signature.sorts_of(RelId((place - sorts) as u32)).len() as u64;
        bounds.most.saturating_mul(arguments) <= limits.terms
    }
}

// The limits, with a ground size that is no limit's own.
fn narrowed(limits: &Limits, size: u64) -> Limits
    requires { size ≤ limits.now.ground_size }
    ensures { result.terms ≡ limits.now.terms }
{
    Limits {
        terms: limits.terms,
        ground_size: size.max(1),
        conflicts: limits.conflicts,
    }
}
