// The literals that are set, in the order in which they were set.
ghost use Rattle.std.specs.Prelude.{◌≡◌, ℕ, false, ◌+◌, ◌-◌, ◌*◌, ◌^◌, ◌<◌, ◌≤◌, [], ◌∷◌, ◌++◌, length, IfOk, OnOk};
ghost use Rattle.std.specs.Prelude.{MatchOption, get_or, take};
ghost use Rattle.cnf_base.specs.Literals.{opposite};
ghost use Rattle.cdcl.specs.Trail.{no_step, is_set};
ghost use Rattle.std.specs.Bool.{OnTrue, OnFalse};
ghost use Rattle.cdcl.specs.Assigned.{IsUnset, HasValue, AreAllSet};

use base::Mem;
use cnf_base::Lit;
use std::alloc::Global;
use std::marker::Model;

/// A literal that was set true, with the id of its reason, or 0 for a decision.
#[derive(Clone, Copy)]
pub struct Step {
    pub literal: Lit,
    pub reason: u32,
}

/// The steps, with a truth value for each literal and a place for each variable.
#[derive(Drop)]
pub struct Trail {
    steps: Vec<Step>,
    values: Vec<bool>,
    places: Vec<u32>,
}

impl Model for Trail {
    ghost use Rattle.cdcl.specs.TrailValue.{TrailValue};

    ghost Value = { TrailValue };

    ghost use Rattle.cdcl.specs.TrailView.{value_of_trail, IsInside};

    ghost view = { value_of_trail };

    ghost invariant = { IsInside };
}

impl Trail {
    pub fn new(alloc: Global, variables: usize) -> Mem<Trail>
        requires { variables ≤ 2 ^ 31 }
        ensures { IfOk result (λ t. (t.steps ≡ []) × (t.size ≡ 2 * variables)) }
    {
        Ok(Trail {
            steps: Vec::new(alloc),
            values: vec![in alloc; false; 2 * variables]?,
            places: vec![in alloc; 0; variables]?,
        })
    }

    pub fn len(&self) -> usize
        ensures len { result ≡ length self.now.steps }
        ensures range { result < 2 ^ 63 }
    {
        self.steps.len()
    }

    pub fn step(&self, place: usize) -> Step
        requires { place < length self.now.steps }
        ensures step { result ≡ get_or self.now.steps place no_step }
        ensures small { (result.literal < self.now.size) × (opposite result.literal < self.now.size) }
    {
        self.steps[place]
    }

    /// Whether a literal is set.
    pub fn is_set(&self, literal: Lit) -> bool
        requires { literal < self.now.size }
        ensures { result ≡ is_set self.now.steps literal }
    {
        self.values[literal.code() as usize]
    }

    /// Whether the variable of a literal was set at a place or later, the last time that it was set.
    pub fn was_set_from(&self, literal: Lit, place: usize) -> bool
        requires { literal < self.now.size }
    {
        self.places[literal.variable() as usize] as usize >= place
    }

    pub fn push(&mut self, literal: Lit, reason: u32) -> Mem<()>
        requires small { literal < self.old.size }
        requires unset { is_set self.old.steps literal ≡ false }
        ensures steps { OnOk result (self.new.steps ≡ self.old.steps ++
            record { literal = literal; reason = reason } ∷ []) }
        ensures size { self.new.size ≡ self.old.size }
    {
        let place = self.steps.len();
        self.steps.push(Step { literal, reason })?;
        self.values[literal.code() as usize] = true;
        self.places[literal.variable() as usize] = u32::try_from(place).unwrap_or(u32::MAX);
        Ok(())
    }

    /// Takes the last step back.
    pub fn pop(&mut self) -> Step
        requires { 0 < length self.old.steps }
        ensures step { result ≡ get_or self.old.steps (length self.old.steps - 1) no_step }
        ensures steps { self.new.steps ≡ take (length self.old.steps - 1) self.old.steps }
        ensures size { self.new.size ≡ self.old.size }
    {
        let last = self.steps.len() - 1;
        let step = self.steps[last];
        self.steps.truncate(last);
        self.values[step.literal.code() as usize] = false;
        step
    }

    pub fn is_unset(&self, variable: u32) -> bool
        ensures unset { OnTrue result (IsUnset self.now variable) }
        ensures set { OnFalse result (0 < variable → 2 * variable + 1 < self.now.size → HasValue self.now variable) }
    {
        let slot = variable as usize;
        if slot == 0 || slot >= self.places.len() {
            return false;
        }
        !self.values[2 * slot] && !self.values[2 * slot + 1]
    }

    /// The unset variable with the smallest number.
    pub fn first_unset(&self) -> Option<u32>
        ensures { MatchOption result (AreAllSet self.now) (IsUnset self.now) }
    {
        let slots = self.places.len() as u32;
        for variable in 1..slots {
            if self.is_unset(variable) {
                return Some(variable);
            }
        }
        None
    }

    /// The greatest variable that has a place, or 0.
    pub fn greatest(&self) -> u32
        ensures { (v : ℕ) → 2 * v < self.now.size → v ≤ result }
    {
        (self.places.len() as u32).saturating_sub(1)
    }

    /// Whether a variable is true; one that has no place is not.
    pub fn value(&self, variable: u32) -> bool
        ensures { 2 * variable < self.now.size → result ≡ is_set self.now.steps (2 * variable) }
    {
        let slot = variable as usize;
        slot < self.places.len() && self.values[2 * slot]
    }
}
