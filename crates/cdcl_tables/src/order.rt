// Which variable is decided next.
use base::Mem;
use cnf_base::Lit;
use std::alloc::Global;

const ABSENT: u32 = u32::MAX;

const FIRST_STEP: u64 = 1 << 10;

const LIMIT: u64 = 1 << 60;

/// The variables in a binary heap by their activity, a whole number that grows with each conflict whose analysis meets
/// the variable, and once more where the learnt clause has it. An order carries no facts: a variable that it offers is
/// looked up on the trail.
#[derive(Drop)]
pub struct Order {
    heap: Vec<u32>,
    places: Vec<u32>,
    activities: Vec<u64>,
    step: u64,
}

impl Order {
    /// An order of no variables.
    pub fn none(alloc: Global) -> Order {
        Order {
            heap: Vec::new(alloc),
            places: Vec::new(alloc),
            activities: Vec::new(alloc),
            step: FIRST_STEP,
        }
    }

    /// Variables are numbered from 1 to below `slots`.
    pub fn new(alloc: Global, slots: u32) -> Mem<Order> {
        let mut order = Order {
            heap: Vec::with_capacity(alloc, slots as usize)?,
            places: vec![in alloc; ABSENT; slots as usize]?,
            activities: vec![in alloc; 0; slots as usize]?,
            step: FIRST_STEP,
        };
        for variable in 1..slots {
            order.put_back(variable)?;
        }
        Ok(order)
    }

    fn activity_of(&self, variable: u32) -> u64 {
        let Some(activity) = self.activities.get(variable as usize) else {
            return 0;
        };
        *activity
    }

    fn place_of(&self, variable: u32) -> u32 {
        let Some(place) = self.places.get(variable as usize) else {
            return ABSENT;
        };
        *place
    }

    fn set_place(&mut self, variable: u32, place: u32) {
        if (variable as usize) < self.places.len() {
            self.places[variable as usize] = place;
        }
    }

    fn seat(&mut self, variable: u32, place: usize) {
        if place < self.heap.len() {
            self.heap[place] = variable;
            self.set_place(variable, u32::try_from(place).unwrap_or(ABSENT));
        }
    }

    /// Moves a variable up from its place: those above it that are less active come down.
    fn rise(&mut self, variable: u32, from: usize) {
        let activity = self.activity_of(variable);
        let mut place = from;
        for _ in 0..u64::BITS {
            if place == 0 || place >= self.heap.len() {
                break;
            }
            let parent = (place - 1) / 2;
            let above = self.heap[parent];
            if activity <= self.activity_of(above) {
                break;
            }
            self.seat(above, place);
            place = parent;
        }
        self.seat(variable, place);
    }

    /// The more active of the two variables below a place, with its place.
    fn greater_child(&self, place: usize) -> Option<(u32, usize)> {
        let left = place.saturating_mul(2).saturating_add(1);
        let right = left.saturating_add(1);
        let first = *self.heap.get(left)?;
        let Some(second) = self.heap.get(right) else {
            return Some((first, left));
        };
        if self.activity_of(*second) > self.activity_of(first) {
            Some((*second, right))
        } else {
            Some((first, left))
        }
    }

    /// Moves a variable down from the top: those below it that are more active come up.
    fn sink(&mut self, variable: u32) {
        let activity = self.activity_of(variable);
        let mut place = 0usize;
        for _ in 0..u64::BITS {
            let Some((below, child)) = self.greater_child(place) else {
                break;
            };
            if self.activity_of(below) <= activity {
                break;
            }
            self.seat(below, place);
            place = child;
        }
        self.seat(variable, place);
    }

    /// How many variables may still be taken out.
    pub fn len(&self) -> usize {
        self.heap.len()
    }

    /// Takes out the most active variable.
    pub fn pop(&mut self) -> Option<u32> {
        let last = self.heap.pop()?;
        let Some(top) = self.heap.first() else {
            self.set_place(last, ABSENT);
            return Some(last);
        };
        let top = *top;
        self.set_place(top, ABSENT);
        self.sink(last);
        Some(top)
    }

    /// A variable is unset again.
    pub fn put_back(&mut self, variable: u32) -> Mem<()> {
        if self.place_of(variable) != ABSENT {
            return Ok(());
        }
        let place = self.heap.len();
        self.heap.push(variable)?;
        self.rise(variable, place);
        Ok(())
    }

    /// A variable took part in a conflict.
    pub fn bump(&mut self, variable: u32) {
        let slot = variable as usize;
        if slot >= self.activities.len() {
            return;
        }
        let activity = self.activities[slot].saturating_add(self.step);
        self.activities[slot] = activity;
        if activity > LIMIT {
            self.rescale();
        }
        let place = self.place_of(variable);
        if place != ABSENT {
            self.rise(variable, place as usize);
        }
    }

    fn rescale(&mut self) {
        for activity in self.activities.iter_mut() {
            *activity >>= 40;
        }
        self.step = (self.step >> 40).max(1);
    }

    /// The variables of a learnt clause count once more, and from now on later conflicts count more.
    pub fn bump_all(&mut self, literals: &[Lit]) {
        for literal in literals {
            self.bump(literal.variable());
        }
        self.decay();
    }

    /// Behind each conflict the earlier ones count 0.95 of what they did.
    fn decay(&mut self) {
        self.step = self.step.saturating_add(self.step / 19).saturating_add(1);
        if self.step > LIMIT {
            self.rescale();
        }
    }
}
