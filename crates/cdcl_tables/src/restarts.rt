// When a search begins again at level 0, with what it has learnt (Luby, Sinclair and Zuckerman, "Optimal Speedup of Las
// Vegas Algorithms", 1993).

const UNIT: u64 = 256;

/// Counts the conflicts up to the next restart.
#[derive(Clone, Copy)]
pub struct Restarts {
    left: u64,
    run: u64,
}

impl Restarts {
    /// Before the first conflict.
    pub fn new() -> Restarts {
        Restarts { left: UNIT, run: 1 }
    }

    /// Counts a conflict, and tells whether a restart is due.
    pub fn is_due(&mut self) -> bool {
        if self.left > 1 {
            self.left -= 1;
            return false;
        }
        self.run = self.run.saturating_add(1);
        self.left = luby(self.run).saturating_mul(UNIT);
        true
    }
}

/// The length of a run: 1, 1, 2, 1, 1, 2, 4, ..
fn luby(run: u64) -> u64 {
    let mut index = run;
    for _ in 0..u64::BITS {
        let power = index
            .saturating_add(1)
            .checked_next_power_of_two()
            .unwrap_or(1);
        if power == index.saturating_add(1) {
            return power / 2;
        }
        index = index.saturating_sub((power / 2).saturating_sub(1));
    }
    1
}
