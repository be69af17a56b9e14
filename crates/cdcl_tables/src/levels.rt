// Where levels begin. A level has no number: it is the place of the trail at which it begins, its start.
ghost use Rattle.std.specs.Prelude.{◌≡◌, ℕ, ◌-◌, ◌<◌, ◌≤◌, length, get_or, take};
ghost use Rattle.cdcl_tables.specs.Levels.{AreRising};

/// Takes off the starts that are not before a place, at least one; the answer is the lowest of them.
pub fn pop_starts(starts: &mut Vec<usize>, second: usize) -> usize
    requires some { 0 < length starts.old.items }
    requires last { second ≤ get_or starts.old.items (length starts.old.items - 1) 0 }
    requires rising { AreRising starts.old.items }
    ensures fewer { length starts.new.items < length starts.old.items }
    ensures starts { starts.new.items ≡ take (length starts.new.items) starts.old.items }
    ensures to { result ≡ get_or starts.old.items (length starts.new.items) 0 }
    ensures above { second ≤ result }
    ensures before { (i : ℕ) → i < length starts.new.items → get_or starts.old.items i 0 < second }
{
    let mut level = starts.len() - 1;
    while level > 0 && starts[level - 1] >= second {
        level -= 1;
    }
    let to = starts[level];
    starts.truncate(level);
    to
}
