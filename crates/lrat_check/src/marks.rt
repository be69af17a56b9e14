// A mark for each span. Those that are the epoch count, so a later epoch takes all marks off at once.
ghost use Rattle.std.specs.Prelude.{◌≡◌, ℕ, false, get_or};
ghost use Rattle.lrat_check.specs.Spans.{marked, AreUpTo};

fn clear(marks: &mut [u32])
    ensures { (k : ℕ) → get_or marks.new k 0 ≡ 0 }
{
    for mark in marks.iter_mut() {
        *mark = 0;
    }
}

/// An epoch at which nothing is marked.
pub fn next_epoch(marks: &mut [u32], epoch: u32) -> u32
    requires { AreUpTo epoch marks.old }
    ensures past { AreUpTo result marks.new }
    ensures fresh { (x : ℕ) → marked marks.new result x ≡ false }
{
    if epoch == u32::MAX {
        clear(marks);
        return 1;
    }
    epoch + 1
}
