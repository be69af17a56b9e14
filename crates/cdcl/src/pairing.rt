// One more clause is watched. (docs/WATCHES.md says why watching two literals is right.)
ghost use Rattle.std.specs.Prelude.{◌≡◌, ◌<◌, length, OnOk};
ghost use Rattle.cdcl.specs.Added.{IsAdded};

use base::Mem;
use cdcl_tables::{Pair, Watch, Watches};

/// The clause at the next place is watched by a pair, or by none where the pair is one literal twice.
pub fn watch(watches: &mut Watches, place: u32, pair: Pair) -> Mem<()>
    requires first { pair.first < length watches.old.lists.items }
    requires second { pair.second < length watches.old.lists.items }
    requires place { place ≡ length watches.old.pairs.items }
    ensures added { OnOk result (IsAdded watches.old watches.new place pair) }
{
    if pair.first != pair.second {
        let first = Watch {
            place,
            blocker: pair.second,
        };
        watches.push(pair.first, first)?;
        let second = Watch {
            place,
            blocker: pair.first,
        };
        watches.push(pair.second, second)?;
    }
    watches.pairs.push(pair)?;
    Ok(())
}
