// How many nodes there are, and how deep the deepest lies.
ghost use Rattle.std.specs.Prelude.{◌≡◌};
ghost use Rattle.fol_subst.specs.Extents.{beside, over, under, put_in, is_over, extent};

/// How many nodes a formula may have.
pub const MOST_NODES: u64 = 1_000_000;

/// How deep a formula may be.
pub const MOST_DEPTH: u64 = 1000;

// Above both limits: there the counts stop.
const CAP: u64 = MOST_NODES + 1;

/// How many nodes there are, and how deep the deepest lies: of a formula or term, or of the places of an index in it.
#[derive(Clone, Copy)]
pub struct Extent {
    /// How many there are.
    pub count: u64,
    /// How deep the deepest lies, or 0 where there is none.
    pub depth: u64,
}

impl Extent {
    /// No node.
    pub const NONE: Extent = Extent { count: 0, depth: 0 };

    /// One node.
    pub const ONE: Extent = Extent { count: 1, depth: 1 };

    /// So many, so deep. Counts stop at 1,000,001.
    pub fn new(count: u64, depth: u64) -> Extent
        ensures { result ≡ extent count depth }
    {
        Extent {
            count: count.min(CAP),
            depth: depth.min(CAP),
        }
    }

    /// Both, beside one another.
    pub fn beside(self, other: Extent) -> Extent
        ensures { result ≡ beside self other }
    {
        Extent {
            count: self.count.saturating_add(other.count).min(CAP),
            depth: self.depth.max(other.depth),
        }
    }

    /// With one node above.
    pub fn over(self) -> Extent
        ensures { result ≡ over self }
    {
        Extent {
            count: self.count.saturating_add(1).min(CAP),
            depth: self.depth.saturating_add(1).min(CAP),
        }
    }

    /// One level further down, where there is any.
    pub fn under(self) -> Extent
        ensures { result ≡ under self }
    {
        let depth = if self.depth == 0 {
            0
        } else {
            self.depth.saturating_add(1).min(CAP)
        };
        Extent {
            count: self.count,
            depth,
        }
    }

    /// Where these places of it hold a part each.
    pub fn put_in(self, places: Extent, part: Extent) -> Extent
        ensures { result ≡ put_in self places part }
    {
        let more = places.count.saturating_mul(part.count.saturating_sub(1));
        let deepest = places.depth.saturating_add(part.depth).saturating_sub(1);
        Extent {
            count: self.count.saturating_add(more).min(CAP),
            depth: if places.depth == 0 {
                self.depth
            } else {
                self.depth.max(deepest.min(CAP))
            },
        }
    }

    /// Whether it is above the limits of a formula's size.
    pub fn is_over(self) -> bool
        ensures { result ≡ is_over self }
    {
        self.count > MOST_NODES || self.depth > MOST_DEPTH
    }
}
