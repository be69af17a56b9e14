// The limits that the layers that decide share.
ghost use Rattle.std.specs.Prelude.{◌≤◌, ◌<◌};

/// The limits of a decision: the number of ground terms, the size of the ground formula, and the number of clauses that
/// the solver may learn.
#[derive(Clone, Copy)]
pub struct Limits {
    pub terms: u64,
    pub ground_size: u64,
    pub conflicts: u64,
    ghost terms_in_range: { (0 < terms) × (terms ≤ 100000) },
    ghost ground_size_in_range: { (0 < ground_size) × (ground_size ≤ 50000000) },
    ghost conflicts_in_range: { (0 < conflicts) × (conflicts ≤ 100000000) },
}
