// Why something was left open.

/// Why a question was left open: its formula is too large, the counted ground terms or the counted ground size exceed
/// their limit, or the budget of conflicts is spent.
#[derive(Clone, Copy, Debug, PartialEq, Eq)]
pub enum Cause {
    Formula,
    /// The counted number of ground terms.
    Terms(u64),
    /// The counted ground size.
    Ground(u64),
    /// The budget.
    Conflicts(u64),
}
