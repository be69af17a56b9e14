//! The tables of a solver with two watched literals, below its search: the clauses, which of them watch a literal,
//! what guides decisions and restarts, and the lines of a log that is kept. What holds between them is said by the
//! search; here a call says which entry it writes, and that all others stay.
#![tactic(auto)]

mod clauses;
mod extent;
mod kept;
mod levels;
mod order;
mod phases;
mod restarts;
mod watches;

pub use clauses::Clauses;
pub use extent::greatest_variable;
pub use kept::Kept;
pub use levels::pop_starts;
pub use order::Order;
pub use phases::Phases;
pub use restarts::Restarts;
pub use watches::{Pair, Watch, WatchList, Watches, other_of};
