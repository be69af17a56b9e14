//! Least counterexamples: their sizes, the sorts taken in order of declaration, and then the numbers of their true
//! tuples, the relations taken in order of declaration, are lexicographically least among all counterexamples of the
//! goal, or the search for smaller ones stopped at a limit.
//!
//! A trial decides the goal's refuting sentence with bounds in its And: the sorts before have at most their sizes, and
//! the sort at most so many elements; or all sorts have at most their sizes, the relations before at most their numbers
//! of true tuples, and the relation at most so many. The bounds below the number at hand are to be tried from the least
//! on, and a limit is that of the trial whose bounds are said by constants. But a bound on a sort can be said without
//! constants: of one more elements two are equal. And what a trial without the bounds on earlier relations refutes is
//! refuted, while what it finds mostly keeps to them. Where that is no larger it is tried first, since the ground terms
//! stay few; and since it is mostly decided, the bound just below the number comes first, which refutes all below it at
//! once.
#![tactic(auto)]

mod bounds;
mod extents;
mod laws;
mod minimising;
mod trials;
mod tuple_bounds;

pub use laws::bound_law;
pub use minimising::least;
