// How a call can give no answer.
ghost use Rattle.std.specs.Prelude.{◌≡◌};
ghost use Rattle.base.specs.declared.refused.Refused.TheVariants.{NoMemory};

use std::alloc::{AllocError, AllocFailed};

/// The answer of a call that fails for want of memory alone.
pub type Mem<T> = Result<T, AllocError>;

/// Why a call gave no answer: for a cause of its own, or for want of memory. Want of memory may come
/// in place of any other answer.
#[derive(Clone, Copy, Debug, PartialEq, Eq)]
pub enum Refused<E> {
    For(E),
    NoMemory,
}

impl<E> From<AllocError> for Refused<E> {
    ghost from_gives = { λ _ e. e ≡ NoMemory };

    fn from(_: AllocError) -> Self {
        Refused::NoMemory
    }
}

impl<E, T: Drop> From<AllocFailed<T>> for Refused<E> {
    ghost from_gives = { λ _ e. e ≡ NoMemory };

    fn from(_: AllocFailed<T>) -> Self {
        Refused::NoMemory
    }
}
