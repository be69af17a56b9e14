// A place in a list, in four bytes: tables of places take half the memory that a `usize` would.
ghost use Rattle.std.specs.Prelude.{◌≡◌, ◌+◌, ◌<◌, ◌^◌, IfOk};

use crate::Mem;
use std::alloc::AllocError;

/// The place behind so many elements, where the one behind it has four bytes too. A list of 2^32 - 1 elements or more
/// is taken for want of memory.
pub fn place_of(len: usize) -> Mem<u32>
    ensures place { IfOk result (λ place. place ≡ len) }
    ensures small { IfOk result (λ place. place + 1 < 2 ^ 32) }
{
    if len >= u32::MAX as usize {
        return Err(AllocError);
    }
    Ok(len as u32)
}
