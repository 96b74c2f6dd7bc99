// Numbers that are given out in order.

ghost use Rattle.std.specs.Prelude.{◌≡◌, ◌+◌, IfOk};

use std::alloc::AllocError;

/// The number that is `more` after `last`. Numbers that run out are refused as for want of memory.
pub fn last_of(last: u64, more: usize) -> Result<u64, AllocError>
    ensures { IfOk result (λ number. number ≡ last + more) }
{
    last.checked_add(more as u64).ok_or(AllocError)
}
