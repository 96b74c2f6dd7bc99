// Room in lists.

ghost use Rattle.std.specs.Prelude.{◌≡◌, ◌+◌, ◌≤◌, OnOk, IsOk, vec_len, vec_capacity};

use std::alloc::AllocError;

/// Makes room in a list for `more` elements more. It is small enough to be put in place: if there is room, nothing is called.
#[inline]
pub fn make_room<T>(list: &mut Vec<T>, more: usize) -> Result<(), AllocError>
    ensures items { list.new.items ≡ list.old.items }
    ensures len { vec_len list.new ≡ vec_len list.old }
    ensures ok { OnOk result (vec_len list.new + more ≤ vec_capacity list.new) }
    ensures capacity { vec_capacity list.old ≤ vec_capacity list.new }
    ensures succeeds { vec_len list.old + more ≤ vec_capacity list.old → IsOk result }
{
    if more <= list.capacity() - list.len() {
        return Ok(());
    }
    list.reserve(more)
}
