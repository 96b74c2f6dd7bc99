// Fronts of bytes, and bytes that are kept.

ghost use Rattle.std.specs.Prelude.{◌≡◌, ◌++◌, ◌≤◌, length, take, OnOk, OnErr};

use std::alloc::AllocError;

/// The first `most` bytes, or all if there are fewer.
pub(crate) fn front(bytes: &[u8], most: usize) -> &[u8]
    ensures { result.now ≡ take most bytes.now }
{
    if bytes.len() <= most {
        bytes
    } else {
        &bytes[..most]
    }
}

/// Puts `bytes` after `kept`, as far as no more than `most` are kept then.
#[tactic(auto, using(crate::proofs::Kept::kept_front))]
pub(crate) fn keep(kept: &mut Vec<u8>, most: usize, bytes: &[u8]) -> Result<(), AllocError>
    requires { length kept.old.items ≤ most }
    ensures ok { OnOk result (kept.new.items ≡ take most (kept.old.items ++ bytes.now)) }
    ensures err { OnErr result (kept.new.items ≡ kept.old.items) }
{
    let room = most - kept.len();
    kept.extend_from_slice(front(bytes, room))
}
