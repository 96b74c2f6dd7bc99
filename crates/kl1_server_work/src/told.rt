// What the server tells at its end.

ghost use Rattle.std.specs.Prelude.{◌≡◌, ◌++◌, OnOk};
ghost use Rattle.kl1_server_work.specs.Counts.{served_line};

use itoa::Buffer;
use std::alloc::AllocError;

/// Puts the line that tells how many connections were accepted, and how many events and steps were done, after the bytes.
pub fn put_served(
    out: &mut Vec<u8>,
    accepted: u64,
    events: u128,
    steps: u128,
) -> Result<(), AllocError>
    ensures { OnOk result (out.new.items ≡ out.old.items ++ served_line accepted events steps) }
{
    out.extend_from_slice(b"served ")?;
    let mut buffer = Buffer::new();
    out.extend_from_slice(buffer.format(accepted).as_bytes())?;
    out.extend_from_slice(b" events ")?;
    let mut buffer = Buffer::new();
    out.extend_from_slice(buffer.format(events).as_bytes())?;
    out.extend_from_slice(b" steps ")?;
    let mut buffer = Buffer::new();
    out.extend_from_slice(buffer.format(steps).as_bytes())?;
    out.extend_from_slice(b"\n")
}
