// Where the bytes of a script come from.

ghost use Rattle.std.specs.Prelude.{◌≡◌, ◌+◌, ℕ, List, length, take, IfOk, OnOk, OnErr};
ghost use Rattle.std.specs.declared.option.Option.{Option};
ghost use Rattle.std.specs.Io.KnownBytes.{Consumes, IsAtEnd};
ghost use Rattle.kl1_lines.specs.Devices.{known_while, failures_of, Gives, KeepsIfKnown};

use crate::failure_counter::{DeviceFailed, FailureCounter, has_failed};
use std::io::Read;

/// What gives bytes, and counts the calls that failed.
pub trait Source {
    // The bytes that reads will give from here on, if they are known.
    ghost remaining: { Self → Option (List ℕ) };

    // How many reads have failed.
    ghost failures: { Self → ℕ };

    /// Reads bytes to the front of a buffer, and answers how many: none only at the end or without room.
    fn read(&mut self, into: &mut [u8]) -> Result<usize, DeviceFailed>
        ensures ok { IfOk result (λ n. Gives (remaining self.old) (remaining self.new) n into.new) }
        ensures kept { OnOk result (failures self.new ≡ failures self.old) }
        ensures failed { OnErr result (failures self.new ≡ failures self.old + 1) }
        ensures same { OnErr result (KeepsIfKnown (remaining self.old) (remaining self.new)) };
}

impl<R: Read> Source for FailureCounter<R> {
    ghost remaining = { known_while R.remaining };

    ghost failures = { failures_of };

    /// Reads once, and again if the call was interrupted.
    fn read(&mut self, into: &mut [u8]) -> Result<usize, DeviceFailed> {
        if self.failures == u64::MAX {
            return Ok(0);
        }
        for _ in 0..u64::MAX {
            match self.inner.read(into) {
                Ok(count) => return Ok(count),
                Err(error) => {
                    if has_failed(error) {
                        break;
                    }
                }
            }
        }
        self.failures += 1;
        Err(DeviceFailed)
    }
}
