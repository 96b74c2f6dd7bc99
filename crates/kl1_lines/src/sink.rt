// Where what is written goes.

ghost use Rattle.std.specs.Prelude.{◌≡◌, ◌+◌, ℕ, List, length, take, IfOk, OnOk, OnErr};
ghost use Rattle.std.specs.declared.option.Option.{Option};
ghost use Rattle.std.specs.Io.KnownBytes.{Appends, Keeps};
ghost use Rattle.kl1_lines.specs.Devices.{known_while, failures_of, Takes, KeepsIfKnown};

use crate::failure_counter::{DeviceFailed, FailureCounter, has_failed};
use std::io::Write;

/// What takes bytes, and counts the calls that failed.
pub trait Sink {
    // The bytes that it holds, if they are known.
    ghost contents: { Self → Option (List ℕ) };

    // How many calls have failed.
    ghost failures: { Self → ℕ };

    /// Writes bytes from the front of these, and answers how many: at least one, if there is one.
    fn write(&mut self, bytes: &[u8]) -> Result<usize, DeviceFailed>
        ensures ok { IfOk result (λ n. Takes (contents self.old) (contents self.new) n bytes.now) }
        ensures kept { OnOk result (failures self.new ≡ failures self.old) }
        ensures failed { OnErr result (failures self.new ≡ failures self.old + 1) }
        ensures same { OnErr result (KeepsIfKnown (contents self.old) (contents self.new)) };

    /// Sees that what was written goes on its way.
    fn flush(&mut self) -> Result<(), DeviceFailed>
        ensures ok { OnOk result (Keeps (contents self.old) (contents self.new)) }
        ensures kept { OnOk result (failures self.new ≡ failures self.old) }
        ensures failed { OnErr result (failures self.new ≡ failures self.old + 1) }
        ensures same { OnErr result (KeepsIfKnown (contents self.old) (contents self.new)) };
}

impl<W: Write> Sink for FailureCounter<W> {
    ghost contents = { known_while W.contents };

    ghost failures = { failures_of };

    /// Writes once, and again if the call was interrupted. To take no byte is a failure.
    fn write(&mut self, bytes: &[u8]) -> Result<usize, DeviceFailed> {
        if self.failures == u64::MAX {
            return Ok(bytes.len());
        }
        for _ in 0..u64::MAX {
            match self.inner.write(bytes) {
                Ok(count) => {
                    if count == 0 && !bytes.is_empty() {
                        break;
                    }
                    return Ok(count);
                }
                Err(error) => {
                    if has_failed(error) {
                        break;
                    }
                }
            }
        }
        self.failures += 1;
        Err(DeviceFailed)
    }

    fn flush(&mut self) -> Result<(), DeviceFailed> {
        if self.failures == u64::MAX {
            return Ok(());
        }
        match self.inner.flush() {
            Ok(()) => Ok(()),
            Err(_) => {
                self.failures += 1;
                Err(DeviceFailed)
            }
        }
    }
}
