// All of what is written.

ghost use Rattle.std.specs.Prelude.{◌≡◌, ◌<◌, length, OnOk, OnErr};
ghost use Rattle.std.specs.Io.KnownBytes.{Appends};
ghost use Rattle.kl1_model.specs.declared.limits.TheConstants.{MOST_WAITING_BYTES};
ghost use Rattle.kl1_lines.specs.Devices.{AppendsFront, PassesOn};

use crate::failure_counter::DeviceFailed;
use crate::sink::Sink;
use kl1_model::limits::MOST_WAITING_BYTES;

/// Writes all these bytes. After a failure, those up to some place are written.
pub fn write_all<S: Sink>(sink: &mut S, bytes: &[u8]) -> Result<(), DeviceFailed>
    ensures ok { OnOk result (Appends (S.contents sink.old) (S.contents sink.new) bytes.now) }
    ensures kept { OnOk result (S.failures sink.new ≡ S.failures sink.old) }
    ensures front { OnErr result (AppendsFront (S.contents sink.old) (S.contents sink.new) bytes.now) }
    ensures failed { OnErr result (S.failures sink.old < S.failures sink.new) }
{
    let mut place = 0;
    while place < bytes.len() {
        place += sink.write(&bytes[place..])?;
    }
    Ok(())
}

/// Writes all these bytes, and sees that they go on their way. After a failure, those up to some place are written.
pub fn finish<S: Sink>(sink: &mut S, bytes: &[u8]) -> Result<(), DeviceFailed>
    ensures ok { OnOk result (Appends (S.contents sink.old) (S.contents sink.new) bytes.now) }
    ensures kept { OnOk result (S.failures sink.new ≡ S.failures sink.old) }
    ensures front { OnErr result (AppendsFront (S.contents sink.old) (S.contents sink.new) bytes.now) }
    ensures failed { OnErr result (S.failures sink.old < S.failures sink.new) }
{
    match write_all(sink, bytes) {
        Ok(()) => sink.flush(),
        Err(failed) => Err(failed),
    }
}

/// Writes the bytes if they are many, and empties them. After a failure, those up to some place are written.
pub fn pass_on<S: Sink>(sink: &mut S, bytes: &mut Vec<u8>) -> Result<(), DeviceFailed>
    ensures ok { OnOk result (PassesOn (S.contents sink.old) (S.contents sink.new) bytes.old.items bytes.new.items) }
    ensures few { OnOk result (length bytes.new.items < MOST_WAITING_BYTES) }
    ensures kept { OnOk result (S.failures sink.new ≡ S.failures sink.old) }
    ensures front { OnErr result (AppendsFront (S.contents sink.old) (S.contents sink.new) bytes.old.items) }
    ensures failed { OnErr result (S.failures sink.old < S.failures sink.new) }
{
    if bytes.len() < MOST_WAITING_BYTES {
        return Ok(());
    }
    match write_all(sink, bytes.as_slice()) {
        Ok(()) => {
            bytes.clear();
            Ok(())
        }
        Err(error) => Err(error),
    }
}
