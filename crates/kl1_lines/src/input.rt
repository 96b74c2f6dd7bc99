// The whole input.

ghost use Rattle.std.specs.Prelude.{◌≡◌, ◌+◌, ◌<◌, ◌≤◌, ℕ, List, length, IfOk, IsErrOf};
ghost use Rattle.std.specs.Io.KnownBytes.{Consumes, IsAtEnd};
ghost use Rattle.kl1_model.specs.declared.limits.TheConstants.{MOST_SCRIPT_BYTES};
ghost use Rattle.kl1_lines.specs.Devices.{AddsPiece, IsWhole, ReadsFew};
ghost use Rattle.kl1_lines.specs.declared.script_fault.ScriptFault.TheVariants as faults;

use crate::script_fault::ScriptFault;
use crate::source::Source;
use kl1_model::limits::MOST_SCRIPT_BYTES;
use std::alloc::Global;

/// The most bytes of one read.
const PIECE: usize = 16_384;

/// Reads once, at most `most` bytes, and puts them after the others. Answers how many.
fn read_piece<S: Source>(
    source: &mut S,
    bytes: &mut Vec<u8>,
    most: usize,
) -> Result<usize, ScriptFault>
    requires { 0 < most }
    ensures ok { IfOk result (λ n. AddsPiece (S.remaining source.old) (S.remaining source.new) bytes.old.items bytes.new.items n) }
    ensures most { IfOk result (λ n. n ≤ most) }
    ensures read { IsErrOf result faults.Read → S.failures source.old < S.failures source.new }
    ensures not_read { (IsErrOf result faults.Read → ⊥) → S.failures source.new ≡ S.failures source.old }
    ensures few { ReadsFew (S.remaining source.old) (S.remaining source.new) most }
    ensures not_long { IsErrOf result faults.TooLong → ⊥ }
    ensures not_write { IsErrOf result faults.Write → ⊥ }
{
    let mut piece = [0u8; PIECE];
    let size = most.min(PIECE);
    match source.read(&mut piece[..size]) {
        Ok(count) => match bytes.extend_from_slice(&piece[..count]) {
            Ok(()) => Ok(count),
            Err(_) => Err(ScriptFault::Memory),
        },
        Err(_) => Err(ScriptFault::Read),
    }
}

/// Reads all there is, if a script may have that many bytes. No byte after the first one too many is read.
pub fn read_all<S: Source>(alloc: Global, source: &mut S) -> Result<Vec<u8>, ScriptFault>
    ensures ok { IfOk result (λ bytes. IsWhole (S.remaining source.old) (S.remaining source.new) bytes.items) }
    ensures small { IfOk result (λ bytes. length bytes.items ≤ MOST_SCRIPT_BYTES) }
    ensures read { IsErrOf result faults.Read → S.failures source.old < S.failures source.new }
    ensures not_read { (IsErrOf result faults.Read → ⊥) → S.failures source.new ≡ S.failures source.old }
    ensures too_long { IsErrOf result faults.TooLong → (bytes : List ℕ) × (length bytes ≡ MOST_SCRIPT_BYTES + 1) × Consumes (S.remaining source.old) (S.remaining source.new) bytes }
    ensures few { ReadsFew (S.remaining source.old) (S.remaining source.new) (MOST_SCRIPT_BYTES + 1) }
    ensures not_write { IsErrOf result faults.Write → ⊥ }
{
    let mut bytes = Vec::new(alloc);
    while bytes.len() <= MOST_SCRIPT_BYTES {
        let room = MOST_SCRIPT_BYTES + 1 - bytes.len();
        if read_piece(source, &mut bytes, room)? == 0 {
            return Ok(bytes);
        }
    }
    Err(ScriptFault::TooLong)
}
