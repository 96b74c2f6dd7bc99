// What is written to a file, and is on disk then.

ghost use Rattle.std.specs.Prelude.{◌≡◌, ◌++◌, [], IfOk, IfErr, OnOk, IsTrue, option_map, is_ok};
ghost use Rattle.kl1_sums.specs.Sums.{summed_text, last_sum};
ghost use Rattle.kl1_sums.specs.SumValues.{digits_of};
ghost use Rattle.kl1_log.specs.Files.{AtAnyMoment, is_at_rest};
ghost use Rattle.kl1_log.specs.Batches.{text_after, text_of, IsLeftOfKnown, IsAppendedInPart, IsSummedInPart, IsOldOrNew};
ghost use Rattle.kl1_log.specs.LastSums.{IsLastOf, is_last_sum, IsUnmade};

use crate::change::Change;
use crate::disk::Disk;
use crate::log_error::LogError;
use crate::recovery::count_whole;
use kl1_sums::{Sum, last_sum, with_sums};
use std::alloc::Global;
use std::io;

/// Puts bytes after those of a file that is at rest, and has them on disk.
#[tactic(auto, using(crate::proofs::Moments::append_failed, crate::proofs::Moments::sync_failed, crate::proofs::Moments::appended_moments, crate::proofs::Moments::appended_rests))]
fn append<D: Disk>(disk: &mut D, bytes: &[u8]) -> io::Result<()>
    requires usable { IsTrue (D.is_usable disk.old) }
    requires at_rest { IsTrue (is_at_rest (D.known disk.old)) }
    ensures at_rest { OnOk result (IsTrue (is_at_rest (D.known disk.new))) }
    ensures text { OnOk result (text_of (D.known disk.new) ≡ option_map (λ text. text ++ bytes.now) (text_of (D.known disk.old))) }
    ensures any_moment { AtAnyMoment (D.known disk.old) (D.known disk.new) (IsAppendedInPart (D.known disk.old) bytes.now) }
    ensures usable { D.is_usable disk.new ≡ is_ok result }
{
    disk.append(bytes)?;
    disk.sync()?;
    Ok(())
}

/// Puts other bytes in place of those of a file that is at rest, and has them on disk: first under another name, since a crash may leave
/// any front of what isn't synced.
fn begin<D: Disk>(disk: &mut D, bytes: &[u8]) -> io::Result<()>
    requires usable { IsTrue (D.is_usable disk.old) }
    requires at_rest { IsTrue (is_at_rest (D.known disk.old)) }
    ensures at_rest { OnOk result (IsTrue (is_at_rest (D.known disk.new))) }
    ensures text { OnOk result (text_of (D.known disk.new) ≡ option_map (λ _. bytes.now) (text_of (D.known disk.old))) }
    ensures any_moment { AtAnyMoment (D.known disk.old) (D.known disk.new) (IsOldOrNew (D.known disk.old) bytes.now) }
    ensures usable { D.is_usable disk.new ≡ is_ok result }
{
    disk.write_next(bytes)?;
    disk.sync_next()?;
    disk.rename()?;
    disk.sync_folder()?;
    Ok(())
}

/// The last sum of a file, and whether that is of whole lines: no byte is after its last line feed.
#[derive(Clone, Copy)]
struct Last {
    sum: Sum,
    is_whole: bool,
}

/// Reads the last sum of a file.
#[tactic(auto, using(crate::proofs::LastSums::last_read, crate::proofs::LastSums::rest_none))]
fn read_last<D: Disk>(disk: &mut D, alloc: Global) -> io::Result<Last>
    requires { IsTrue (D.is_usable disk.old) }
    ensures last { IfOk result (λ l. IsLastOf (digits_of l.sum) l.is_whole (text_of (D.known disk.old))) }
    ensures known { D.known disk.new ≡ D.known disk.old }
    ensures usable { D.is_usable disk.new ≡ is_ok result }
{
    let bytes = disk.read(alloc)?;
    Ok(Last {
        sum: last_sum(&bytes),
        is_whole: count_whole(&bytes) == bytes.len(),
    })
}

/// The last sum of a file: this one, or if it isn't known, the one that is read.
#[tactic(auto, using(crate::proofs::LastSums::known_last))]
fn last_of<D: Disk>(disk: &mut D, last: &Option<Sum>, alloc: Global) -> io::Result<Last>
    requires usable { IsTrue (D.is_usable disk.old) }
    requires last { IsTrue (is_last_sum last.now (text_of (D.known disk.old))) }
    ensures last { IfOk result (λ l. IsLastOf (digits_of l.sum) l.is_whole (text_of (D.known disk.old))) }
    ensures known { D.known disk.new ≡ D.known disk.old }
    ensures usable { D.is_usable disk.new ≡ is_ok result }
{
    match last {
        Some(sum) => Ok(Last {
            sum: *sum,
            is_whole: true,
        }),
        None => read_last(disk, alloc),
    }
}

/// Puts lines, each with its sum, after those of a file that is at rest, and has them on disk. The last sum is known then if the file was of
/// whole lines.
#[tactic(auto, using(crate::proofs::LastSums::append_text, crate::proofs::Restoring::stayed))]
fn append_lines<D: Disk>(
    disk: &mut D,
    last: &Option<Sum>,
    lines: &Vec<u8>,
) -> Result<Option<Sum>, LogError>
    requires usable { IsTrue (D.is_usable disk.old) }
    requires at_rest { IsTrue (is_at_rest (D.known disk.old)) }
    requires last { IsTrue (is_last_sum last.now (text_of (D.known disk.old))) }
    ensures at_rest { OnOk result (IsTrue (is_at_rest (D.known disk.new)) × IsTrue (D.is_usable disk.new)) }
    ensures text { OnOk result (text_of (D.known disk.new) ≡ option_map (λ text. text ++ summed_text (last_sum text) lines.now.items) (text_of (D.known disk.old))) }
    ensures any_moment { AtAnyMoment (D.known disk.old) (D.known disk.new) (IsSummedInPart (D.known disk.old) lines.now.items) }
    ensures last { IfOk result (λ l. IsTrue (is_last_sum l (text_of (D.known disk.new)))) }
    ensures err { IfErr result (λ e. IsUnmade e (D.is_usable disk.new) (D.known disk.new ≡ D.known disk.old)) }
{
    let alloc = *lines.allocator();
    let last = match last_of(disk, last, alloc) {
        Ok(last) => last,
        Err(error) => return Err(LogError::Failed(error)),
    };
    let Ok(put) = with_sums(alloc, last.sum, lines) else {
        return Err(LogError::Memory);
    };
    let sum = put.last;
    if let Err(error) = append(disk, &put.bytes) {
        return Err(LogError::Failed(error));
    }
    Ok(if last.is_whole { Some(sum) } else { None })
}

/// Puts other lines, each with its sum, in place of those of a file that is at rest, and has them on disk.
#[tactic(auto, using(crate::proofs::LastSums::begin_text, crate::proofs::LastSums::begin_so, crate::proofs::Restoring::stayed))]
fn begin_lines<D: Disk>(disk: &mut D, lines: &Vec<u8>) -> Result<Option<Sum>, LogError>
    requires usable { IsTrue (D.is_usable disk.old) }
    requires at_rest { IsTrue (is_at_rest (D.known disk.old)) }
    ensures at_rest { OnOk result (IsTrue (is_at_rest (D.known disk.new)) × IsTrue (D.is_usable disk.new)) }
    ensures text { OnOk result (text_of (D.known disk.new) ≡ option_map (λ _. summed_text [] lines.now.items) (text_of (D.known disk.old))) }
    ensures any_moment { AtAnyMoment (D.known disk.old) (D.known disk.new) (IsOldOrNew (D.known disk.old) (summed_text [] lines.now.items)) }
    ensures last { IfOk result (λ l. IsTrue (is_last_sum l (text_of (D.known disk.new)))) }
    ensures err { IfErr result (λ e. IsUnmade e (D.is_usable disk.new) (D.known disk.new ≡ D.known disk.old)) }
{
    let Ok(put) = with_sums(*lines.allocator(), Sum::none(), lines) else {
        return Err(LogError::Memory);
    };
    let sum = put.last;
    if let Err(error) = begin(disk, &put.bytes) {
        return Err(LogError::Failed(error));
    }
    Ok(Some(sum))
}

/// Makes a change to a file that is at rest, each line with its sum, and has it on disk. Gives the sum of the last line, if it is known.
#[tactic(auto, using(crate::proofs::Batching::appends_so, crate::proofs::Batching::begins_so))]
pub(crate) fn make<D: Disk>(
    disk: &mut D,
    last: &Option<Sum>,
    change: &Change,
) -> Result<Option<Sum>, LogError>
    requires usable { IsTrue (D.is_usable disk.old) }
    requires at_rest { IsTrue (is_at_rest (D.known disk.old)) }
    requires last { IsTrue (is_last_sum last.now (text_of (D.known disk.old))) }
    ensures at_rest { OnOk result (IsTrue (is_at_rest (D.known disk.new)) × IsTrue (D.is_usable disk.new)) }
    ensures text { OnOk result (text_of (D.known disk.new) ≡ option_map (λ text. text_after text change.now) (text_of (D.known disk.old))) }
    ensures any_moment { AtAnyMoment (D.known disk.old) (D.known disk.new) (IsLeftOfKnown (D.known disk.old) change.now) }
    ensures last { IfOk result (λ l. IsTrue (is_last_sum l (text_of (D.known disk.new)))) }
    ensures err { IfErr result (λ e. IsUnmade e (D.is_usable disk.new) (D.known disk.new ≡ D.known disk.old)) }
{
    match change {
        Change::Appends(lines) => append_lines(disk, last, lines),
        Change::Begins(lines) => begin_lines(disk, lines),
    }
}
