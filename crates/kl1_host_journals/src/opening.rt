// The file of a journal when a host starts.

ghost use Rattle.std.specs.Prelude.{◌≡◌, None, Some, true, IfOk, IfErr, OnOk, IsTrue};
ghost use Rattle.kl1_log.specs.Files.{IfKnown, content, is_at_rest};
ghost use Rattle.kl1_log.specs.Cuts.{file_lines, opening_of};
ghost use Rattle.kl1_host_journals.specs.Openings.{IsOpened};
ghost use Rattle.kl1_host_journals.specs.OpenFaults.{IsToldOf, IsToldAt};

use crate::resting_file::RestingFile;
use kl1_journal_entries::Journal;
use kl1_log::{Disk, Found, restore};
use kl1_model::Rules;
use std::alloc::Global;
use std::io;

/// With which journal an account begins.
#[derive(Drop)]
pub struct Opened {
    pub journal: Journal,
    /// The line of the fault that was repaired, the first being 1.
    pub repaired: Option<u64>,
}

/// Why a file isn't opened.
#[derive(Drop)]
pub enum OpenFault {
    /// The first line, the first of all being 1, with which the lines are no journal.
    Line(u64),
    /// A call of the file failed, or memory was refused.
    Failed(io::Error),
}

/// Reads the file of an account that keeps to `rules`, and cuts what is after its last line feed; then all of it is on disk. A fault is
/// refused, or if `repair`, the account begins with the lines before it, and the file is left as it is.
#[tactic(auto, using(crate::proofs::Resting::if_known_still, crate::proofs::Opens::whole_opened, crate::proofs::Opens::fault_repaired, crate::proofs::Opens::fault_told, crate::proofs::Opens::still_unopened))]
pub fn open_journal<D: Disk>(
    alloc: Global,
    disk: &mut D,
    rules: Rules,
    repair: bool,
) -> Result<Opened, OpenFault>
    requires usable { IsTrue (D.is_usable disk.old) }
    requires before { IfKnown (D.known disk.old) (λ s. s.before ≡ None) }
    ensures opened { IfOk result (λ o. IfKnown (D.known disk.old) (λ s. IsOpened (content s.now) rules repair o.journal.journal o.repaired)) }
    ensures fault { IfErr result (λ fault. IfKnown (D.known disk.old) (λ s. IsToldOf (content s.now) fault)) }
    ensures at_rest { OnOk result (IsTrue (D.is_usable disk.new) × IsTrue (is_at_rest (D.known disk.new))) }
{
    match restore(alloc, disk) {
        Ok(Found::Whole { journal, .. }) => Ok(Opened {
            journal,
            repaired: None,
        }),
        Ok(Found::Fault { line, before }) => repaired(disk, repair, line, before),
        Ok(Found::Unopened) => unopened(alloc, disk, rules, repair),
        Err(error) => Err(OpenFault::Failed(error)),
    }
}

/// With which journal an account begins whose file has a fault at this line, after the lines of a journal. What the file holds is on disk.
#[tactic(auto, using(crate::proofs::Resting::synced_rests))]
fn repaired<D: Disk>(
    disk: &mut D,
    repair: bool,
    line: u64,
    before: Journal,
) -> Result<Opened, OpenFault>
    requires usable { IsTrue (D.is_usable disk.old) }
    requires before { IfKnown (D.known disk.old) (λ s. s.before ≡ None) }
    ensures opened { IfOk result (λ o. (repair ≡ true) × (o.repaired ≡ Some line) × (o.journal ≡ before)) }
    ensures fault { IfErr result (IsToldAt line) }
    ensures at_rest { OnOk result (IsTrue (D.is_usable disk.new) × IsTrue (is_at_rest (D.known disk.new))) }
{
    if !repair {
        return Err(OpenFault::Line(line));
    }
    if let Err(error) = disk.sync() {
        return Err(OpenFault::Failed(error));
    }
    Ok(Opened {
        journal: before,
        repaired: Some(line),
    })
}

/// With which journal an account begins whose file has no heading: an empty one, if it has no bytes at all.
#[tactic(auto, using(crate::proofs::Resting::empty_rests, crate::proofs::Resting::if_known_still, crate::proofs::Opens::fresh_opened, crate::proofs::Opens::unopened_repaired, crate::proofs::Opens::unopened_told))]
fn unopened<D: Disk>(
    alloc: Global,
    disk: &mut D,
    rules: Rules,
    repair: bool,
) -> Result<Opened, OpenFault>
    requires usable { IsTrue (D.is_usable disk.old) }
    requires before { IfKnown (D.known disk.old) (λ s. s.before ≡ None) }
    requires unopened { IfKnown (D.known disk.old) (λ s. opening_of (file_lines (content s.now)) ≡ None) }
    ensures opened { IfOk result (λ o. IfKnown (D.known disk.old) (λ s. IsOpened (content s.now) rules repair o.journal.journal o.repaired)) }
    ensures fault { IfErr result (λ fault. IfKnown (D.known disk.old) (λ s. IsToldOf (content s.now) fault)) }
    ensures at_rest { OnOk result (IsTrue (D.is_usable disk.new) × IsTrue (is_at_rest (D.known disk.new))) }
{
    let journal = Journal::new(alloc, rules);
    let bytes = match disk.read(alloc) {
        Ok(bytes) => bytes,
        Err(error) => return Err(OpenFault::Failed(error)),
    };
    if bytes.is_empty() {
        return Ok(Opened {
            journal,
            repaired: None,
        });
    }
    repaired(disk, repair, 1, journal)
}
