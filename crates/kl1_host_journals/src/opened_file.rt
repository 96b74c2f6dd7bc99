// The file of a journal with the journal that was read from it.

ghost use Rattle.std.specs.Prelude.{◌≡◌, None, IfOk, IfErr, IsTrue};
ghost use Rattle.kl1_log.specs.Files.{IfKnown, content};
ghost use Rattle.kl1_host_journals.specs.OpenFaults.{IsToldOf};

use crate::opening::{OpenFault, Opened, open_journal};
use crate::resting_file::RestingFile;
use kl1_journal_entries::Journal;
use kl1_log::Disk;
use kl1_model::Rules;
use std::alloc::Global;
use std::marker::Model;
use std::snapshot::Snapshot;

/// The file of an account with the journal with which the account begins. Only `open_file` makes one, which reads the journal from just this
/// file, and no other journal can be put to it.
#[derive(Drop)]
pub struct OpenedFile<D: Disk> {
    /// `None` once it was taken.
    file: Option<RestingFile<D>>,
    journal: Journal,
    /// The line of the fault that was repaired, the first being 1.
    repaired: Option<u64>,
    found: Snapshot<D>,
    rules: Snapshot<Rules>,
    repair: Snapshot<bool>,
}

impl<D: Disk> Model for OpenedFile<D> {
    ghost use Rattle.std.specs.Coded.{codes};
    ghost use Rattle.kl1_journal_entries.specs.Codes.{rows_code};
    ghost use Rattle.kl1_log.specs.Files.{IfKnown, content};
    ghost use Rattle.kl1_host_journals.specs.Openings.{IsOpened};
    ghost use Rattle.kl1_host_journals.specs.OpenedFiles.{OpenedValue};

    ghost Value = { OpenedValue };

    ghost coded = { Prim.hlevel (codes, rows_code) };

    ghost view = { λ o. record { found = D.known o.found.value; rules = o.rules.value; repair = o.repair.value; journal = o.journal; repaired = o.repaired } };

    ghost invariant = { λ o. IfKnown (D.known o.found.value) (λ s. IsOpened (content s.now) o.rules.value o.repair.value o.journal.journal o.repaired) };
}

impl<D: Disk> OpenedFile<D> {
    /// The journal with which the account begins.
    pub fn journal(&self) -> &Journal
        ensures { result.now ≡ self.now.journal }
    {
        &self.journal
    }

    /// The line of the fault that was repaired, the first being 1.
    pub fn repaired(&self) -> Option<u64>
        ensures { result ≡ self.now.repaired }
    {
        self.repaired
    }

    /// The file, once; the journal stays.
    pub fn take_file(&mut self) -> Option<RestingFile<D>>
        ensures { self.new ≡ self.old }
    {
        self.file.take()
    }
}

/// Like `open_journal`, of a file that is given by value.
pub fn open_file<D: Disk + Drop>(
    alloc: Global,
    disk: D,
    rules: Rules,
    repair: bool,
) -> Result<OpenedFile<D>, OpenFault>
    requires usable { IsTrue (D.is_usable disk) }
    requires before { IfKnown (D.known disk) (λ s. s.before ≡ None) }
    ensures opened { IfOk result (λ o. (o.found ≡ D.known disk) × (o.rules ≡ rules) × (o.repair ≡ repair)) }
    ensures fault { IfErr result (λ fault. IfKnown (D.known disk) (λ s. IsToldOf (content s.now) fault)) }
{
    let found = Snapshot::of(&disk);
    let mut disk = disk;
    match open_journal(alloc, &mut disk, rules, repair) {
        Ok(Opened { journal, repaired }) => Ok(OpenedFile {
            file: Some(RestingFile::new(disk)),
            journal,
            repaired,
            found,
            rules: Snapshot::of(&rules),
            repair: Snapshot::of(&repair),
        }),
        Err(fault) => Err(fault),
    }
}
