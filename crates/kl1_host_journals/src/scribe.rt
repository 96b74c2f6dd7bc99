// Who writes to the file of an account.

ghost use Rattle.std.specs.Prelude.{◌≡◌, ◌⊎◌, true, false};
ghost use Rattle.kl1_log.specs.LogFiles.{disk_of};
ghost use Rattle.kl1_host_journals.specs.KeptFiles.{file_of, place_of};
ghost use Rattle.kl1_host_journals.specs.Parcels.{end_of};
ghost use Rattle.kl1_host_journals.specs.Places.{log_of};
ghost use Rattle.kl1_host_journals.specs.Scribes.{IsEnded, IsPutOff, IsTold, HasWritten};

use crate::history::Naming;
use crate::keeper::Keeper;
use crate::kept_file::KeptFile;
use crate::parcel::Parcel;
use crate::place::Place;
use crate::written::Told;
use kl1_log::{Disk, LogError};
use std::sync::Wait;
use std::time::{Clock, Duration};

/// Who is told of an account whose file gets nothing more.
pub trait FaultTeller {
    fn tell(&self, account: usize, error: LogError);
}

/// Writes what waits for the file of an account. Each account has its own, so that one doesn't wait for the disk of another.
#[derive(Drop)]
pub struct Scribe<'k, D: Disk, J: Naming> {
    account: usize,
    keeper: &'k Keeper<J>,
    file: KeptFile<D, J>,
    /// What was taken and isn't written, since memory was refused.
    unwritten: Option<Parcel<J>>,
    /// What those were told last who wait.
    told: Option<Told>,
}

impl<'k, D: Disk + Drop, J: Naming> Scribe<'k, D, J> {
    /// The scribe of the account of this number, with its keeper and its file.
    pub fn new(account: usize, keeper: &'k Keeper<J>, file: KeptFile<D, J>) -> Self {
        Scribe {
            account,
            keeper,
            file,
            unwritten: None,
            told: None,
        }
    }

    /// The file.
    pub fn file(&self) -> &KeptFile<D, J> {
        &self.file
    }

    /// The file, given back.
    pub fn into_file(self) -> KeptFile<D, J> {
        self.file
    }

    /// Whether it writes no more.
    fn is_ended(&self) -> bool
        ensures { result ≡ true → IsEnded self.now }
    {
        match &self.told {
            Some(told) => told.is_last(),
            None => false,
        }
    }

    /// Writes no more, and tells those who wait so, and `faults`.
    fn end<W: Wait, F: FaultTeller>(&mut self, rt: &W, faults: &F, error: LogError)
        ensures { IsEnded self.new }
    {
        self.told = Some(self.keeper.on_disk().stop(rt));
        faults.tell(self.account, error);
    }

    /// Writes what was taken, and tells those who wait for it; whether it is written. If memory is refused it is kept, and nobody is told. If a
    /// call of the file fails, no more is written, and those are told who wait, and `faults`.
    fn put<W: Wait, F: FaultTeller>(&mut self, rt: &W, faults: &F, parcel: Parcel<J>) -> bool
        ensures written { result ≡ true → (log_of (place_of self.new.file) ≡ log_of (end_of parcel)) × IsTold self.new }
        ensures usable { result ≡ true → D.is_usable (disk_of (file_of self.new.file)) ≡ true }
        ensures unwritten { result ≡ false → IsEnded self.new ⊎ IsPutOff self.new }
        ensures fault { D.is_usable (disk_of (file_of self.old.file)) ≡ true → D.is_usable (disk_of (file_of self.new.file)) ≡ false → IsEnded self.new }
    {
        match self.file.write(&parcel) {
            Ok(stored) => {
                self.told = Some(self.keeper.on_disk().publish(rt, stored));
                true
            }
            Err(LogError::Memory) => {
                self.unwritten = Some(parcel);
                false
            }
            Err(error) => {
                self.end(rt, faults, error);
                false
            }
        }
    }

    /// Writes what waits, if something does: then all that was noted up to a place is written, and those are told who wait for it. If that fails,
    /// no more is written, and those are told who wait, and `faults`. What memory was refused for is written first, and until it is, nothing
    /// else is taken.
    pub fn write<W: Wait, F: FaultTeller>(&mut self, rt: &W, faults: &F, noted: &Place<J>)
        ensures written { (IsEnded self.new ⊎ IsPutOff self.new) ⊎ HasWritten noted.now self.old self.new }
        ensures fault { D.is_usable (disk_of (file_of self.old.file)) ≡ true → D.is_usable (disk_of (file_of self.new.file)) ≡ false → IsEnded self.new }
    {
        if self.is_ended() {
            return;
        }
        if let Some(parcel) = self.unwritten.take()
            && !self.put(rt, faults, parcel)
        {
            return;
        }
        let Some(parcel) = self.keeper.take(rt, noted) else {
            self.end(rt, faults, LogError::NotNext);
            return;
        };
        if !self.file.has(&parcel) {
            self.put(rt, faults, parcel);
        }
    }

    /// Writes what waits whenever the account's bell rings, and after each `period`, when it also asks who commands the account next to note
    /// it. Ends when the bell says so, after one more turn.
    pub fn work<W: Wait + Clock, F: FaultTeller>(&mut self, rt: &W, period: Duration, faults: &F) {
        self.file.make_ready();
        for _ in rt.forever() {
            let is_ending = self.keeper.bell().wait(rt, period);
            let noted = self.file.place().again();
            self.write(rt, faults, &noted);
            if is_ending {
                return;
            }
            self.file.make_ready();
            self.keeper.call_for_notes();
        }
    }
}
