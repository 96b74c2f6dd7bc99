// Who tries a key waits, and the try counts.

ghost use Rattle.std.specs.Prelude.{◌≡◌, ◌*◌, true, false};
ghost use Rattle.std.specs.Duration.{as_nanos};
ghost use Rattle.kl1_host_front.specs.Pauses.{wrongs_in, pause_for, IsNotedFor, IsForgottenFor, NotesWrong, Forgives};

use crate::wrong_keys::{Pauses, Trier};
use std::snapshot::Snapshot;
use std::thread;
use std::time::{Clock, Duration};

/// How long a trier has to wait until a key is looked at. Only `Pauses` makes one.
#[derive(Drop)]
pub(crate) struct Pause {
    milliseconds: u64,
    trier: Snapshot<Trier>,
}

/// That a trier has waited, and how long. Only a `Pause` makes one.
#[derive(Drop)]
pub(crate) struct Waited {
    trier: Snapshot<Trier>,
    time: Snapshot<Duration>,
}

/// That a try of a key was counted: of this trier, and whether the key was good. Only `Pauses` makes one.
#[derive(Drop)]
pub(crate) struct Tried {
    trier: Snapshot<Trier>,
    is_good: Snapshot<bool>,
}

/// A try of a key: what it opened, and that it waited and counts.
#[derive(Drop)]
pub(crate) struct Attempt {
    pub(crate) found: Option<usize>,
    pub(crate) waited: Waited,
    pub(crate) tried: Tried,
}

impl Pause {
    /// Waits so long.
    pub(crate) fn wait<R: Clock>(self, rt: &R) -> Waited
        ensures trier { result.trier.value ≡ self.trier.value }
        ensures time { as_nanos result.time.value ≡ self.milliseconds * 1_000_000 }
    {
        let time = Duration::from_millis(self.milliseconds);
        thread::sleep(rt, time);
        Waited {
            trier: self.trier,
            time: Snapshot::of(&time),
        }
    }
}

impl Pauses {
    /// How long a trier has to wait at `now` until a key is looked at.
    pub(crate) fn pause_for(&self, trier: Trier, now: u64) -> Pause
        ensures trier { result.trier.value ≡ trier }
        ensures time { result.milliseconds ≡ pause_for (wrongs_in self.now) trier now }
    {
        let pause = self.pause_of(trier.address, now);
        let milliseconds = match trier.account {
            None => pause,
            Some(account) => pause.max(self.pause_of(account, now)),
        };
        Pause {
            milliseconds,
            trier: Snapshot::of(&trier),
        }
    }

    /// A wrong key was tried for an account at `now`, if there is this account.
    fn note_wrong_for(&mut self, account: Option<u128>, now: u64)
        ensures { IsNotedFor account now (wrongs_in self.old) (wrongs_in self.new) }
    {
        match account {
            None => {}
            Some(account) => self.note_wrong(account, now),
        }
    }

    /// The wrong keys of an account are forgotten, if there is this account.
    fn forget_for(&mut self, account: Option<u128>)
        ensures { IsForgottenFor account (wrongs_in self.old) (wrongs_in self.new) }
    {
        match account {
            None => {}
            Some(account) => self.forget(account),
        }
    }

    /// A trier came with a wrong key at `now`.
    pub(crate) fn note_wrong_by(&mut self, trier: Trier, now: u64) -> Tried
        ensures notes { NotesWrong trier now (wrongs_in self.old) (wrongs_in self.new) }
        ensures trier { result.trier.value ≡ trier }
        ensures is_good { result.is_good.value ≡ false }
    {
        self.note_wrong(trier.address, now);
        self.note_wrong_for(trier.account, now);
        Tried {
            trier: Snapshot::of(&trier),
            is_good: Snapshot::of(&false),
        }
    }

    /// A trier came with a good key.
    pub(crate) fn forget_by(&mut self, trier: Trier) -> Tried
        ensures forgives { Forgives trier (wrongs_in self.old) (wrongs_in self.new) }
        ensures trier { result.trier.value ≡ trier }
        ensures is_good { result.is_good.value ≡ true }
    {
        self.forget(trier.address);
        self.forget_for(trier.account);
        Tried {
            trier: Snapshot::of(&trier),
            is_good: Snapshot::of(&true),
        }
    }
}
