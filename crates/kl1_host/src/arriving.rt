// Accounts that come to a host and leave it while it runs, as its program notes and tells them; and what is set of it then.

use crate::fault::Fault;
use crate::program::Program;
use crate::start_words::start_fault;
use crate::started::{Arrivals, note_started};
use kl1_host_front::{Field, Settings};
use kl1_host_web::LoginKeys;
use kl1_host_work::StartFault;
use std::fs::File;
use std::random::RandomSource;
use std::rt::Files;
use std::sync::Wait;
use std::time::Clock;

/// What is set of a host, of what may change while it runs.
#[derive(Clone, Copy)]
pub struct SetNow {
    /// After how many seconds without a request a browser's session ends.
    pub idle: u64,
    /// How many bytes the journal of an account may have on disk, and its sources may have.
    pub disk_each: u64,
    pub codes_each: u64,
}

impl SetNow {
    /// What settings say.
    pub fn of(settings: &Settings) -> Self {
        SetNow {
            idle: settings.idle.div_ceil(1_000),
            disk_each: settings.disk_each,
            codes_each: settings.codes_each,
        }
    }
}

impl<'f, R, K: LoginKeys> Program<'f, R, K>
where
    R: Wait + Clock + Eprint + Files<File = File> + RandomSource,
{
    /// Takes in that an account is there, or isn't any more, and notes which have started, once all of the start have come. If that can't be
    /// noted, a later start doesn't miss one.
    pub fn note_arrival(&self, account: usize, is_there: bool) {
        let mut guard = self.arrivals.lock(self.rt);
        let arrivals = &mut *guard;
        if let Some(place) = arrivals.are_there.get_mut(account) {
            *place = is_there;
        }
        self.note_all(arrivals);
    }

    /// Takes in that all accounts of the start have come.
    pub fn note_ready(&self) {
        let mut guard = self.arrivals.lock(self.rt);
        let arrivals = &mut *guard;
        arrivals.is_ready = true;
        self.note_all(arrivals);
    }

    /// Notes which accounts have started: each has a journal on the disk, if only its heading.
    fn note_all(&self, arrivals: &Arrivals) {
        if arrivals.is_ready {
            let _ = note_started(
                self.rt,
                self.alloc,
                self.folder,
                self.keys.keys(),
                &arrivals.are_there,
            );
        }
    }

    /// Tells that an account which came while the host runs can't be restored, and why.
    pub fn tell_unrestored(&self, account: usize, fault: StartFault) {
        let name = self.name_of(account);
        let who = Field {
            name: b"account",
            value: name,
        };
        let keys = self.keys.keys();
        let told = start_fault(self.rt, self.alloc, self.folder, keys, fault);
        if let Ok(Fault::Words(_, words)) = &told {
            let why = Field {
                name: b"error",
                value: words.as_bytes(),
            };
            self.log.tell(b"unrestored", &[who, why]);
        } else {
            self.log.tell(b"unrestored", &[who]);
        }
    }
}
