// How far the journal of an account is on disk, as those are told who wait for it.

ghost use Rattle.std.specs.Prelude.{◌≡◌, true};
ghost use Rattle.kl1_host_journals.specs.Tellings.{receipt_told, is_last};

use crate::history::Naming;
use crate::stored::Stored;
use kl1_log::Receipt;

/// The last receipt, and whether no other will come.
#[derive(Drop)]
pub struct Written<J: Naming> {
    pub(crate) stored: Stored<J>,
    pub(crate) is_stopped: bool,
}

/// That a receipt was told to those who wait for it, or that they were told that no other will come. Only `Written` makes one, when it is so.
#[derive(Drop)]
pub struct Told {
    receipt: Receipt,
    is_last: bool,
}

impl Told {
    /// Whether no other receipt will come.
    pub fn is_last(&self) -> bool
        ensures { result ≡ is_last self.now }
    {
        self.is_last
    }
}

impl<J: Naming> Written<J> {
    /// Tells that more is on disk.
    pub(crate) fn tell(&mut self, stored: Stored<J>) -> Told
        ensures stored { self.new.stored ≡ stored }
        ensures told { receipt_told result ≡ stored.receipt }
    {
        let told = Told {
            receipt: stored.receipt,
            is_last: self.is_stopped,
        };
        self.stored = stored;
        told
    }

    /// Tells that no more will be on disk.
    pub(crate) fn stop(&mut self) -> Told
        ensures stopped { self.new.is_stopped ≡ true }
        ensures told { is_last result ≡ true }
    {
        self.is_stopped = true;
        Told {
            receipt: self.stored.receipt,
            is_last: true,
        }
    }
}
