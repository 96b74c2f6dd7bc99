// What all threads of a host share beside the pool.

ghost use Rattle.std.specs.Prelude.{◌≡◌, ⊤};

use crate::account_place::AccountPlace;
use crate::budget::Budget;
use crate::live::Live;
use crate::sources::Sources;
use kl1_host_journals::{Keeper, KeeperPlace, Naming};
use kl1_log::Room;
use kl1_session::Key;
use std::alloc::{AllocError, Global};
use std::sync::{Arc, OnceLock};
use std::time::Duration;

/// Whether replies wait until what they tell is on disk, and after how long what is new is written at the latest.
#[derive(Clone, Copy)]
pub struct Syncing {
    pub replies_wait: bool,
    pub period: Duration,
}

/// How it stands with the room for the file of an account; there is none if that is never short, or not open yet.
pub(crate) type FileRoom = OnceLock<Arc<Room, Global>>;

/// What all threads of a host share beside the pool: for each place, in order, how far it is with its account, the account's keeper, what it may
/// still load, how it stands with the room for its file, and what it has loaded; and what is set. And by which keys who is served was let in.
pub struct Host<'h, J: Naming> {
    pub places: &'h [AccountPlace],
    pub keepers: &'h [KeeperPlace<J>],
    pub budgets: &'h [Budget],
    pub(crate) rooms: &'h [FileRoom],
    pub(crate) sources: &'h [Sources],
    pub live: &'h Live,
    pub syncing: Syncing,
    pub memory_each: u64,
    /// The edition of these keys, or an older one.
    pub edition: u64,
    /// What accounts are called, and their keys, in the order of their numbers.
    pub keys: &'h [Key],
}

impl<'h, J: Naming> Host<'h, J> {
    /// The keeper of an account, once its file is linked.
    pub(crate) fn keeper(self, account: usize) -> Option<&'h Keeper<J>> {
        self.keepers.get(account)?.get()
    }

    /// Whether who is served may do something to an account.
    pub(crate) fn lets_in(self, account: usize) -> bool {
        self.lets_in_by(account, self.edition)
    }

    /// The same, of who was let in by keys of this edition, or of a newer one.
    pub(crate) fn lets_in_by(self, account: usize, edition: u64) -> bool {
        match self.places.get(account) {
            Some(place) => place.lets_in(edition),
            None => false,
        }
    }

    /// Whether an account is there.
    pub(crate) fn is_open(self, account: usize) -> bool {
        match self.places.get(account) {
            Some(place) => place.is_open(),
            None => false,
        }
    }

    /// The same, for who was let in by these keys, of this edition or of a newer one.
    pub(crate) fn with_keys(self, edition: u64, keys: &'h [Key]) -> Host<'h, J>
        ensures keys { result.keys.now ≡ keys.now }
        ensures syncing { result.syncing ≡ self.entry.syncing }
    {
        Host {
            edition,
            keys,
            ..self
        }
    }
}

impl<'h, J: Naming> Clone for Host<'h, J> {
    ghost is_clone = { λ x y. y ≡ x };

    ghost is_infallible = { λ _. ⊤ };

    fn clone(&self) -> Result<Host<'h, J>, AllocError> {
        Ok(*self)
    }
}

impl<'h, J: Naming> Copy for Host<'h, J> {}
