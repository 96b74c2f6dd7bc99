// The keys of the accounts of a host, which may change while it runs.

use kl1_session::Key;
use std::alloc::{AllocError, Global};
use std::sync::atomic::{AtomicUsize, Ordering};
use std::sync::{OnceLock, Wait};

/// The most editions of keys between two starts.
const MOST_EDITIONS: usize = 1_024;

/// The editions of the keys of a host's accounts: each has the names and the sums at the accounts' places, in order. One that was removed has
/// no name and no sum at its place, so that nothing opens it. An edition stays as it is, so that who has it may go on with it.
#[derive(Drop)]
pub struct Keyring {
    editions: Vec<OnceLock<Vec<Key>>>,
    /// The number of the newest.
    last: AtomicUsize,
}

impl Keyring {
    /// With a first edition.
    pub fn new<W: Wait>(rt: &W, alloc: Global, keys: Vec<Key>) -> Result<Self, AllocError> {
        let mut editions = Vec::with_capacity(alloc, MOST_EDITIONS)?;
        for _ in 0..MOST_EDITIONS {
            editions.push(OnceLock::new())?;
        }
        if let Some(first) = editions.get(0) {
            let _ = first.set(rt, keys);
        }
        Ok(Keyring {
            editions,
            last: AtomicUsize::new(0),
        })
    }

    /// The number of the newest edition.
    pub fn edition(&self) -> u64 {
        self.last.load(Ordering::SeqCst) as u64
    }

    /// The newest edition.
    pub fn keys(&self) -> &[Key] {
        match self.editions.get(self.last.load(Ordering::SeqCst)) {
            Some(edition) => match edition.get() {
                Some(keys) => keys.as_slice(),
                None => &[],
            },
            None => &[],
        }
    }

    /// What the account of a place is called, or was.
    pub fn name_of(&self, account: usize) -> &[u8] {
        let last = self.last.load(Ordering::SeqCst);
        for back in 0..last.saturating_add(1) {
            if let Some(edition) = self.editions.get(last.saturating_sub(back))
                && let Some(keys) = edition.get()
                && let Some(key) = keys.get(account)
                && !key.name.is_empty()
            {
                return key.name.as_slice();
            }
        }
        b""
    }

    /// The place of the account that was called so last, in any edition.
    pub fn place_of(&self, name: &[u8]) -> Option<usize> {
        if name.is_empty() {
            return None;
        }
        let last = self.last.load(Ordering::SeqCst);
        for back in 0..last.saturating_add(1) {
            if let Some(edition) = self.editions.get(last.saturating_sub(back))
                && let Some(keys) = edition.get()
                && let Some(place) = keys.iter().rposition(|key| key.name.as_slice() == name)
            {
                return Some(place);
            }
        }
        None
    }

    /// Adds an edition; `false` if there are as many as may be. One thread at a time adds some.
    pub fn add<W: Wait>(&self, rt: &W, keys: Vec<Key>) -> bool {
        let next = self.last.load(Ordering::SeqCst).saturating_add(1);
        let Some(edition) = self.editions.get(next) else {
            return false;
        };
        let is_added = edition.set(rt, keys).is_ok();
        if is_added {
            self.last.store(next, Ordering::SeqCst);
        }
        is_added
    }
}
