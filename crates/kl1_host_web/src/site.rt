// A host's page, as all its connections have it.

ghost use Rattle.std.specs.Prelude.{◌≡◌, ℕ, true, List, ⊤};

use kl1_host_door::{LoginKeys, SessionBook, Site};
use std::sync::Mutex;

/// A host's page, as all its connections have it.
#[derive(Drop)]
pub struct Page<'p, K: LoginKeys> {
    /// The sessions of browsers that are open.
    pub sessions: &'p Mutex<SessionBook<K>>,
    /// The names by which the host is known.
    pub sites: &'p [Site],
    /// After how many seconds without a request a session ends.
    pub idle: u64,
}

/// What a page needs of its machine.
pub trait Machine {
    /// Which seconds it has told.
    ghost tells: { Self → ℕ → Type 0 } = { λ _ _. ⊤ };

    /// Which bytes it has given that nobody can guess.
    ghost gives: { Self → List ℕ → Type 0 } = { λ _ _. ⊤ };

    /// The seconds since some second.
    fn seconds(&self) -> u64
        ensures { tells self.now result };

    /// Fills a buffer with bytes that nobody can guess; `false` if that can't be done.
    fn fill(&self, bytes: &mut [u8]) -> bool
        ensures { result ≡ true → gives self.now bytes.new };
}
