// The sources that an account has loaded.

ghost use Rattle.std.specs.Prelude.{◌≡◌, ◌≤◌, ◌++◌, ◌∷◌, [], ◌⊎◌, bytes_eq, vec_len};
ghost use Rattle.std.specs.List.{list_any};
ghost use Rattle.kl1_host_work.specs.declared.sources.TheConstants.{MOST_KNOWN};

use sha2::{Digest, Sha256};
use std::alloc::Global;
use std::sync::atomic::{AtomicBool, Ordering};
use std::sync::{Mutex, Wait};

/// The most sources of an account that are known again: others count each time that they are loaded.
const MOST_KNOWN: usize = 4_096;

/// The sums of sources.
#[derive(Drop)]
struct Sums {
    sums: Vec<[u8; 32]>,
    ghost bounded: { vec_len sums ≤ MOST_KNOWN },
}

impl Sums {
    /// Whether this is one of them.
    fn has(&self, sum: &[u8; 32]) -> bool
        ensures { result ≡ list_any (λ known. bytes_eq known sum.now) self.now.sums.items }
    {
        self.sums.iter().any(|known| *known == *sum)
    }

    /// Takes one more in, if there are few enough and memory isn't refused.
    fn add(&mut self, sum: [u8; 32])
        ensures { (self.new.sums.items ≡ self.old.sums.items ++ sum ∷ []) ⊎ (self.new.sums.items ≡ self.old.sums.items) }
    {
        if self.sums.len() < MOST_KNOWN {
            let _ = self.sums.push(sum);
        }
    }
}

/// The sources that an account has loaded since the start, by their sums: what one was compiled to is kept once, so it counts once. Another
/// source of the same sum would count as loaded before, which costs its bytes and nothing else.
#[derive(Drop)]
pub(crate) struct Sources {
    sums: Mutex<Sums>,
    /// Whether one was refused, since the account has loaded as many bytes as it may.
    was_refused: AtomicBool,
}

impl Sources {
    /// None was loaded.
    pub(crate) fn new(alloc: Global) -> Self {
        Sources {
            sums: Mutex::new(Sums {
                sums: Vec::new(alloc),
            }),
            was_refused: AtomicBool::new(false),
        }
    }

    /// Whether a source was loaded before.
    pub(crate) fn knows<W: Wait>(&self, rt: &W, source: &[u8]) -> bool {
        let sum = Sha256::digest(source);
        let guard = self.sums.lock(rt);
        guard.has(&sum)
    }

    /// Takes in a source that was loaded. Without memory it isn't known again.
    pub(crate) fn add<W: Wait>(&self, rt: &W, source: &[u8]) {
        let sum = Sha256::digest(source);
        let mut guard = self.sums.lock(rt);
        let sums = &mut *guard;
        sums.add(sum);
    }

    /// Takes in that one was refused.
    pub(crate) fn refuse(&self) {
        self.was_refused.store(true, Ordering::SeqCst);
    }

    /// Whether one was refused.
    pub(crate) fn was_refused(&self) -> bool {
        self.was_refused.load(Ordering::SeqCst)
    }
}
