// Where codes may stand.

ghost use Rattle.std.specs.Prelude.{◌≡◌, ◌*◌, length, vec_len};
ghost use Rattle.kl1_codes.specs.declared.hints.TheConstants.{EACH, GROUPS};

use std::alloc::{AllocError, Global};
use std::hash::{FoldHasher, Hasher};
use std::sync::atomic::{AtomicU64, Ordering};

/// How many words there are for one source.
const EACH: usize = 8;

/// How many groups of words there are.
const GROUPS: usize = 1_024;

/// Words that say at which places codes may stand: one more than the place, or 0, which says nothing. A word may be wrong: it
/// says where to look, and nothing of what stands there.
#[derive(Drop)]
pub(crate) struct Hints {
    words: Vec<AtomicU64>,
    ghost size: { vec_len words ≡ EACH * GROUPS },
}

impl Hints {
    /// Hints whose words are all this one.
    pub(crate) fn new(alloc: Global, word: u64) -> Result<Self, AllocError> {
        let mut words = Vec::new(alloc);
        words.resize_with(EACH * GROUPS, || AtomicU64::new(word))?;
        Ok(Hints { words })
    }

    /// The words for a source.
    pub(crate) fn of(&self, source: &[u8]) -> &[AtomicU64]
        ensures { length result.now ≡ EACH }
    {
        let mut hasher = FoldHasher::default();
        hasher.write(source);
        let first = EACH * (hasher.finish() as usize % GROUPS);
        &self.words[first..first + EACH]
    }
}

/// The place that a word says, if any.
pub(crate) fn place_in(word: &AtomicU64) -> Option<usize> {
    match word.load(Ordering::SeqCst) {
        0 => None,
        word => Some((word - 1) as usize),
    }
}

/// Notes a place in the first of a source's words that says nothing, or else in one that gives way to it.
pub(crate) fn note(words: &[AtomicU64], place: usize)
    requires { length words.now ≡ EACH }
{
    let noted = (place as u64).wrapping_add(1);
    for word in words {
        let was = word.compare_exchange(0, noted, Ordering::SeqCst, Ordering::SeqCst);
        if was.is_ok() {
            return;
        }
    }
    words[place % EACH].store(noted, Ordering::SeqCst);
}
