// The history of an account that is new.

ghost use Rattle.std.specs.Prelude.{◌≡◌, []};
ghost use Rattle.kl1_host_journals.specs.Histories.{head_of};

use crate::edition::Edition;
use crate::history::Law;
use logbook::{Seen, Start, Word};

/// A history without editions, which belongs to no account yet.
#[derive(Drop)]
pub struct FreshHistory {
    pub(crate) head: Word<Edition, u64, Law>,
    pub(crate) seen: Seen<Edition, u64, Law>,
    pub ghost empty: { seen.log ≡ [] },
    pub ghost head_is: { head ≡ head_of seen.book },
}

impl FreshHistory {
    /// A new one.
    pub fn new() -> Self {
        let (seen, mut first, _second) = Seen::open(Start::alone(), 0, 0);
        FreshHistory {
            head: Word::tracked(0, &mut first),
            seen,
        }
    }
}
