// When what is written to a journal's file is on the disk.

ghost use Rattle.std.specs.Prelude.{◌≡◌};
ghost use Rattle.kl1_host_front.specs.Syncs.{sync_in};

use crate::quantities::duration_in;
use kl1_lines::is_same;

/// The most milliseconds between two syncs: an hour.
pub const MOST_SYNC_MILLISECONDS: u64 = 3_600_000;

/// When what is written to a journal's file is on the disk.
#[derive(Clone, Copy)]
pub enum Sync {
    /// Before the reply that tells of it.
    Always,
    /// About this many milliseconds later, from 1 to `MOST_SYNC_MILLISECONDS`. No reply waits.
    Every(u64),
    /// When the program sees fit. No reply waits.
    Never,
}

/// The sync that these words are: `always`, `never` or a duration.
pub fn sync_in(text: &[u8]) -> Option<Sync>
    ensures { result ≡ sync_in text.now }
{
    if is_same(text, b"always") {
        return Some(Sync::Always);
    }
    if is_same(text, b"never") {
        return Some(Sync::Never);
    }
    let period = duration_in(text)?;
    if 1 <= period && period <= MOST_SYNC_MILLISECONDS {
        Some(Sync::Every(period))
    } else {
        None
    }
}
