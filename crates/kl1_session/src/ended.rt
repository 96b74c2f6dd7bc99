// Where what is kept ends in a piece, and what it is then.

ghost use Rattle.std.specs.Prelude.{◌≡◌, ◌++◌, ◌≤◌, ◌<◌, ◌+◌, ◌^◌, ℕ, List, length, drop, false, IfSome, IsNone};
ghost use Rattle.kl1_model_server.specs.Cut.{has_feed};
ghost use Rattle.kl1_session.specs.Going.{IsKept, IsFew, EndsIn, passed_by, most_kept as most_kept_by, ending, ended_from, IsEnded};

use crate::next::load_of;
use crate::texts::front;
use kl1_lines::{Request, source_bytes_in, split_feed, without_return};
use kl1_model::limits::MOST_COMMAND_BYTES;

/// What a line, or the end of a load, comes to.
#[derive(Clone, Copy)]
pub(crate) enum Ended<'a> {
    /// It asks for this.
    Asks(Request<'a>),
    /// It is the line of a load of this number of bytes.
    Loads(u64),
}

/// The most bytes that are kept: of an unfinished line, or after the line of a load of `source` bytes.
pub(crate) fn most_kept(source: Option<u64>) -> usize
    requires { IsFew source }
    ensures { result ≡ most_kept_by source }
{
    match source {
        None => MOST_COMMAND_BYTES + 2,
        Some(count) => count as usize + 2,
    }
}

/// The bytes of `piece` before the line feed that ends what is kept, and those after it; `None` if it doesn't end there.
pub(crate) fn end_in<'a>(
    source: Option<u64>,
    kept: &[u8],
    piece: &'a [u8],
) -> Option<(&'a [u8], &'a [u8])>
    requires { IsKept source kept.now }
    ensures none { IsNone result → has_feed (drop (passed_by source) (kept.now ++ piece.now)) ≡ false }
    ensures some { IfSome result (λ r. EndsIn source kept.now piece.now r.0.now r.1.now) }
{
    match source {
        None => split_feed(piece),
        Some(count) => load_end_in(count as usize, kept, piece),
    }
}

/// Like `end_in`, of a load of `size` bytes.
fn load_end_in<'a>(size: usize, kept: &[u8], piece: &'a [u8]) -> Option<(&'a [u8], &'a [u8])>
    requires { has_feed (drop size kept.now) ≡ false }
    ensures none { IsNone result → has_feed (drop size (kept.now ++ piece.now)) ≡ false }
    ensures some { IfSome result (λ r. EndsIn (Some size) kept.now piece.now r.0.now r.1.now) }
{
    let missing = size.saturating_sub(kept.len());
    if piece.len() <= missing {
        return None;
    }
    match split_feed(&piece[missing..]) {
        None => None,
        Some((tail, behind)) => Some((&piece[..missing + tail.len()], behind)),
    }
}

/// What `whole` comes to, to which only its line feed is lacking: a line, or a load's source with what stands after that.
pub(crate) fn read_whole(source: Option<u64>, whole: &[u8]) -> Ended<'_>
    requires { passed_by source ≤ length whole.now }
    ensures ending { (behind : List ℕ) → ended_from result behind ≡ ending source whole.now behind }
    ensures few { IsEnded result }
{
    match source {
        None => read_line(whole),
        Some(count) => {
            let (text, tail) = whole.split_at(count as usize);
            Ended::Asks(load_of(text, tail))
        }
    }
}

/// What a line comes to, without its line feed.
fn read_line(whole: &[u8]) -> Ended<'_>
    ensures ending { (behind : List ℕ) → ended_from result behind ≡ ending None whole.now behind }
    ensures few { IsEnded result }
{
    let line = without_return(whole);
    match source_bytes_in(line) {
        None => Ended::Asks(Request::Line(front(line, MOST_COMMAND_BYTES + 1))),
        Some(count) => Ended::Loads(count),
    }
}
