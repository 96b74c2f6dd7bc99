// The next request of a stream.

ghost use Rattle.std.specs.Prelude.{◌≡◌, ◌≤◌, ◌<◌, length, Some};
ghost use Rattle.kl1_model.specs.declared.limits.TheConstants.{MOST_SOURCE_BYTES};
ghost use Rattle.kl1_model_server.specs.Cut.{cut_of, load_cut};
ghost use Rattle.kl1_model_server.specs.code.Streams.{load_request};
ghost use Rattle.kl1_session.specs.Going.{going, cut_from, IsNext, IsFew};
ghost use Rattle.kl1_lines.specs.Records.{request_of};

use crate::texts::front;
use kl1_lines::{Request, source_bytes_in, split_feed, without_return};
use kl1_model::limits::MOST_COMMAND_BYTES;

/// The next request of a stream.
#[derive(Clone, Copy)]
pub(crate) enum Next<'a> {
    /// This one, and the bytes after it.
    Found(Request<'a>, &'a [u8]),
    /// None is complete. If the line of a load came, how many bytes its source has; and the bytes that are kept.
    Waits(Option<u64>, &'a [u8]),
}

/// The next request of `bytes`, which begin with a line, or stand after the line of a load of `source` bytes.
pub(crate) fn next_request(source: Option<u64>, bytes: &[u8]) -> Next<'_>
    requires { IsFew source }
    ensures cut { cut_from result ≡ going source bytes.now }
    ensures next { IsNext bytes.now result }
{
    match source {
        None => next_line(bytes),
        Some(count) => next_load(count, bytes),
    }
}

/// The next request of `bytes`, which begin with a line.
fn next_line(bytes: &[u8]) -> Next<'_>
    ensures cut { cut_from result ≡ cut_of bytes.now }
    ensures next { IsNext bytes.now result }
{
    let Some((line, behind)) = split_feed(bytes) else {
        return Next::Waits(None, front(bytes, MOST_COMMAND_BYTES + 2));
    };
    let line = without_return(line);
    match source_bytes_in(line) {
        None => Next::Found(Request::Line(front(line, MOST_COMMAND_BYTES + 1)), behind),
        Some(count) => next_load(count, behind),
    }
}

/// The next request of `bytes`, which stand after the line of a load of `count` bytes.
fn next_load(count: u64, bytes: &[u8]) -> Next<'_>
    requires { count ≤ MOST_SOURCE_BYTES }
    ensures cut { cut_from result ≡ load_cut cut_of count bytes.now }
    ensures next { IsNext bytes.now result }
{
    let size = count as usize;
    if bytes.len() <= size {
        return Next::Waits(Some(count), bytes);
    }
    match split_feed(&bytes[size..]) {
        None => Next::Waits(Some(count), front(bytes, size + 2)),
        Some((tail, behind)) => Next::Found(load_of(&bytes[..size], tail), behind),
    }
}

/// What a load asks for, by its source and what stands after that in its last line.
pub(crate) fn load_of<'a>(source: &'a [u8], tail: &[u8]) -> Request<'a>
    ensures { request_of result ≡ load_request source.now tail.now }
{
    if without_return(tail).is_empty() {
        Request::Load(source)
    } else {
        Request::SpoiledLoad
    }
}
