// How long the body of a request is.

ghost use Rattle.std.specs.Prelude.{◌≡◌};
ghost use Rattle.kl1_host_door.specs.Bodies.{by_length, needs_no_body, body_bytes, within, may_send};

use crate::door::Allowed;
use crate::field::{is_single, value_of};
use crate::head::Head;
use crate::limits::{MOST_BODY_BYTES, MOST_STRANGER_BYTES};
use crate::refusal::Refusal;
use kl1_lines::number_in;

/// Whether a request by this method may come without a body and without its length.
fn needs_no_body(method: &[u8]) -> bool
    ensures { result ≡ needs_no_body method.now }
{
    method == b"GET".as_slice() || method == b"HEAD".as_slice()
}

/// How many bytes of a body come after a head.
pub fn body_bytes(head: &Head) -> Result<u64, Refusal>
    ensures { result ≡ body_bytes head.now }
{
    let fields = head.fields.as_slice();
    if !is_single(fields, b"content-length") {
        return Err(Refusal::Repeated);
    }
    if value_of(fields, b"transfer-encoding").is_some() {
        return Err(Refusal::Chunked);
    }
    match value_of(fields, b"content-length") {
        Some(text) => by_length(text),
        None => {
            if needs_no_body(head.method.as_slice()) {
                Ok(0)
            } else {
                Err(Refusal::NoLength)
            }
        }
    }
}

/// The length that a text tells, if a body may have it.
fn by_length(text: &[u8]) -> Result<u64, Refusal>
    ensures { result ≡ by_length text.now }
{
    match number_in(text) {
        None => Err(Refusal::BadLength),
        Some(length) => {
            if length <= MOST_BODY_BYTES {
                Ok(length)
            } else {
                Err(Refusal::LargeBody)
            }
        }
    }
}

/// Whether a body of `count` bytes is read of a request that isn't let in to an account; for this reason if it isn't.
fn within(count: u64, why: Refusal) -> Result<bool, Refusal>
    ensures { result ≡ within count why }
{
    if count <= MOST_STRANGER_BYTES {
        Ok(false)
    } else {
        Err(why)
    }
}

/// Whether a request is let in to an account, whose body of `count` bytes is read, by what it may have; or why that isn't read: a request that isn't
/// let in has none that is longer than a login's.
pub(crate) fn may_send(count: u64, allowed: &Result<Allowed, Refusal>) -> Result<bool, Refusal>
    ensures { result ≡ may_send count allowed.now }
{
    match allowed {
        Ok(Allowed::Owner { .. }) => Ok(true),
        Ok(Allowed::Anyone(_)) => within(count, Refusal::LargeBody),
        Err(why) => within(count, *why),
    }
}
