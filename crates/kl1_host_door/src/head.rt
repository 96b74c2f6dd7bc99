// The head of a request.

ghost use Rattle.std.specs.Prelude.{◌≡◌, ◌≤◌, length, map, All, IfOk};
ghost use Rattle.httparse.specs.Spans.{IsRequestWithin, IsHeaderWithin, header_bytes};
ghost use Rattle.kl1_host_door.specs.Heads.{pair_of, IsCopied, IsReading};

use crate::field::Field;
use crate::limits::MOST_FIELDS;
use httparse::Status;
use httparse::spans::{EMPTY_HEADER_SPAN, HeaderSpan, RequestSpans, parse_request};
use std::alloc::{AllocError, Global};

/// The head of a request: its method, what it is for, the second number of its version of HTTP, 0 or 1, and its fields in order.
#[derive(Drop)]
pub struct Head {
    pub method: Vec<u8>,
    pub target: Vec<u8>,
    pub minor: u8,
    pub fields: Vec<Field>,
}

/// What bytes begin with.
#[derive(Drop)]
pub enum Reading {
    /// A head, of `len` bytes with the empty line after it.
    Whole { head: Head, len: usize },
    /// What may become one.
    Partial,
    /// Nothing that becomes one with as many fields as may be.
    Bad,
}

/// The head with which bytes begin.
#[tactic(auto, using(crate::proofs::Copies::copied))]
pub fn read_head(alloc: Global, bytes: &[u8]) -> Result<Reading, AllocError>
    ensures { IfOk result (IsReading bytes.now) }
{
    let mut spans = [EMPTY_HEADER_SPAN; MOST_FIELDS];
    match parse_request(bytes, &mut spans) {
        Ok(Status::Complete(request)) => {
            let head = head_in(alloc, bytes, request, &spans)?;
            Ok(Reading::Whole {
                head,
                len: request.len,
            })
        }
        Ok(Status::Partial) => Ok(Reading::Partial),
        Err(_) => Ok(Reading::Bad),
    }
}

/// The head whose parts stand where spans of these bytes say.
fn head_in(
    alloc: Global,
    bytes: &[u8],
    request: RequestSpans,
    spans: &[HeaderSpan],
) -> Result<Head, AllocError>
    requires { IsRequestWithin bytes.now spans.now request }
    ensures { IfOk result (IsCopied bytes.now spans.now request) }
{
    Ok(Head {
        method: Vec::from_slice(alloc, request.method.of(bytes))?,
        target: Vec::from_slice(alloc, request.path.of(bytes))?,
        minor: request.version,
        fields: fields_in(alloc, bytes, request.len, &spans[..request.headers])?,
    })
}

/// The fields whose names and values stand where spans of the first `len` of these bytes say.
fn fields_in(
    alloc: Global,
    bytes: &[u8],
    len: usize,
    spans: &[HeaderSpan],
) -> Result<Vec<Field>, AllocError>
    requires len { len ≤ length bytes.now }
    requires within { All (IsHeaderWithin len) spans.now }
    ensures { IfOk result (λ fields. map pair_of fields.items ≡ map (header_bytes bytes.now) spans.now) }
{
    let mut fields = Vec::new(alloc);
    let mut rest = spans;
    while let [first, others @ ..] = rest {
        let field = Field {
            name: Vec::from_slice(alloc, first.name.of(bytes))?,
            value: Vec::from_slice(alloc, first.value.of(bytes))?,
        };
        fields.push(field)?;
        rest = others;
    }
    Ok(fields)
}
