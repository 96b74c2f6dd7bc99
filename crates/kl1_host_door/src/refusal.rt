// Why a request is refused.

ghost use Rattle.std.specs.Prelude.{◌≡◌, codes};
ghost use Rattle.kl1_host_door.specs.Refusals.{status_of, words_of};

use crate::status::Status;

/// Why a request is refused.
#[derive(Clone, Copy)]
pub enum Refusal {
    /// Its head is no head of HTTP/1.1, or has too many fields.
    BadHead,
    /// Its head has too many bytes.
    LargeHead,
    /// A field stands twice.
    Repeated,
    /// Its method isn't one of the page that it asks for.
    Method,
    /// It names no host.
    NoHost,
    /// It names a host that is another.
    OtherHost,
    /// It comes from the page of another host.
    OtherOrigin,
    /// It says something after a question mark, as a key that would stand in a history.
    Query,
    /// It asks for what only the machine itself is told.
    NotLocal,
    /// It is of nobody who is logged in.
    Nobody,
    /// It doesn't have the token of its session.
    Token,
    /// Its body comes in pieces of unknown number.
    Chunked,
    /// It doesn't tell how long its body is.
    NoLength,
    /// It tells a length that is none.
    BadLength,
    /// Its body is too long.
    LargeBody,
    /// Its body isn't what is asked for.
    BadBody,
    /// There is no such page.
    NoPage,
    /// The name or the key is wrong.
    WrongKey,
    /// As many sessions are open as may be.
    ManySessions,
    /// Memory is short.
    Memory,
}

/// The status that is answered to a request that is refused.
pub fn status_of(refusal: Refusal) -> Status
    ensures { result ≡ status_of refusal }
{
    match refusal {
        Refusal::BadHead => Status::BadRequest,
        Refusal::LargeHead => Status::LargeHead,
        Refusal::Repeated => Status::BadRequest,
        Refusal::Method => Status::MethodNotAllowed,
        Refusal::NoHost => Status::BadRequest,
        Refusal::OtherHost => Status::Forbidden,
        Refusal::OtherOrigin => Status::Forbidden,
        Refusal::Query => Status::BadRequest,
        Refusal::NotLocal => Status::Forbidden,
        Refusal::Nobody => Status::Forbidden,
        Refusal::Token => Status::Forbidden,
        Refusal::Chunked => Status::LengthRequired,
        Refusal::NoLength => Status::LengthRequired,
        Refusal::BadLength => Status::BadRequest,
        Refusal::LargeBody => Status::LargeBody,
        Refusal::BadBody => Status::BadRequest,
        Refusal::NoPage => Status::NotFound,
        Refusal::WrongKey => Status::Forbidden,
        Refusal::ManySessions => Status::Forbidden,
        Refusal::Memory => Status::Unavailable,
    }
}

/// What is told of a request that is refused.
pub fn words_of(refusal: Refusal) -> &'static str
    ensures { result.now ≡ words_of refusal }
{
    match refusal {
        Refusal::BadHead => "The request is no request of HTTP/1.1.",
        Refusal::LargeHead => "The head of the request is too large.",
        Refusal::Repeated => "A field of the request stands twice.",
        Refusal::Method => "The page has another method.",
        Refusal::NoHost => "The request names no host.",
        Refusal::OtherHost => "The request names another host.",
        Refusal::OtherOrigin => "The request comes from the page of another host.",
        Refusal::Query => "Nothing is taken from a URL but the number of a first shoen.",
        Refusal::NotLocal => "Only the machine of the host is told that.",
        Refusal::Nobody => "Nobody is logged in.",
        Refusal::Token => "The token of the session is missing or wrong.",
        Refusal::Chunked => "The body has to come in one piece.",
        Refusal::NoLength => "The request doesn't tell the length of its body.",
        Refusal::BadLength => "The length of the body is no number.",
        Refusal::LargeBody => "The body has too many bytes.",
        Refusal::BadBody => "The body isn't what is asked for.",
        Refusal::NoPage => "There is no such page.",
        Refusal::WrongKey => "The name or the key is wrong.",
        Refusal::ManySessions => "Too many sessions are open.",
        Refusal::Memory => "The host is short of memory.",
    }
}
