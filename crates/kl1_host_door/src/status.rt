// The status of an answer.

ghost use Rattle.std.specs.Prelude.{◌≡◌};
ghost use Rattle.kl1_host_door.specs.Statuses.{text_of};

/// The status of an answer.
#[derive(Clone, Copy)]
pub enum Status {
    Good,
    BadRequest,
    Forbidden,
    NotFound,
    MethodNotAllowed,
    LengthRequired,
    LargeBody,
    LargeHead,
    Unavailable,
}

/// The number of a status and its name, as they stand in an answer's first line.
pub(crate) fn text_of(status: Status) -> &'static [u8]
    ensures { result.now ≡ text_of status }
{
    match status {
        Status::Good => b"200 OK",
        Status::BadRequest => b"400 Bad Request",
        Status::Forbidden => b"403 Forbidden",
        Status::NotFound => b"404 Not Found",
        Status::MethodNotAllowed => b"405 Method Not Allowed",
        Status::LengthRequired => b"411 Length Required",
        Status::LargeBody => b"413 Content Too Large",
        Status::LargeHead => b"431 Request Header Fields Too Large",
        Status::Unavailable => b"503 Service Unavailable",
    }
}
