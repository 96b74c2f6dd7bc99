// A stream that counts its failures.

ghost use Rattle.std.specs.Prelude.{◌≡◌, ◌↔◌, true};
ghost use Rattle.std.specs.IoError.{error_kind};
ghost use Rattle.std.specs.declared.io.ErrorKind.TheVariants.{Interrupted};

use std::io::{Error, ErrorKind};

/// A stream, and how many of its calls have failed. One that has failed 2^64 - 1 times is used no more.
#[derive(Drop)]
pub struct FailureCounter<T> {
    /// The stream.
    pub inner: T,
    /// How many calls have failed.
    pub failures: u64,
}

impl<T> FailureCounter<T> {
    /// A stream none of whose calls has failed.
    pub fn new(inner: T) -> Self
        ensures { result ≡ record { inner = inner; failures = 0 } }
    {
        FailureCounter { inner, failures: 0 }
    }
}

/// A call of a device failed.
#[derive(Clone, Copy)]
pub struct DeviceFailed;

/// Whether a call failed, and wasn't merely interrupted.
pub(crate) fn has_failed(error: Error) -> bool
    ensures { (result ≡ true) ↔ (error_kind error ≡ Interrupted → ⊥) }
{
    error.kind() != ErrorKind::Interrupted
}
