// Streams whose readers may leave.

use std::io;
use std::io::{ErrorKind, Write};

/// A stream that is written to, and whether a write told that nobody reads it any more.
#[derive(Drop)]
pub struct Pipe<W> {
    inner: W,
    pub is_left: bool,
}

impl<W> Pipe<W> {
    /// A stream that somebody reads, as far as is known.
    pub fn new(inner: W) -> Self {
        Pipe {
            inner,
            is_left: false,
        }
    }
}

impl<W: Write> Write for Pipe<W> {
    fn write(&mut self, bytes: &[u8]) -> io::Result<usize> {
        match self.inner.write(bytes) {
            Ok(count) => Ok(count),
            Err(error) => {
                if error.kind() == ErrorKind::BrokenPipe {
                    self.is_left = true;
                }
                Err(error)
            }
        }
    }

    fn flush(&mut self) -> io::Result<()> {
        self.inner.flush()
    }
}
