// Streams of which a copy is kept.

use std::alloc::Global;
use std::io;
use std::io::Write;

/// A stream, with a copy of what is written to it.
#[derive(Drop)]
pub struct Copied<W> {
    pub inner: W,
    /// What was written. It is empty if memory was refused for it.
    pub copy: Vec<u8>,
    /// Whether nothing is passed on to the stream.
    is_held: bool,
    is_lost: bool,
}

impl<W> Copied<W> {
    /// A stream to which nothing was written; if it is to be held, nothing is passed on to it.
    pub fn new(alloc: Global, inner: W, is_held: bool) -> Self {
        Copied {
            inner,
            copy: Vec::new(alloc),
            is_held,
            is_lost: false,
        }
    }

    /// Puts bytes after the copy, if memory isn't refused for them.
    fn keep(&mut self, bytes: &[u8]) {
        if !self.is_lost && self.copy.extend_from_slice(bytes).is_err() {
            self.copy.clear();
            self.is_lost = true;
        }
    }
}

impl<W: Write> Write for Copied<W> {
    fn write(&mut self, bytes: &[u8]) -> io::Result<usize> {
        if self.is_held {
            self.copy.extend_from_slice(bytes)?;
            return Ok(bytes.len());
        }
        let count = self.inner.write(bytes)?;
        self.keep(bytes.get(..count).unwrap_or(bytes));
        Ok(count)
    }

    fn flush(&mut self) -> io::Result<()> {
        self.inner.flush()
    }
}
