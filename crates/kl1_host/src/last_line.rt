// The last line of what is written.

use std::alloc::Global;
use std::io::{self, ErrorKind, Write};

/// The most bytes of a line that are kept.
const MOST_KEPT: usize = 256;

/// Keeps the last line of what is written to it.
#[derive(Drop)]
pub struct LastLine {
    /// The line, without its end.
    line: Vec<u8>,
    /// Whether its end came, so that the next byte begins another.
    is_whole: bool,
}

impl LastLine {
    /// No line was written.
    pub fn new(alloc: Global) -> Self {
        LastLine {
            line: Vec::new(alloc),
            is_whole: false,
        }
    }

    /// The first bytes of the last line.
    pub fn line(&self) -> &[u8] {
        self.line.as_slice()
    }

    /// Takes a byte.
    fn take(&mut self, byte: u8) -> io::Result<()> {
        if self.is_whole {
            self.line.clear();
            self.is_whole = false;
        }
        if byte == b'\n' {
            self.is_whole = true;
        } else if self.line.len() < MOST_KEPT && self.line.push(byte).is_err() {
            return Err(io::Error::from(ErrorKind::OutOfMemory));
        }
        Ok(())
    }
}

impl Write for LastLine {
    fn write(&mut self, bytes: &[u8]) -> io::Result<usize> {
        for byte in bytes {
            self.take(*byte)?;
        }
        Ok(bytes.len())
    }

    fn flush(&mut self) -> io::Result<()> {
        Ok(())
    }
}
