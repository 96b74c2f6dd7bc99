// Bytes that come in pieces, and streams one of whose calls fails.

use std::io;
use std::io::{ErrorKind, Read, Write};

/// Counts calls down to the one that fails; at 0 none does.
fn fails(calls: &mut u64) -> bool {
    let is_last = *calls == 1;
    *calls = calls.saturating_sub(1);
    is_last
}

/// Bytes of which the first read gives at most `first`, and each other one at most `size`. The read of the number `fails` fails, counted
/// from 1; none does if it is 0.
#[derive(Drop)]
pub struct Pieces<'a> {
    pub bytes: &'a [u8],
    pub first: usize,
    pub size: usize,
    pub fails: u64,
}

impl Read for Pieces<'_> {
    fn read(&mut self, into: &mut [u8]) -> io::Result<usize> {
        if fails(&mut self.fails) {
            return Err(io::Error::from(ErrorKind::Other));
        }
        let size = self.first.min(into.len());
        self.first = self.size;
        self.bytes.read(&mut into[..size])
    }
}

/// What is written. The write or flush of the number `fails` fails, counted from 1; none does if it is 0.
#[derive(Drop)]
pub struct Written {
    pub bytes: Vec<u8>,
    pub fails: u64,
}

impl Write for Written {
    fn write(&mut self, bytes: &[u8]) -> io::Result<usize> {
        if fails(&mut self.fails) {
            return Err(io::Error::from(ErrorKind::Other));
        }
        self.bytes.write(bytes)
    }

    fn flush(&mut self) -> io::Result<()> {
        if fails(&mut self.fails) {
            return Err(io::Error::from(ErrorKind::Other));
        }
        Ok(())
    }
}
