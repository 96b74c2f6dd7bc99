// A stream that is read line by line.

use crate::fault::Fault;
use kl1_lines::{Source, split_feed};
use std::alloc::{AllocError, Global};

/// The most bytes of a line, without its end.
pub const MOST_LINE_BYTES: usize = 262_144;

/// The bytes of one read.
const PIECE: usize = 4_096;

/// A stream that is read line by line.
#[derive(Drop)]
pub struct LineReader<S> {
    source: S,
    /// What was read, of which the bytes before `begin` are given already.
    piece: Vec<u8>,
    begin: usize,
}

/// What is after the place, nothing if none is there.
fn behind(bytes: &[u8], place: usize) -> &[u8] {
    if place < bytes.len() {
        &bytes[place..]
    } else {
        &[]
    }
}

impl<S: Source> LineReader<S> {
    /// The lines of a stream of which nothing was read.
    pub fn new(alloc: Global, source: S) -> Self {
        LineReader {
            source,
            piece: Vec::new(alloc),
            begin: 0,
        }
    }

    /// Puts the next line, without its line feed, in the place of `line`, and tells whether there is one. The end of the stream
    /// stands for the line feed of a last line. `bad` is the fault of a stream that can't be read or whose line is too long.
    pub fn next(&mut self, line: &mut Vec<u8>, bad: Fault) -> Result<bool, Fault> {
        let is_whole = self.next_whole(line, bad)?;
        if is_whole {
            return Ok(true);
        }
        let rest = line.as_slice();
        Ok(!rest.is_empty())
    }

    /// Like `next`, but tells whether the line has a line feed. If it has none, `line` is all that was left.
    pub fn next_whole(&mut self, line: &mut Vec<u8>, bad: Fault) -> Result<bool, Fault> {
        line.clear();
        for _ in 0..u64::MAX {
            let has_feed = self.move_front(line)?;
            if line.len() > MOST_LINE_BYTES {
                return Err(bad);
            }
            if has_feed {
                return Ok(true);
            }
            if !self.refill(bad)? {
                return Ok(false);
            }
        }
        Err(bad)
    }

    /// Puts what was read up to the next line feed after `line`, or all that was read if it has no line feed. Tells whether it has one.
    fn move_front(&mut self, line: &mut Vec<u8>) -> Result<bool, AllocError> {
        let rest = behind(self.piece.as_slice(), self.begin);
        match split_feed(rest) {
            Some((front, _)) => {
                line.extend_from_slice(front)?;
                self.begin = self.begin.saturating_add(front.len()).saturating_add(1);
                Ok(true)
            }
            None => {
                line.extend_from_slice(rest)?;
                self.piece.clear();
                self.begin = 0;
                Ok(false)
            }
        }
    }

    /// Reads the next piece in the place of the last one, and tells whether there is one.
    fn refill(&mut self, bad: Fault) -> Result<bool, Fault> {
        self.piece.clear();
        self.begin = 0;
        let mut buffer = [0u8; PIECE];
        let Ok(count) = self.source.read(&mut buffer) else {
            return Err(bad);
        };
        self.piece.extend_from_slice(&buffer[..count])?;
        Ok(count > 0)
    }
}
