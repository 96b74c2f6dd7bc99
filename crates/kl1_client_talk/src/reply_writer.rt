// Where replies are shown.

use crate::fault::Fault;
use kl1_lines::{Sink, finish, pass_on};
use std::alloc::Global;

/// Where replies are shown, and how.
#[derive(Drop)]
pub struct ReplyWriter<O> {
    out: O,
    /// What is not written yet.
    waiting: Vec<u8>,
    /// Whether pages are asked for up to the last one, and shown without their first lines.
    are_pages_joined: bool,
}

impl<O: Sink> ReplyWriter<O> {
    /// A writer of replies of which none was shown.
    pub fn new(alloc: Global, out: O, are_pages_joined: bool) -> Self {
        ReplyWriter {
            out,
            waiting: Vec::new(alloc),
            are_pages_joined,
        }
    }

    /// Whether pages are asked for up to the last one, and shown without their first lines.
    pub(crate) fn are_pages_joined(&self) -> bool {
        self.are_pages_joined
    }

    /// Where the lines are shown.
    pub(crate) fn sink(&self) -> &O {
        &self.out
    }

    /// Shows a line, which may wait for those after it.
    pub(crate) fn line(&mut self, line: &[u8]) -> Result<(), Fault> {
        self.waiting.extend_from_slice(line)?;
        self.waiting.push(b'\n')?;
        match pass_on(&mut self.out, &mut self.waiting) {
            Ok(()) => Ok(()),
            Err(_) => Err(Fault::Write),
        }
    }

    /// Writes the lines that wait.
    pub(crate) fn flush(&mut self) -> Result<(), Fault> {
        let written = finish(&mut self.out, self.waiting.as_slice());
        self.waiting.clear();
        match written {
            Ok(()) => Ok(()),
            Err(_) => Err(Fault::Write),
        }
    }
}
