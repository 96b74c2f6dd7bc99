// The connection to a server.

use crate::fault::Fault;
use crate::line_reader::LineReader;
use crate::reply::is_refusal;
use crate::request::{Request, put_request};
use kl1_lines::{Sink, Source, finish};
use std::alloc::Global;

/// The connection to a server.
#[derive(Drop)]
pub struct Connection<S, T> {
    replies: LineReader<S>,
    sink: T,
    /// The bytes of the request.
    request: Vec<u8>,
    /// The last line that came.
    line: Vec<u8>,
    /// Whether a reply was a refusal.
    was_refused: bool,
}

impl<S: Source, T: Sink> Connection<S, T> {
    /// A connection on which nothing was sent.
    pub fn new(alloc: Global, source: S, sink: T) -> Self {
        Connection {
            replies: LineReader::new(alloc, source),
            sink,
            request: Vec::new(alloc),
            line: Vec::new(alloc),
            was_refused: false,
        }
    }

    /// The last line that came, without its end.
    pub fn line(&self) -> &[u8] {
        self.line.as_slice()
    }

    /// Whether a reply was a refusal.
    pub fn was_refused(&self) -> bool {
        self.was_refused
    }

    /// Sends a request, and takes the first line of its reply.
    pub fn ask(&mut self, request: Request<'_>) -> Result<(), Fault> {
        self.request.clear();
        put_request(&mut self.request, request)?;
        if finish(&mut self.sink, self.request.as_slice()).is_err() {
            return Err(Fault::Connection);
        }
        self.take_line()?;
        if is_refusal(self.line.as_slice()) {
            self.was_refused = true;
            return Ok(());
        }
        if self.line.as_slice().starts_with(b"+ ") {
            Ok(())
        } else {
            Err(Fault::Reply)
        }
    }

    /// Takes the next line of a reply.
    pub fn take_line(&mut self) -> Result<(), Fault> {
        if self.replies.next_whole(&mut self.line, Fault::Connection)? {
            Ok(())
        } else {
            Err(Fault::Connection)
        }
    }
}
