// The report, and answers as they are put together.

use itoa::Buffer;
use std::alloc::{AllocError, Global};

/// A text as it is put together, and whether what it is to say could not be found or put.
#[derive(Drop)]
pub struct Text {
    pub alloc: Global,
    pub bytes: Vec<u8>,
    pub has_failed: bool,
}

impl Text {
    /// A text of nothing.
    pub fn new(alloc: Global) -> Self {
        Text {
            alloc,
            bytes: Vec::new(alloc),
            has_failed: false,
        }
    }

    /// Notes whether a call was refused.
    pub fn note(&mut self, done: Result<(), AllocError>) {
        if done.is_err() {
            self.has_failed = true;
        }
    }

    /// Notes that there is nothing to say.
    pub fn fail(&mut self) {
        self.has_failed = true;
    }

    /// Puts bytes.
    pub fn put(&mut self, bytes: &[u8]) {
        let done = self.bytes.extend_from_slice(bytes);
        self.note(done);
    }

    /// Puts a number.
    pub fn put_number(&mut self, number: u64) {
        self.put(Buffer::new().format(number).as_bytes());
    }
}

/// Puts the line on a row or a check: its name, and `right` or `WRONG`.
pub fn put_check(out: &mut Text, name: &[u8], done: Result<bool, AllocError>) {
    out.put(name);
    out.put(match done {
        Ok(true) => b" right\n",
        _ => b" WRONG\n",
    });
}
