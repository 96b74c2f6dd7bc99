// The report: a line for each check.

use std::alloc::{AllocError, Global};

/// The report as it is put together, and whether memory was refused for it.
#[derive(Drop)]
pub(crate) struct Report {
    pub(crate) bytes: Vec<u8>,
    pub(crate) has_failed: bool,
}

impl Report {
    /// A report of no check.
    pub(crate) fn new(alloc: Global) -> Self {
        Report {
            bytes: Vec::new(alloc),
            has_failed: false,
        }
    }

    /// Puts bytes.
    fn put_bytes(&mut self, bytes: &[u8]) {
        if self.bytes.extend_from_slice(bytes).is_err() {
            self.has_failed = true;
        }
    }

    /// Puts the line on a check: its name, and `right` or `WRONG`. A check that was refused memory is wrong.
    pub(crate) fn put(&mut self, name: &[u8], done: Result<bool, AllocError>) {
        self.put_bytes(name);
        self.put_bytes(match done {
            Ok(true) => b" right\n",
            _ => b" WRONG\n",
        });
    }
}
