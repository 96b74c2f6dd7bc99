// Words that ask for no work.

use crate::fault::Fault;
use crate::program::Program;
use clap::Error;
use clap::error::ErrorKind;
use std::alloc::{AllocError, Global};
use std::io;

/// How the library of words begins what it tells of a fault.
const ERROR: &str = "error: ";

/// Why words aren't understood, in what the library of words tells.
pub fn why_in(text: &str) -> &str {
    text.strip_prefix(ERROR).unwrap_or(text)
}

/// Words that ask for help or the version, or that aren't understood.
pub struct Unasked {
    error: Error,
}

/// Not derived, so that programs don't prove the drop of each part again.
impl Drop for Unasked {
    fn drop(self) {
        let Unasked { error } = self;
        let _ = error;
    }
}

impl Unasked {
    /// What the library of words tells.
    pub(crate) fn new(error: Error) -> Self {
        Unasked { error }
    }

    /// Whether memory was refused.
    pub fn is_memory(&self) -> bool {
        self.error.kind() == ErrorKind::OutOfMemory
    }

    /// Whether the words are no request for help or the version.
    pub fn is_bad(&self) -> bool {
        self.error.use_stderr()
    }

    /// Writes help or the version to standard output, and else why the words aren't understood to standard error, with `error: ` before it.
    pub fn print<R: Print + Eprint>(&self, rt: &R) -> io::Result<()> {
        self.error.print(rt)
    }

    /// What the library of words tells.
    pub fn text(&self, alloc: Global) -> Result<String, AllocError> {
        format!(in alloc; "{}", self.error)
    }

    /// Writes help or the version to standard output, and answers the program's status; or answers why the words aren't understood.
    pub fn tell<R: Print + Eprint + AllocGlobal>(
        &self,
        rt: &R,
        program: &Program,
    ) -> Result<u8, Fault> {
        if self.is_bad() {
            let text = self.text(rt.alloc())?;
            let why = why_in(text.as_str());
            let line = format!(in rt.alloc(); "{}: {why}", program.name)?;
            return Err(Fault::Lines(line.into_bytes()));
        }
        match self.print(rt) {
            Ok(()) => Ok(0),
            Err(error) => Err(Fault::Write(error)),
        }
    }
}
