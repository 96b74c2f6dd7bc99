// Why a program can't do what it is asked.

use crate::program::{Program, SystemFaults};
use std::alloc::{AllocError, AllocFailed};
use std::io;
use std::io::{ErrorKind, Write};

/// The status if words or files are bad, if a call of the system fails, and if memory is refused.
pub const BAD: u8 = 2;

/// The status if nobody reads what is written: 128 and the number of SIGPIPE, as a shell tells of a program that this signal ended.
pub const LEFT: u8 = 141;

/// Why a program can't do what it is asked.
pub enum Fault {
    /// What these lines say.
    Lines(Vec<u8>),
    /// What these words say, which are told after the program's name, with this status.
    Words(u8, String),
    /// A call of the system failed.
    System(io::Error),
    /// A write failed.
    Write(io::Error),
    /// Memory was refused.
    Memory,
}

/// Not derived, so that programs don't prove the drop of each part again.
impl Drop for Fault {
    fn drop(self) {
        match self {
            Fault::Lines(lines) => {
                let _ = lines;
            }
            Fault::Words(_, words) => {
                let _ = words;
            }
            Fault::System(error) => {
                let _ = error;
            }
            Fault::Write(error) => {
                let _ = error;
            }
            Fault::Memory => {}
        }
    }
}

/// Whether nobody reads what is written.
fn is_left(error: &io::Error) -> bool {
    error.kind() == ErrorKind::BrokenPipe
}

/// Whether memory was refused.
fn is_memory(error: &io::Error) -> bool {
    error.kind() == ErrorKind::OutOfMemory
}

/// Tells these words after the program's name, and answers its status.
fn tell_words<E: Eprint>(err: &E, program: &Program, words: &str) -> u8 {
    let _ = eprintln!(err; "{}: {words}", program.name);
    BAD
}

/// Tells what the system says of a call that failed after the program's name, and answers its status.
fn tell_system<E: Eprint>(err: &E, program: &Program, error: &io::Error) -> u8 {
    let _ = eprintln!(err; "{}: {error}", program.name);
    BAD
}

/// What is told if memory is refused.
const NO_MEMORY: &str = "no memory";

impl Fault {
    /// Tells the fault to standard error, which `err` is, and answers the program's status.
    pub fn tell<E: Eprint + Write>(&self, err: &mut E, program: &Program) -> u8 {
        match (self, program.faults) {
            (Fault::Lines(lines), _) => {
                let _ = err.write_all(lines.as_slice());
                BAD
            }
            (Fault::Words(status, words), _) => {
                let _ = eprintln!(err; "{}: {words}", program.name);
                *status
            }
            (Fault::Memory, _) => tell_words(err, program, NO_MEMORY),
            (Fault::System(error), SystemFaults::Writes) => tell_system(err, program, error),
            (Fault::System(error) | Fault::Write(error), _) if is_left(error) => LEFT,
            (Fault::Write(_), SystemFaults::Writes) => tell_words(err, program, "write fault"),
            (Fault::System(error) | Fault::Write(error), SystemFaults::PipesAndMemory)
                if is_memory(error) => { tell_words(err, program, NO_MEMORY) }
            (Fault::System(error) | Fault::Write(error), _) => tell_system(err, program, error),
        }
    }
}

impl From<AllocError> for Fault {
    fn from(_refused: AllocError) -> Self {
        Fault::Memory
    }
}

impl<T: Drop> From<AllocFailed<T>> for Fault {
    fn from(_refused: AllocFailed<T>) -> Self {
        Fault::Memory
    }
}

impl From<io::Error> for Fault {
    fn from(error: io::Error) -> Self {
        Fault::System(error)
    }
}
