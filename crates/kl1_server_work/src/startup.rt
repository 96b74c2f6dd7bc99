// All that is looked at before the server serves.

ghost use Rattle.std.specs.Prelude.{◌≤◌, length, IfOk};
ghost use Rattle.kl1_model.specs.declared.limits.TheConstants.{MOST_ACCOUNTS};

use crate::accounts::read_accounts;
use crate::startup_error::StartupError;
use crate::words::{Words, words_in};
use kl1_lines::FailureCounter;
use kl1_session::Key;
use std::alloc::Global;
use std::fs::{File, Files};
use std::io;
use std::net::{Net, TcpListener, TcpStream};

/// What a server needs.
#[derive(Drop)]
pub struct Startup<'a> {
    /// Its words.
    pub words: Words<'a>,
    /// Its accounts with their keys.
    pub keys: Vec<Key>,
    /// The socket at which it listens.
    pub listener: TcpListener,
    pub ghost some: { 1 ≤ length keys.items },
    pub ghost few: { length keys.items ≤ MOST_ACCOUNTS },
}

/// Why a call of the system failed: for want of memory, or else as this says.
fn startup_error_of(error: io::Error, otherwise: StartupError) -> StartupError {
    if error.kind() == io::ErrorKind::OutOfMemory {
        StartupError::Memory
    } else {
        otherwise
    }
}

/// The accounts of the file of this name, with their keys.
fn accounts_in<R: Files>(rt: &R, alloc: Global, name: &str) -> Result<Vec<Key>, StartupError>
    ensures some { IfOk result (λ keys. 1 ≤ length keys.items) }
    ensures few { IfOk result (λ keys. length keys.items ≤ MOST_ACCOUNTS) }
{
    match File::open(rt, name) {
        Ok(file) => read_accounts(alloc, &mut FailureCounter::new(file)),
        Err(error) => Err(startup_error_of(error, StartupError::Accounts)),
    }
}

/// Looks at the words, of which the first is the program's name, then at the file of accounts, and then listens. The first that is no
/// good is told.
pub fn ready_by<'a, R>(
    rt: &R,
    alloc: Global,
    words: &'a [String],
) -> Result<Startup<'a>, StartupError>
where
    R: Net<Listener = TcpListener, Stream = TcpStream> + Files,
{
    let words = words_in(alloc, words)?;
    let keys = accounts_in(rt, alloc, words.file)?;
    match TcpListener::bind(rt, words.address) {
        Ok(listener) => Ok(Startup {
            words,
            keys,
            listener,
        }),
        Err(error) => Err(startup_error_of(error, StartupError::Listen)),
    }
}
