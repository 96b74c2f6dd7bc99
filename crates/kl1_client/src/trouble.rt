// Why nothing could be asked, or not all.

use kl1_client_talk::{BAD_WORDS, Fault, TROUBLE};
use std::alloc::{AllocError, AllocFailed};
use std::io;

/// Why nothing could be asked, or not all.
#[derive(Drop)]
pub enum Trouble<'a> {
    /// The account's name has no byte, or one that is no printable ASCII or a blank.
    BadName,
    /// There is neither a file for the key nor one in the environment.
    NoKey,
    /// The key has no byte or too many, or one that is no printable ASCII or a blank.
    BadKey,
    /// The file of the key can't be read.
    KeyFile(&'a str, io::Error),
    /// The server can't be reached.
    Address(&'a str, io::Error),
    /// No reply came within this number of seconds.
    Late(u64),
    /// The talk ended before its commands did.
    Talk(Fault),
}

impl Trouble<'_> {
    /// Tells the trouble, and answers the program's status.
    pub fn tell(&self, rt: &HostRuntime) -> u8 {
        let _ = match self {
            Trouble::BadName => eprintln!(rt; "kl1_client: bad name"),
            Trouble::NoKey => {
                eprintln!(rt; "kl1_client: no key: give --key-file FILE, or set KL1_KEY")
            }
            Trouble::BadKey => eprintln!(rt; "kl1_client: bad key"),
            Trouble::KeyFile(name, error) | Trouble::Address(name, error) => {
                eprintln!(rt; "kl1_client: {name}: {error}")
            }
            Trouble::Late(seconds) => {
                eprintln!(rt; "kl1_client: no reply within {seconds} seconds")
            }
            Trouble::Talk(fault) => eprintln!(rt; "kl1_client: {}", text_of(*fault)),
        };
        match self {
            Trouble::BadName | Trouble::NoKey | Trouble::BadKey => BAD_WORDS,
            _ => TROUBLE,
        }
    }
}

/// What is told of a fault.
fn text_of(fault: Fault) -> &'static str {
    match fault {
        Fault::Connection => "the connection ended",
        Fault::Reply => "what came is no reply",
        Fault::Commands => "the commands can't be read",
        Fault::Write => "write fault",
        Fault::Memory => "no memory",
    }
}

impl From<AllocError> for Trouble<'_> {
    fn from(_refused: AllocError) -> Self {
        Trouble::Talk(Fault::Memory)
    }
}

impl<T: Drop> From<AllocFailed<T>> for Trouble<'_> {
    fn from(_refused: AllocFailed<T>) -> Self {
        Trouble::Talk(Fault::Memory)
    }
}
