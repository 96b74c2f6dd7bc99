// What is told of a host that doesn't start.

use crate::fault::{BAD, Fault, REFUSED};
use crate::faulty_line::LineFault;
use crate::folder::journal_in;
use crate::journals::why_of;
use kl1_host_journals::{LinkFault, OpenFault};
use kl1_host_work::StartFault;
use kl1_log::LogError;
use kl1_session::Key;
use std::alloc::Global;
use std::rt::Files;

/// The path of the journal of an account, by its number.
fn path_of(alloc: Global, folder: &str, keys: &[Key], account: usize) -> Result<String, Fault> {
    let name = match keys.get(account) {
        Some(key) => key.name.as_slice(),
        None => b"",
    };
    Ok(journal_in(alloc, folder, name)?)
}

/// The fault of a journal's file that can't be opened, and why, if that is a line.
pub fn open_fault(
    alloc: Global,
    path: &str,
    fault: &OpenFault,
    why: LineFault,
) -> Result<Fault, Fault> {
    Ok(match fault {
        OpenFault::Line(line) => Fault::Words(
            REFUSED,
            format!(in alloc;
                "{path}:{line}: {}; kl1_host run DIR --repair keeps what is before it",
                why.words()
            )?,
        ),
        OpenFault::Failed(error) => Fault::Words(BAD, format!(in alloc; "{path}: {error}")?),
    })
}

/// The fault of a host that doesn't start.
pub fn start_fault<R: Files>(
    rt: &R,
    alloc: Global,
    folder: &str,
    keys: &[Key],
    fault: StartFault,
) -> Result<Fault, Fault> {
    Ok(match fault {
        StartFault::Accounts => Fault::Words(
            BAD,
            format!(in alloc; "{folder}: there is no account yet; kl1_host add DIR NAME adds one")?,
        ),
        StartFault::Unopened { account, fault } => {
            let path = path_of(alloc, folder, keys, account)?;
            let why = why_of(rt, alloc, path.as_str(), &fault)?;
            open_fault(alloc, path.as_str(), &fault, why)?
        }
        StartFault::Unaccepted { account, line } => {
            let path = path_of(alloc, folder, keys, account)?;
            Fault::Words(
                REFUSED,
                format!(in alloc;
                    "{path}:{line}: an entry that isn't accepted; kl1_host run DIR --repair keeps what is before it"
                )?,
            )
        }
        StartFault::Unlinked {
            fault: LinkFault::Memory | LinkFault::Unwritten(LogError::Memory),
            ..
        }
        | StartFault::Memory => Fault::Memory,
        StartFault::Unlinked { account, fault } => {
            let path = path_of(alloc, folder, keys, account)?;
            Fault::Words(
                BAD,
                match fault {
                    LinkFault::Unread(error) | LinkFault::Unwritten(LogError::Failed(error)) => {
                        format!(in alloc; "{path}: {error}")?
                    }
                    _ => format!(in alloc; "{path}: it can't be written")?,
                },
            )
        }
        StartFault::Threads => Fault::Words(BAD, format!(in alloc; "no thread can be made")?),
    })
}
