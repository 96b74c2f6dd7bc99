// The host of a folder, if one runs, is told what has changed.

use crate::ask::asked_of;
use crate::fault::{BAD, Fault, REFUSED};
use crate::lock::try_lock_folder;
use std::fs::File;
use std::io::Write;
use std::thread;
use std::time::Duration;

/// After how many milliseconds a host is asked again.
const ASKED_AGAIN_AFTER: u64 = 20;

/// How often it is asked before who called is told that it waits.
const TOLD_AFTER: u64 = 50;

/// How what a host answers begins if nothing was changed.
const FAULT: &[u8] = b"fault: ";

/// Waits until no host has the account of this name any more, and none can take it up: the host that runs was asked to let it go, or the folder's
/// lock is held, which is given back then. The file of accounts hasn't its line any more, or is read by no host while its lock is held.
pub fn let_go(rt: &HostRuntime, folder: &str, name: &str) -> Result<Option<File>, Fault> {
    let alloc = rt.alloc();
    let line = format!(in alloc; "close {name}\n")?;
    for count in 0..u64::MAX {
        if let Some(lock) = try_lock_folder(rt, alloc, folder)? {
            return Ok(Some(lock));
        }
        // One that starts doesn't answer yet.
        if let Some(answer) = asked_of(rt, folder, line.as_str())? {
            if answer.as_slice() == b"left\n".as_slice()
                || answer.as_slice() == b"unknown\n".as_slice()
            {
                return Ok(None);
            }
            if answer.as_slice() != b"leaving\n".as_slice() && !answer.is_empty() {
                let words = format!(in alloc; "{folder}: the host there is another version")?;
                return Err(Fault::Words(BAD, words));
            }
        }
        if count == TOLD_AFTER {
            let _ = eprintln!(rt; "kl1_host: waits until the host lets {name} go");
        }
        thread::sleep(rt, Duration::from_millis(ASKED_AGAIN_AFTER));
    }
    Ok(None)
}

/// Asks the host of a folder, if one runs there, with a line by which it takes up what has changed; what it answers is told to standard error, or
/// to standard output if `shown`. Answers the program's status.
pub fn tell_host(
    rt: &HostRuntime,
    folder: &str,
    line: &str,
    shown: bool,
) -> Result<Option<u8>, Fault> {
    let Some(answer) = asked_of(rt, folder, line)? else {
        return Ok(None);
    };
    if let Some(words) = answer.strip_prefix(FAULT) {
        let mut err = rt.stderr();
        let _ = err.write_all(b"kl1_host: ");
        let _ = err.write_all(words);
        return Ok(Some(REFUSED));
    }
    if shown {
        rt.stdout().write_all(answer.as_slice())?;
    } else {
        let _ = rt.stderr().write_all(answer.as_slice());
    }
    Ok(Some(0))
}

/// Has the host of a folder read settings and accounts anew, tells what is other, and answers the program's status.
pub fn reload_host(rt: &HostRuntime, folder: &str) -> Result<u8, Fault> {
    let _lock = crate::accounts_file::lock_accounts(rt, folder)?;
    match tell_host(rt, folder, "reload\n", true)? {
        Some(status) => Ok(status),
        None => {
            let words = format!(in rt.alloc(); "{folder}: no host runs there")?;
            Err(Fault::Words(REFUSED, words))
        }
    }
}
