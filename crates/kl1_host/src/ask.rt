// A host that runs is asked.

use crate::fault::{Fault, REFUSED, fault_at};
use crate::sockets::socket_in;
use std::alloc::Global;
use std::io::{self, ErrorKind, Read, Write};
use std::os::unix::net::UnixStream;

/// The bytes of one read.
const PIECE: usize = 4_096;

/// The fault of a call at the socket of a folder. A host that ends breaks the connections of those whom it hasn't answered.
fn fault_of(alloc: Global, folder: &str, path: &str, error: &io::Error) -> Fault {
    match error.kind() {
        ErrorKind::NotFound
        | ErrorKind::ConnectionRefused
        | ErrorKind::ConnectionReset
        | ErrorKind::BrokenPipe => match format!(in alloc; "{folder}: no host runs there") {
            Ok(words) => Fault::Words(REFUSED, words),
            Err(_) => Fault::Memory,
        },
        _ => fault_at(alloc, path, error),
    }
}

/// Asks the host of a folder with a line, shows what it answers, up to its end, as it comes, and answers the program's status. A host that
/// is asked to stop answers until it has ended.
pub fn ask_host(rt: &HostRuntime, folder: &str, line: &str) -> Result<u8, Fault> {
    let alloc = rt.alloc();
    let path = socket_in(alloc, folder)?;
    let path = path.as_str();
    let mut stream = match UnixStream::connect(rt, path) {
        Ok(stream) => stream,
        Err(error) => return Err(fault_of(alloc, folder, path, &error)),
    };
    if let Err(error) = stream.write_all(line.as_bytes()) {
        return Err(fault_of(alloc, folder, path, &error));
    }
    let mut out = rt.stdout();
    let mut piece = [0u8; PIECE];
    for _ in 0..u64::MAX {
        let count = match stream.read(&mut piece) {
            Ok(count) => count,
            Err(error) => return Err(fault_of(alloc, folder, path, &error)),
        };
        if count == 0 {
            break;
        }
        out.write_all(&piece[..count])?;
    }
    Ok(0)
}

/// Whether a call at a socket failed since no host runs there, or it ended.
fn is_gone(error: &io::Error) -> bool {
    matches!(
        error.kind(),
        ErrorKind::NotFound
            | ErrorKind::ConnectionRefused
            | ErrorKind::ConnectionReset
            | ErrorKind::BrokenPipe
    )
}

/// What the host of a folder answers to a line; `None` if none runs there.
pub fn asked_of(rt: &HostRuntime, folder: &str, line: &str) -> Result<Option<Vec<u8>>, Fault> {
    let alloc = rt.alloc();
    // Where no socket can be no host runs.
    let Ok(path) = socket_in(alloc, folder) else {
        return Ok(None);
    };
    let path = path.as_str();
    let mut answer = Vec::new(alloc);
    let asked = match UnixStream::connect(rt, path) {
        Ok(mut stream) => match stream.write_all(line.as_bytes()) {
            Ok(()) => match stream.read_to_end(&mut answer) {
                Ok(_) => Ok(()),
                Err(error) => Err(error),
            },
            Err(error) => Err(error),
        },
        Err(error) => Err(error),
    };
    match asked {
        Ok(()) => Ok(Some(answer)),
        Err(error) if is_gone(&error) => Ok(None),
        Err(error) => Err(fault_at(alloc, path, &error)),
    }
}
