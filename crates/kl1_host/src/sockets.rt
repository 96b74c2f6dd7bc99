// The sockets of a host.

use crate::fault::{BAD, Fault, at_path, fault_at};
use crate::folder::{FILE_MODE, SOCKET, path_in};
use std::alloc::Global;
use std::fs::{self, Permissions};
use std::io::ErrorKind;
use std::net::{Net, TcpListener, TcpStream};
use std::os::unix::fs::PermissionsExt;
use std::os::unix::net::UnixListener;
use std::rt::Files;

/// The most bytes of the path of a socket: there is room for 108, with a zero at the end.
const MOST_SOCKET_BYTES: usize = 107;

/// What listens at an address and a port.
pub fn bind<R>(rt: &R, alloc: Global, address: &str) -> Result<TcpListener, Fault>
where
    R: Net<Listener = TcpListener, Stream = TcpStream>,
{
    match TcpListener::bind(rt, address) {
        Ok(listener) => Ok(listener),
        Err(error) => Err(fault_at(alloc, address, &error)),
    }
}

/// The path of the socket of a folder, if it is short enough for one.
pub fn socket_in(alloc: Global, folder: &str) -> Result<String, Fault> {
    let path = path_in(alloc, folder, SOCKET)?;
    if path.len() > MOST_SOCKET_BYTES {
        let words = format!(in alloc;
            "{path}: the path of a socket may have at most {MOST_SOCKET_BYTES} bytes"
        )?;
        return Err(Fault::Words(BAD, words));
    }
    Ok(path)
}

/// The socket at which the host of a folder is asked. One that an earlier host left goes.
pub fn socket_of<R: Files + Net>(
    rt: &R,
    alloc: Global,
    folder: &str,
) -> Result<UnixListener, Fault> {
    let path = socket_in(alloc, folder)?;
    match fs::remove_file(rt, path.as_str()) {
        Err(error) if error.kind() != ErrorKind::NotFound => {
            return Err(fault_at(alloc, path.as_str(), &error));
        }
        _ => {}
    }
    let socket = at_path(alloc, path.as_str(), UnixListener::bind(rt, path.as_str()))?;
    let mode = Permissions::from_mode(FILE_MODE);
    let set = fs::set_permissions(rt, path.as_str(), mode);
    at_path(alloc, path.as_str(), set)?;
    Ok(socket)
}
