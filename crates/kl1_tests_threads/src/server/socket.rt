// The conversation over a socket of this machine.

use crate::server::row::{LINES, REPLIES, alice};
use kl1_server_work::{StartupError, Totals, serve_all};
use std::alloc::Global;
use std::io::{Read, Write};
use std::net::{Net, SocketAddr, TcpListener, TcpStream};
use std::sync::Wait;
use std::thread::Threads;
use std::time::Duration;
use std::{io, thread};

/// The seconds for which a client waits for bytes.
const PATIENCE: u64 = 30;

/// What comes back to a client, up to the end of the connection; or what comes of the first read that fails.
fn asked<R>(rt: &R, alloc: Global, address: SocketAddr) -> io::Result<Vec<u8>>
where
    R: Net<Listener = TcpListener, Stream = TcpStream>,
{
    let stream = TcpStream::connect(rt, address)?;
    stream.set_read_timeout(Some(Duration::from_secs(PATIENCE)))?;
    let mut writer = &stream;
    writer.write_all(LINES)?;
    let mut replies = Vec::new(alloc);
    let mut buffer = [0u8; 256];
    let mut reader = &stream;
    // Each read gives a byte at least, or is the last.
    for _ in 0..REPLIES.len() {
        if replies.len() >= REPLIES.len() {
            break;
        }
        let count = reader.read(&mut buffer)?;
        if count == 0 {
            break;
        }
        replies.extend_from_slice(&buffer[..count])?;
    }
    Ok(replies)
}

/// What a client was told by a server that runs beside it, and what the server counted.
fn talk<R>(rt: &R, alloc: Global) -> io::Result<(Result<Totals, StartupError>, io::Result<Vec<u8>>)>
where
    R: Net<Listener = TcpListener, Stream = TcpStream> + Threads + Wait + Sync,
{
    let listener = TcpListener::bind(rt, "127.0.0.1:0")?;
    let address = listener.local_addr()?;
    let keys = [alice(alloc)?];
    Ok(thread::join(
        rt,
        || serve_all(rt, alloc, &listener, &keys, 2, 1),
        || asked(rt, alloc, address),
    ))
}

/// Whether the conversation goes as it should over a socket.
pub fn is_same_over_a_socket<R>(rt: &R, alloc: Global) -> bool
where
    R: Net<Listener = TcpListener, Stream = TcpStream> + Threads + Wait + Sync,
{
    match talk(rt, alloc) {
        Ok((Ok(totals), Ok(replies))) => {
            replies.as_slice() == REPLIES && totals.events[0] == 0 && totals.steps[0] == 0
        }
        _ => false,
    }
}
