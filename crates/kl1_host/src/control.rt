// What a host that runs is asked by its socket.

ghost use Rattle.std.specs.Prelude.{◌≡◌};
ghost use Rattle.kl1_host.specs.Asks.{line_in, is_close, line_asks, asked_in};

use kl1_lines::is_same;
use std::alloc::{AllocError, Global};
use std::io::{Read, Write};
use std::os::unix::net::{UnixListener, UnixStream};
use std::sync::Wait;
use std::thread;
use std::time::{Clock, Duration};

/// The most bytes of what is asked.
const MOST_ASKED: usize = 64;

/// For how long who asks may be silent, in seconds.
const MOST_SILENT_SECONDS: u64 = 5;

/// How long is waited if nobody asks, in milliseconds.
const PAUSE_MILLISECONDS: u64 = 50;

/// What is asked.
#[derive(Clone, Copy)]
enum Ask {
    Status,
    Stop,
    /// That the file of accounts is read anew.
    Accounts,
    /// That settings and accounts are read anew.
    Reload,
    /// That an account leaves, whose name stands from the byte of this number on, and ends before the byte of this other number.
    Close(usize, usize),
    Unknown,
}

/// How it is asked that an account leaves.
const CLOSE: &[u8] = b"close ";

/// Bytes without a line feed at their end.
fn line_in(bytes: &[u8]) -> &[u8]
    ensures { result.now ≡ line_in bytes.now }
{
    let end = bytes.len().saturating_sub(1);
    let Some(last) = bytes.last() else {
        return bytes;
    };
    if *last == b'\n' { &bytes[..end] } else { bytes }
}

/// Whether a line asks that an account leaves.
fn is_close(line: &[u8]) -> bool
    ensures { result ≡ is_close line.now }
{
    line.len() >= CLOSE.len() && is_same(&line[..CLOSE.len()], CLOSE)
}

/// What a line asks.
fn ask_of(line: &[u8]) -> Ask
    ensures { result ≡ line_asks line.now }
{
    if is_same(line, b"status") {
        Ask::Status
    } else if is_same(line, b"stop") {
        Ask::Stop
    } else if is_same(line, b"accounts") {
        Ask::Accounts
    } else if is_same(line, b"reload") {
        Ask::Reload
    } else if is_close(line) {
        Ask::Close(CLOSE.len(), line.len())
    } else {
        Ask::Unknown
    }
}

/// What these bytes ask, of which the last may be a line feed.
fn ask_in(bytes: &[u8]) -> Ask
    ensures { result ≡ asked_in bytes.now }
{
    ask_of(line_in(bytes))
}

/// What is asked over a stream: what comes in one read, which stands in `bytes` then.
fn asked_by(stream: &mut UnixStream, bytes: &mut [u8; MOST_ASKED]) -> Ask {
    let _ = stream.set_read_timeout(Some(Duration::from_secs(MOST_SILENT_SECONDS)));
    let _ = stream.set_write_timeout(Some(Duration::from_secs(MOST_SILENT_SECONDS)));
    match stream.read(bytes) {
        Ok(count) => ask_in(&bytes[..count]),
        Err(_) => Ask::Unknown,
    }
}

/// Who attends to a host.
pub trait Attendant {
    /// Puts the lines that tell how the host goes after others.
    fn put_status(&self, out: &mut Vec<u8>) -> Result<(), AllocError>;

    /// Does what is to be done again and again, each second at most once.
    fn tick(&mut self);

    /// Whether the host ends without being asked to.
    fn is_over(&self) -> bool;

    /// Reads the file of accounts anew, and with `settings` those too; puts what is other.
    fn reload(&mut self, settings: bool, out: &mut Vec<u8>) -> Result<(), AllocError>;

    /// Lets an account leave, and puts how far that is.
    fn close(&mut self, name: &[u8], out: &mut Vec<u8>) -> Result<(), AllocError>;
}

/// Answers who asks for something that is done at once.
fn tell_done<A: Attendant>(
    alloc: Global,
    attendant: &mut A,
    stream: &mut UnixStream,
    ask: Ask,
    bytes: &[u8],
) {
    let mut lines = Vec::new(alloc);
    let done = match ask {
        Ask::Accounts => attendant.reload(false, &mut lines),
        Ask::Reload => attendant.reload(true, &mut lines),
        Ask::Close(from, to) => attendant.close(bytes.get(from..to).unwrap_or(&[]), &mut lines),
        _ => Ok(()),
    };
    if done.is_err() {
        let _ = stream.write_all(b"fault: memory was refused\n");
    }
    let _ = stream.write_all(lines.as_slice());
}

/// Answers who asks for the status.
fn tell_status<A: Attendant>(alloc: Global, attendant: &A, stream: &mut UnixStream) {
    let mut lines = Vec::new(alloc);
    if attendant.put_status(&mut lines).is_ok() {
        let _ = stream.write_all(lines.as_slice());
    }
}

/// Answers who asks how the host goes, until somebody asks it to stop: gives the stream that asked, to be closed when the host has ended; `None` if
/// the host ends without being asked to.
pub fn answer_until_stop<R: Wait + Clock, A: Attendant>(
    rt: &R,
    alloc: Global,
    listener: &UnixListener,
    attendant: &mut A,
) -> Option<UnixStream> {
    let _ = listener.set_nonblocking(true);
    let mut bytes = [0u8; MOST_ASKED];
    for _ in rt.forever() {
        attendant.tick();
        if attendant.is_over() {
            return None;
        }
        // Nobody asks, or too many files are open.
        let Ok((mut stream, _)) = listener.accept() else {
            thread::sleep(rt, Duration::from_millis(PAUSE_MILLISECONDS));
            continue;
        };
        match asked_by(&mut stream, &mut bytes) {
            Ask::Stop => return Some(stream),
            Ask::Status => tell_status(alloc, attendant, &mut stream),
            Ask::Unknown => {
                let _ = stream.write_all(
                    b"status, stop, reload, accounts and close NAME are what a host is asked\n",
                );
            }
            ask => tell_done(alloc, attendant, &mut stream, ask, &bytes),
        }
    }
    None
}
