// The talk, once the words are read.

use crate::key::{is_word, key_of};
use crate::terminal::Terminal;
use crate::trouble::Trouble;
use crate::words::Wanted;
use kl1_client_talk::{
    Connection, FailureCounter, Fault, LineReader, ReplyWriter, Source, TROUBLE, TalkSummary,
    status_of, talk,
};
use std::alloc::{AllocError, Global};
use std::io::IsTerminal;
use std::net::{TcpStream, ToSocketAddrs};
use std::time::Duration;
use std::{io, thread};

/// The most bytes of a name that is sent.
const MOST_NAME_BYTES: usize = 64;

/// How often a server that can't be reached is tried again, a second apart.
const MOST_TRIES: u64 = 60;

/// Does what the words ask for, and answers the program's status.
pub fn status_by<'a>(rt: &HostRuntime, wanted: &Wanted<'_, 'a>) -> Result<u8, Trouble<'a>> {
    if !is_word(wanted.name.as_bytes(), MOST_NAME_BYTES) {
        return Err(Trouble::BadName);
    }
    let key = key_of(rt, wanted)?;
    if wanted.commands.is_empty() {
        let is_watched = rt.stdin().is_terminal() && rt.stdout().is_terminal();
        if is_watched {
            let _ = eprintln!(rt; "kl1_client: help tells the commands, quit ends");
        }
        let lines = LineReader::new(rt.alloc(), FailureCounter::new(rt.stdin()));
        let prompt = if is_watched { Some(wanted.name) } else { None };
        let mut terminal = Terminal::new(rt, lines, prompt);
        status_with(rt, wanted, key.as_slice(), &mut terminal)
    } else {
        let text = joined(rt.alloc(), wanted.commands)?;
        let lines = LineReader::new(rt.alloc(), FailureCounter::new(text.as_slice()));
        let mut terminal = Terminal::new(rt, lines, None);
        status_with(rt, wanted, key.as_slice(), &mut terminal)
    }
}

/// Talks until the commands are at their end, over one connection or, if that is asked for, one after another, and answers the
/// program's status.
fn status_with<'a, S: Source>(
    rt: &HostRuntime,
    wanted: &Wanted<'_, 'a>,
    key: &[u8],
    terminal: &mut Terminal<'_, S>,
) -> Result<u8, Trouble<'a>> {
    let mut least = 0;
    let mut tries = 0;
    for _ in 0..u64::MAX {
        match talk_once(rt, wanted, key, terminal) {
            Ok(summary) => return Ok(status_of(Ok(summary)).max(least)),
            Err(trouble) => {
                if !wanted.reconnects || tries >= MOST_TRIES {
                    return Err(trouble);
                }
                match trouble {
                    Trouble::Talk(Fault::Connection) | Trouble::Late(_) => {
                        let _ = trouble.tell(rt);
                        let _ = eprintln!(rt;
                            "kl1_client: the last command may be done or not; connecting again"
                        );
                        least = TROUBLE;
                        tries = 0;
                    }
                    Trouble::Address(..) => tries += 1,
                    _ => return Err(trouble),
                }
                thread::sleep(rt, Duration::from_secs(1));
            }
        }
    }
    Err(Trouble::Talk(Fault::Connection))
}

/// A stream to the server, within the seconds that are given.
fn connected(rt: &HostRuntime, address: &str, timeout: Option<Duration>) -> io::Result<TcpStream> {
    let Some(limit) = timeout else {
        return TcpStream::connect(rt, address);
    };
    let mut last = None;
    for place in address.to_socket_addrs(rt)? {
        match TcpStream::connect_timeout(rt, &place, limit) {
            Ok(stream) => return Ok(stream),
            Err(error) => last = Some(error),
        }
    }
    match last {
        Some(error) => Err(error),
        None => TcpStream::connect(rt, address),
    }
}

/// Talks with a server over one connection.
fn talk_once<'a, S: Source>(
    rt: &HostRuntime,
    wanted: &Wanted<'_, 'a>,
    key: &[u8],
    terminal: &mut Terminal<'_, S>,
) -> Result<TalkSummary, Trouble<'a>> {
    let timeout = wanted.timeout.map(Duration::from_secs);
    let stream = match connected(rt, wanted.address, timeout) {
        Ok(stream) => stream,
        Err(error) => return Err(Trouble::Address(wanted.address, error)),
    };
    // Each request is one write, so nothing is gained by waiting for more.
    let _ = stream.set_nodelay(true);
    let _ = stream.set_read_timeout(timeout);
    let mut connection = Connection::new(
        rt.alloc(),
        FailureCounter::new(&stream),
        FailureCounter::new(&stream),
    );
    let mut replies = ReplyWriter::new(rt.alloc(), FailureCounter::new(rt.stdout()), wanted.all);
    let talked = talk(
        rt.alloc(),
        &mut connection,
        &mut replies,
        terminal,
        wanted.name.as_bytes(),
        key,
    );
    match (talked, wanted.timeout) {
        (Ok(summary), _) => Ok(summary),
        (Err(Fault::Connection), Some(seconds)) if is_open(&stream) => Err(Trouble::Late(seconds)),
        (Err(fault), _) => Err(Trouble::Talk(fault)),
    }
}

/// Whether a connection on which nothing more came is open all the same.
fn is_open(stream: &TcpStream) -> bool {
    let _ = stream.set_nonblocking(true);
    match stream.peek(&mut [0u8; 1]) {
        Ok(_) => false,
        Err(error) => error.kind() == io::ErrorKind::WouldBlock,
    }
}

/// The commands, each with a line's end after it.
fn joined(alloc: Global, commands: &[&str]) -> Result<Vec<u8>, AllocError> {
    let mut text = Vec::new(alloc);
    for command in commands {
        text.extend_from_slice(command.as_bytes())?;
        text.extend_from_slice(b"\n")?;
    }
    Ok(text)
}
