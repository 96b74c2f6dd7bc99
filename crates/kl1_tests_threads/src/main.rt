//! Tries rows and checks of what threads share: the table of names, the tally, tickets, accounts under locks with threads that command
//! them and workers, and the server; and measures them.
#![tactic(auto)]

mod atoms;
mod gate;
mod measures;
mod pool;
mod report;
mod rows;
mod server;
mod tally;
mod tickets;

use crate::report::{Text, put_check};
use crate::rows::cut;
use std::io;
use std::io::{Error, ErrorKind, Read, Write};
use std::net::{Net, TcpListener, TcpStream};
use std::rt::Clock;
use std::sync::Wait;
use std::thread::Threads;

/// What the heading of a group of rows begins with.
const HEADING: &[u8] = b"== ";

/// The line with which rows end if checks are to follow.
const CHECKS: &[u8] = b"== checks\n";

/// Tries the rows of a text, and puts a line on each, with the heading of its group.
fn put_rows<R: Threads + Wait + Clock + Sync>(rt: &R, out: &mut Text, text: &[u8]) {
    let mut heading: &[u8] = b"";
    let mut left = text;
    for _ in 0..text.len() {
        let (line, behind) = cut(left, b'\n');
        match line.strip_prefix(HEADING) {
            Some(next) => heading = next,
            None => {
                if !line.is_empty() {
                    let done = pool::is_right(rt, out.alloc, line);
                    put_check(out, heading, Ok(done));
                }
            }
        }
        left = behind;
    }
}

/// Puts a line on each check.
fn put_checks<R>(rt: &R, out: &mut Text)
where
    R: Net<Listener = TcpListener, Stream = TcpStream> + Threads + Wait + Clock + Sync,
{
    pool::put_checks(rt, out);
    server::put_checks(rt, out);
    atoms::put_checks(rt, out);
    tally::put_checks(rt, out);
    tickets::put_checks(rt, out);
}

/// Tries the rows of a text, and after them the checks if the text ends with the heading of checks.
fn put_tried<R>(rt: &R, out: &mut Text, text: &[u8])
where
    R: Net<Listener = TcpListener, Stream = TcpStream> + Threads + Wait + Clock + Sync,
{
    put_rows(rt, out, text);
    if text.ends_with(CHECKS) {
        put_checks(rt, out);
    }
}

/// Tries the rows of its input; if that is the word for a measure and a line feed, the program measures.
fn main(rt: HostRuntime) -> io::Result<()> {
    let mut rows = Vec::new(rt.alloc());
    rt.stdin().read_to_end(&mut rows)?;
    let mut out = Text::new(rt.alloc());
    match rows.as_slice() {
        b"pool\n" => pool::put_times(&rt, &mut out),
        b"idle\n" => pool::put_idle(&rt, &mut out),
        b"names\n" => atoms::put_times(&rt, &mut out),
        b"tally\n" => tally::put_times(&rt, &mut out),
        text => put_tried(&rt, &mut out, text),
    }
    if out.has_failed {
        return Err(Error::from(ErrorKind::OutOfMemory));
    }
    rt.stdout().write_all(out.bytes.as_slice())
}
