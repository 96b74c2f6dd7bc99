// Hosts that are visited in other ways.

use crate::host::guest::Visit;
use crate::host::hosted::{Outcome, setup, visited};
use kl1_host_work::{Limits, Setup, Syncing};
use std::alloc::Global;
use std::net::{Net, TcpListener, TcpStream};
use std::sync::Wait;
use std::thread::Threads;
use std::time::{Clock, Duration};

/// What a file costs that does all that is asked of it.
const ENOUGH: usize = 100_000;

/// The text of an account in which nothing has happened.
const FRESH: &[u8] = b"journal 5 0 0\n";

/// What lets in, and what comes back.
const LOGIN: &[u8] = b"login alice k1\n";

const WELCOME: &[u8] = b"+ welcome alice\n";

/// Whether this came back, and the first file is this.
fn is_so(outcome: &Outcome, replies: &[u8], file: &[u8]) -> bool {
    match outcome.files.as_slice() {
        [first, _] => outcome.replies.as_slice() == replies && first.as_slice() == file,
        _ => false,
    }
}

/// Whether a host that is set up and visited so replies with these bytes, and leaves this file of its first account.
fn leaves<R>(
    rt: &R,
    alloc: Global,
    lines: &[u8],
    visit: Visit,
    setup: Setup,
    replies: &[u8],
    file: &[u8],
) -> bool
where
    R: Net<Listener = TcpListener, Stream = TcpStream> + Threads + Wait + Clock + Sync,
{
    match visited(rt, alloc, &[FRESH, FRESH], ENOUGH, lines, visit, setup) {
        Ok(outcome) => is_so(&outcome, replies, file),
        Err(_) => false,
    }
}

/// A host that is stopped ends a connection that is silent.
pub(crate) fn stop_ends_open_connections<R>(rt: &R, alloc: Global) -> bool
where
    R: Net<Listener = TcpListener, Stream = TcpStream> + Threads + Wait + Clock + Sync,
{
    let visit = Visit::Open(WELCOME.len());
    leaves(rt, alloc, LOGIN, visit, setup(), WELCOME, FRESH)
}

/// Of an address that has as many connections as it may another one is closed, and isn't answered.
pub(crate) fn address_has_a_limit<R>(rt: &R, alloc: Global) -> bool
where
    R: Net<Listener = TcpListener, Stream = TcpStream> + Threads + Wait + Clock + Sync,
{
    let setup = Setup {
        limits: Limits {
            each: 1,
            waiting_each: 1,
            idle: Duration::from_secs(30),
            idle_login: Duration::from_secs(30),
        },
        ..setup()
    };
    let visit = Visit::Second(WELCOME.len());
    leaves(rt, alloc, LOGIN, visit, setup, WELCOME, FRESH)
}

/// What no reply waits for is on disk when a host has ended.
pub(crate) fn stop_writes_what_is_left<R>(rt: &R, alloc: Global) -> bool
where
    R: Net<Listener = TcpListener, Stream = TcpStream> + Threads + Wait + Clock + Sync,
{
    let setup = Setup {
        syncing: Syncing {
            replies_wait: false,
            period: Duration::from_secs(3_600),
        },
        ..setup()
    };
    let lines = b"login alice k1\nstart 10 0 9 true\nrun 5\nlogout\n";
    let replies = b"+ welcome alice\n+ shoen 1\n+ 1\n+ bye\n";
    let file = b"journal 5 0 0\nstart 10 0 9 true\nrun 1\n";
    leaves(rt, alloc, lines, Visit::Whole, setup, replies, file)
}

/// An account that has loaded what it may is refused a load as if memory was refused, and nothing else.
pub(crate) fn loads_have_a_limit<R>(rt: &R, alloc: Global) -> bool
where
    R: Net<Listener = TcpListener, Stream = TcpStream> + Threads + Wait + Clock + Sync,
{
    let setup = Setup {
        codes_each: 12,
        ..setup()
    };
    let lines = b"login alice k1\nload 12\n:- module f.\nload 12\n:- module g.\nmodules\nlogout\n";
    let replies = b"+ welcome alice\n+ loaded f\n- 10 memory\n+ 1\nf 12 0\n+ bye\n";
    let file = b"journal 5 0 0\nload 3a2d206d6f64756c6520662e\n";
    leaves(rt, alloc, lines, Visit::Whole, setup, replies, file)
}
