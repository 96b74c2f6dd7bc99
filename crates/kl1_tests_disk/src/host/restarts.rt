// Hosts that are started again.

use crate::host::hosted::{Outcome, hosted};
use crate::sums::{file_of, text_in};
use kl1_host_work::StartFault;
use std::alloc::{AllocError, Global};
use std::net::{Net, TcpListener, TcpStream};
use std::sync::Wait;
use std::thread::Threads;
use std::time::Clock;

/// What a file costs that does all that is asked of it.
const ENOUGH: usize = 100_000;

/// A first conversation.
const LINES: &[u8] =
    b"login alice k1\nload 42\n:- module f.\ng(R) :- true | 1 = 2, R = ok.\nstart 10 0 10 f:g(R)\nrun 1\nquiet\nrun 2\nlogout\n";

/// What comes back.
const REPLIES: &[u8] = b"+ welcome alice\n+ loaded f\n+ shoen 1\n+ 1\n+ no\n+ 2\n+ bye\n";

/// The file after it: the run has grown after it was written.
const FILE: &[u8] =
    b"journal 5 0 0\nload 3a2d206d6f64756c6520662e0a67285229203a2d2074727565207c2031203d20322c2052203d206f6b2e\nstart 10 0 10 f:g(_1)\nrun 1\nrun 2\n";

/// The file after the next start: the text of the account's journal.
const TEXT: &[u8] =
    b"journal 5 0 0\nload 3a2d206d6f64756c6520662e0a67285229203a2d2074727565207c2031203d20322c2052203d206f6b2e\nstart 10 0 10 f:g(_1)\nrun 3\n";

/// The file as a host by the fourth rules left it.
const BEFORE: &[u8] =
    b"journal 4 0 0\nload 3a2d206d6f64756c6520662e0a67285229203a2d2074727565207c2031203d20322c2052203d206f6b2e\nstart 10 0 10 f:g(_1)\nrun 3\n";

/// A second conversation, which sees what the first has done.
const AGAIN: &[u8] = b"login alice k1\nvalue 1\njournal 2 9\nreset\nlogout\n";

/// What comes back.
const SEEN: &[u8] =
    b"+ welcome alice\n+ f:g(ok)\n+ 3\nload 3a2d206d6f64756c6520662e0a67285229203a2d2074727565207c2031203d20322c2052203d206f6b2e\nstart 10 0 10 f:g(_1)\nrun 3\n+ reset\n+ bye\n";

/// The file after a reset: the names that were used.
const RESET: &[u8] = b"journal 5 0 3\nname f\nname g\nname ok\n";

/// The text of an account in which nothing has happened.
const FRESH: &[u8] = b"journal 5 0 0\n";

/// Whether a host that was sent lines replied with these bytes, and left these files of its two accounts.
fn is_so(outcome: &Outcome, replies: &[u8], files: [&[u8]; 2]) -> bool {
    match outcome.files.as_slice() {
        [one, two] => {
            outcome.replies.as_slice() == replies
                && one.as_slice() == files[0]
                && two.as_slice() == files[1]
        }
        _ => false,
    }
}

/// Whether a host that finds files with these bytes and is sent lines replies so, and leaves these files.
fn leaves<R>(
    rt: &R,
    alloc: Global,
    found: [&[u8]; 2],
    lines: &[u8],
    replies: &[u8],
    left: [&[u8]; 2],
) -> bool
where
    R: Net<Listener = TcpListener, Stream = TcpStream> + Threads + Wait + Clock + Sync,
{
    match hosted(rt, alloc, &found, ENOUGH, lines) {
        Ok(outcome) => is_so(&outcome, replies, left),
        Err(_) => false,
    }
}

/// What an account has done is there after a restart, and the file is the text of its journal again; after a reset it has the names. A file of
/// the fourth rules goes on by the fifth.
pub(crate) fn accounts_go_on_after_a_restart<R>(rt: &R, alloc: Global) -> bool
where
    R: Net<Listener = TcpListener, Stream = TcpStream> + Threads + Wait + Clock + Sync,
{
    let (bob, welcome) = (b"login bob k2\nlogout\n", b"+ welcome bob\n+ bye\n");
    leaves(rt, alloc, [b"", b""], LINES, REPLIES, [FILE, FRESH])
        && leaves(rt, alloc, [FILE, FRESH], bob, welcome, [TEXT, FRESH])
        && leaves(rt, alloc, [BEFORE, FRESH], b"", b"", [TEXT, FRESH])
        && leaves(rt, alloc, [TEXT, FRESH], AGAIN, SEEN, [RESET, FRESH])
        && leaves(rt, alloc, [RESET, FRESH], b"", b"", [RESET, FRESH])
}

/// The text up to its last line feed.
fn whole_lines(text: &[u8]) -> &[u8] {
    match text.iter().rposition(|byte| *byte == b'\n') {
        Some(place) => text.get(..place.saturating_add(1)).unwrap_or(text),
        None => b"",
    }
}

/// A file that is cut at any byte after its heading, and before the line that was written twice, is restored to its whole lines.
pub(crate) fn cut_file_is_restored_to_its_whole_lines<R>(
    rt: &R,
    alloc: Global,
) -> Result<bool, AllocError>
where
    R: Net<Listener = TcpListener, Stream = TcpStream> + Threads + Wait + Clock + Sync,
{
    let file = file_of(alloc, TEXT)?;
    let fresh = file_of(alloc, FRESH)?;
    for count in fresh.len()..file.len() + 1 {
        let cut = file.get(..count).unwrap_or(file.as_slice());
        let text = text_in(alloc, Vec::from_slice(alloc, whole_lines(cut))?)?;
        if !leaves(
            rt,
            alloc,
            [cut, fresh.as_slice()],
            b"",
            b"",
            [text.as_slice(), FRESH],
        ) {
            return Ok(false);
        }
    }
    Ok(true)
}

/// An entry that isn't accepted ends the start, and its line is told.
pub(crate) fn refused_entry_ends_the_start<R>(rt: &R, alloc: Global) -> bool
where
    R: Net<Listener = TcpListener, Stream = TcpStream> + Threads + Wait + Clock + Sync,
{
    let text = b"journal 5 0 1\nname f\nstart 10 0 10 true\nreduce 7 1\nrun 1\n";
    matches!(
        hosted(rt, alloc, &[FRESH, text], ENOUGH, b""),
        Err(StartFault::Unaccepted {
            account: 1,
            line: 4
        })
    )
}

/// Which lines of a conversation make entries, with what then stands in the file.
const ACKNOWLEDGED: &[(&[u8], &[u8])] = &[
    (b"+ loaded f\n", b"load "),
    (b"+ shoen 1\n", b"start "),
    (b"+ 1\n", b"run 1\n"),
    (b"+ 2\n", b"run 2\n"),
];

/// Whether some bytes stand in others.
fn has(bytes: &[u8], wanted: &[u8]) -> bool {
    for start in 0..bytes.len() {
        if let Some(rest) = bytes.get(start..)
            && rest.starts_with(wanted)
        {
            return true;
        }
    }
    false
}

/// Whether whatever a host replied is in the file of its first account.
fn is_kept(outcome: &Outcome) -> bool {
    let [file, _] = outcome.files.as_slice() else {
        return false;
    };
    for (reply, entry) in ACKNOWLEDGED {
        if has(outcome.replies.as_slice(), reply) && !has(file.as_slice(), entry) {
            return false;
        }
    }
    true
}

/// Of files that fail after some number of calls and bytes, whatever was replied is on disk.
pub(crate) fn failing_file_acknowledges_nothing_that_is_lost<R>(rt: &R, alloc: Global) -> bool
where
    R: Net<Listener = TcpListener, Stream = TcpStream> + Threads + Wait + Clock + Sync,
{
    let mut whole = 0usize;
    for left in (0..400usize).step_by(13) {
        // A file that fails at once ends the start.
        if let Ok(outcome) = hosted(rt, alloc, &[FRESH, FRESH], left, LINES) {
            if !is_kept(&outcome) {
                return false;
            }
            if outcome.replies.as_slice() == REPLIES {
                whole = whole.saturating_add(1);
            }
        }
    }
    whole > 0
}
