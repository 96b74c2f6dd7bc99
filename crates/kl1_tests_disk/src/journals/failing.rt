// Files that fail.

ghost use Rattle.std.specs.Prelude.{◌≡◌, Some, slice_get};
ghost use Rattle.kl1_host_journals.specs.FreshHistories.{books_of};

use crate::journals::growing::{Change, Growing, NewAccount};
use crate::journals::shelf::{
    ENOUGH, FRESH, Faults, Shelf, first_keeper, on_disk, only_scribe, write,
};
use kl1_host_journals::{
    Connecting, FreshConnection, KeeperPlace, Naming, Outgoing, Scribe, SyncedWriter,
};
use kl1_log::Memory;
use std::alloc::{AllocError, Global};
use std::cell::Cell;
use std::io::Write;
use std::marker::Brand;
use std::sync::Wait;

/// What becomes of an account's journal before each note.
const ROWS: &[&[Change]] = &[
    &[Change::Run(3)],
    &[Change::Run(2), Change::Reduction],
    &[Change::Reset],
    &[Change::Run(1)],
];

/// The most that these cost.
const MOST: usize = 200;

/// The text of a file after the first `count` of the notes: a run that grew stands in pieces.
fn file_after(count: usize) -> &'static [u8] {
    match count {
        0 => FRESH,
        1 => b"journal 4 0 0\nrun 3\n",
        2 => b"journal 4 0 0\nrun 3\nrun 2\nreduce 1 0\n",
        3 => b"journal 4 0 1\nname f\n",
        _ => b"journal 4 0 1\nname f\nrun 1\n",
    }
}

/// Does changes to a journal of account 0, notes it for a connection, lets the scribe write it, and answers whether a reply that tells of it was written.
fn is_told<R: Wait, J: Naming, C: Connecting>(
    rt: &R,
    alloc: Global,
    scribe: &mut Scribe<'_, Memory, J>,
    keepers: &[KeeperPlace<J>],
    journal: &mut Growing<J>,
    changes: &[Change],
    faults: &Faults,
    connection: FreshConnection,
) -> Result<bool, AllocError>
    requires { connection.pen.book ≡ C.connection }
{
    let Some(keeper) = first_keeper(keepers) else {
        return Ok(false);
    };
    journal.changed(alloc, changes)?;
    let leave = Outgoing::<J, C>::new(connection);
    let outgoing = Cell::new(journal.note(rt, keeper, leave));
    write(rt, scribe, faults);
    let mut out = Vec::new(alloc);
    let mut writer = SyncedWriter::new(&mut out, rt, keepers, &outgoing);
    let is_written = writer.write_all(b"+ ran\n").is_ok();
    Ok(is_written && out.as_slice() == b"+ ran\n".as_slice())
}

/// Whether each reply that is written tells of lines on disk, of a file that does as many calls and bytes as `left` says; and how many are.
fn told_by<R: Wait, J: Naming>(
    rt: &R,
    alloc: Global,
    left: usize,
    start: NewAccount,
) -> Result<Option<usize>, AllocError>
    requires books { books_of start.fresh ≡ J.books 0 }
    requires history { slice_get J.histories 0 ≡ Some start.shown.history }
{
    let mut shelf = Shelf::<J>::new(alloc);
    if !shelf.add(rt, alloc, 0, left, start)? {
        return Ok(Some(0));
    }
    let Shelf {
        files,
        keepers,
        mut journals,
    } = shelf;
    let Some(mut journal) = journals.pop() else {
        return Ok(None);
    };
    let faults = Faults::new();
    let Some(mut scribe) = only_scribe(keepers.as_slice(), files) else {
        return Ok(None);
    };
    let mut told = 0usize;
    for changes in ROWS {
        let is_told = is_told::<R, J, Brand>(
            rt,
            alloc,
            &mut scribe,
            keepers.as_slice(),
            &mut journal,
            *changes,
            &faults,
            FreshConnection::new(),
        )?;
        if is_told {
            told = told.saturating_add(1);
        }
    }
    let bytes = on_disk(alloc, scribe.file())?;
    // What isn't told may be on disk all the same, as a whole change.
    let has_told = bytes.as_slice() == file_after(told)
        || bytes.as_slice() == file_after(told.saturating_add(1));
    let is_stopped = first_keeper(keepers.as_slice()).is_some_and(|keeper| keeper
        .on_disk()
        .is_stopped());
    let is_right = has_told && (told == ROWS.len()) != is_stopped && faults.told() <= 1;
    Ok(if is_right { Some(told) } else { None })
}

/// `told_by`, with a new history.
fn told_of<R: Wait>(rt: &R, alloc: Global, left: usize) -> Result<Option<usize>, AllocError> {
    told_by::<R, Brand>(rt, alloc, left, NewAccount::new())
}

/// Stops a file after each number of calls and bytes: no reply is written before its lines are on disk.
pub(crate) fn no_reply_comes_before_its_lines<R: Wait>(
    rt: &R,
    alloc: Global,
) -> Result<bool, AllocError> {
    for left in 0..MOST {
        if told_of(rt, alloc, left)?.is_none() {
            return Ok(false);
        }
    }
    Ok(told_of(rt, alloc, ENOUGH)? == Some(ROWS.len()))
}

/// `failed_file_stops_its_account_alone`, with two new histories and two new connections.
fn failed_stops_alone<R: Wait, J: Naming, A: Connecting, B: Connecting>(
    rt: &R,
    alloc: Global,
    start: NewAccount,
    other_start: NewAccount,
    connection: FreshConnection,
    other_connection: FreshConnection,
) -> Result<bool, AllocError>
    requires books { (books_of start.fresh ≡ J.books 0) × (books_of other_start.fresh ≡ J.books 1) }
    requires histories { (slice_get J.histories 0 ≡ Some start.shown.history) × (slice_get J.histories 1 ≡ Some other_start.shown.history) }
    requires connection { connection.pen.book ≡ A.connection }
    requires other_connection { other_connection.pen.book ≡ B.connection }
{
    let mut shelf = Shelf::<J>::new(alloc);
    if !shelf.add(rt, alloc, 0, ENOUGH, start)? || !shelf.add(rt, alloc, 1, 7, other_start)? {
        return Ok(false);
    }
    let Shelf {
        mut files,
        keepers,
        mut journals,
    } = shelf;
    let (Some(mut two_journal), Some(mut one_journal)) = (journals.pop(), journals.pop()) else {
        return Ok(false);
    };
    let faults = Faults::new();
    let [first_place, second_place] = keepers.as_slice() else {
        return Ok(false);
    };
    let (Some(first), Some(second)) = (first_place.get(), second_place.get()) else {
        return Ok(false);
    };
    let (Some(other), Some(file)) = (files.pop(), files.pop()) else {
        return Ok(false);
    };
    let mut one_scribe = Scribe::new(0, first, file);
    let mut two_scribe = Scribe::new(1, second, other);
    one_journal.changed(alloc, &[Change::Run(3)])?;
    two_journal.changed(alloc, &[Change::Run(3)])?;
    let one = one_journal.note(rt, first, Outgoing::<J, A>::new(connection));
    let two = two_journal.note(rt, second, Outgoing::<J, B>::new(other_connection));
    for _ in 0..2usize {
        write(rt, &mut one_scribe, &faults);
        write(rt, &mut two_scribe, &faults);
    }
    let one = one.freed(rt, keepers.as_slice());
    let two = two.freed(rt, keepers.as_slice());
    let is_right = matches!(one, Outgoing::Free(_)) && matches!(two, Outgoing::Lost);
    let stopped = second.on_disk().is_stopped() && !first.on_disk().is_stopped();
    Ok(is_right && stopped && faults.told() == 10)
}

/// Of two accounts the file of the second fails at its first lines: the first goes on.
pub(crate) fn failed_file_stops_its_account_alone<R: Wait>(
    rt: &R,
    alloc: Global,
) -> Result<bool, AllocError> {
    failed_stops_alone::<R, Brand, Brand, Brand>(
        rt,
        alloc,
        NewAccount::new(),
        NewAccount::new(),
        FreshConnection::new(),
        FreshConnection::new(),
    )
}
