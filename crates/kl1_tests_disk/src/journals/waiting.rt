// Replies that wait for the disk.

ghost use Rattle.std.specs.Prelude.{◌≡◌, Some, slice_get};
ghost use Rattle.kl1_host_journals.specs.FreshHistories.{books_of};

use crate::journals::growing::{Change, Growing, NewAccount};
use crate::journals::shelf::{ENOUGH, Faults, Shelf, first_keeper, on_disk, only_scribe, write};
use kl1_host_journals::{
    Connecting, FreshConnection, Keeper, KeeperPlace, Naming, Outgoing, Scribe, SyncedWriter,
};
use kl1_log::Memory;
use std::alloc::{AllocError, Global};
use std::cell::Cell;
use std::io::Write;
use std::marker::Brand;
use std::sync::Wait;
use std::thread;
use std::thread::Threads;
use std::time::{Clock, Duration};

/// Whether a reply may be sent at once.
fn is_free<R: Wait, J: Naming, C: Connecting>(
    rt: &R,
    keeper: &Keeper<J>,
    outgoing: &Outgoing<J, C>,
) -> bool {
    match outgoing {
        Outgoing::Free(_) => true,
        Outgoing::Waits(held) => keeper.on_disk().is_done(rt, held),
        Outgoing::Lost => false,
    }
}

/// Whether the first reply of a connection waits, which tells of this journal.
fn first_waits<R: Wait, J: Naming, C: Connecting>(
    rt: &R,
    keeper: &Keeper<J>,
    journal: &mut Growing<J>,
    connection: FreshConnection,
) -> bool
    requires { connection.pen.book ≡ C.connection }
{
    let outgoing = Outgoing::<J, C>::new(connection);
    let reply = journal.note(rt, keeper, outgoing);
    !is_free(rt, keeper, &reply)
}

/// Whether a reply of a connection waits, which tells of a journal after each of these rows of changes, until the scribe has written, and no
/// longer.
fn waits_for_all<R: Wait, J: Naming, C: Connecting>(
    rt: &R,
    alloc: Global,
    keeper: &Keeper<J>,
    scribe: &mut Scribe<'_, Memory, J>,
    faults: &Faults,
    journal: &mut Growing<J>,
    rows: &[&[Change]],
    connection: FreshConnection,
) -> Result<bool, AllocError>
    requires { connection.pen.book ≡ C.connection }
{
    let mut reply = Outgoing::<J, C>::new(connection);
    let mut waits = true;
    for changes in rows {
        journal.changed(alloc, *changes)?;
        reply = journal.note(rt, keeper, reply);
        waits = waits && !is_free(rt, keeper, &reply);
    }
    write(rt, scribe, faults);
    Ok(waits && is_free(rt, keeper, &reply))
}

/// `reply_waits_for_its_lines`, with a new history.
fn waits_for_its_lines<R: Wait, J: Naming>(
    rt: &R,
    alloc: Global,
    start: NewAccount,
) -> Result<bool, AllocError>
    requires books { books_of start.fresh ≡ J.books 0 }
    requires history { slice_get J.histories 0 ≡ Some start.shown.history }
{
    let mut shelf = Shelf::<J>::new(alloc);
    if !shelf.add(rt, alloc, 0, ENOUGH, start)? {
        return Ok(false);
    }
    let Shelf {
        files,
        keepers,
        mut journals,
    } = shelf;
    let Some(mut journal) = journals.pop() else {
        return Ok(false);
    };
    let faults = Faults::new();
    let Some(mut scribe) = only_scribe(keepers.as_slice(), files) else {
        return Ok(false);
    };
    let Some(keeper) = first_keeper(keepers.as_slice()) else {
        return Ok(false);
    };
    let reading_waits = first_waits::<R, J, Brand>(
        rt,
        keeper,
        &mut journal,
        FreshConnection::new(),
    );
    let waits = waits_for_all::<R, J, Brand>(
        rt,
        alloc,
        keeper,
        &mut scribe,
        &faults,
        &mut journal,
        &[&[Change::Run(3)], &[Change::Run(4), Change::Reduction]],
        FreshConnection::new(),
    )?;
    let again_waits = first_waits::<R, J, Brand>(rt, keeper, &mut journal, FreshConnection::new());
    let bytes = on_disk(alloc, scribe.file())?;
    let is_right = bytes.as_slice() == b"journal 4 0 0\nrun 3\nrun 4\nreduce 1 0\n".as_slice();
    Ok(!reading_waits && waits && !again_waits && is_right && faults.told() == 0)
}

/// A reply waits until the scribe has written its lines, and one that tells nothing new doesn't wait.
pub(crate) fn reply_waits_for_its_lines<R: Wait>(
    rt: &R,
    alloc: Global,
) -> Result<bool, AllocError> {
    waits_for_its_lines::<R, Brand>(rt, alloc, NewAccount::new())
}

/// `reset_begins_the_file_anew`, with a new history.
fn begins_anew<R: Wait, J: Naming>(
    rt: &R,
    alloc: Global,
    start: NewAccount,
) -> Result<bool, AllocError>
    requires books { books_of start.fresh ≡ J.books 0 }
    requires history { slice_get J.histories 0 ≡ Some start.shown.history }
{
    let mut shelf = Shelf::<J>::new(alloc);
    if !shelf.add(rt, alloc, 0, ENOUGH, start)? {
        return Ok(false);
    }
    let Shelf {
        files,
        keepers,
        mut journals,
    } = shelf;
    let Some(mut journal) = journals.pop() else {
        return Ok(false);
    };
    let faults = Faults::new();
    let Some(mut scribe) = only_scribe(keepers.as_slice(), files) else {
        return Ok(false);
    };
    let Some(keeper) = first_keeper(keepers.as_slice()) else {
        return Ok(false);
    };
    let waits = waits_for_all::<R, J, Brand>(
        rt,
        alloc,
        keeper,
        &mut scribe,
        &faults,
        &mut journal,
        &[
            &[Change::Run(3)],
            &[Change::Reset, Change::Run(1)],
            &[Change::Reduction],
        ],
        FreshConnection::new(),
    )?;
    let bytes = on_disk(alloc, scribe.file())?;
    let is_right = bytes.as_slice() == b"journal 4 0 1\nname f\nrun 1\nreduce 1 0\n".as_slice();
    Ok(waits && is_right)
}

/// A journal of another generation begins the file anew.
pub(crate) fn reset_begins_the_file_anew<R: Wait>(
    rt: &R,
    alloc: Global,
) -> Result<bool, AllocError> {
    begins_anew::<R, Brand>(rt, alloc, NewAccount::new())
}

/// Writes a reply that tells of a journal, and then calls the scribe for the last time. Answers whether it was written.
fn write_reply<R: Wait, J: Naming, C: Connecting>(
    rt: &R,
    alloc: Global,
    keepers: &[KeeperPlace<J>],
    journal: Growing<J>,
    connection: FreshConnection,
) -> bool
    requires { connection.pen.book ≡ C.connection }
{
    let outgoing = Cell::new(Outgoing::<J, C>::new(connection));
    let mut out = Vec::new(alloc);
    let mut is_written = false;
    let mut journal = journal;
    if let (Some(keeper), Ok(())) = (
        first_keeper(keepers),
        journal.changed(alloc, &[Change::Run(3)]),
    ) {
        let leave = outgoing.replace(Outgoing::Lost);
        outgoing.set(journal.note(rt, keeper, leave));
        let mut writer = SyncedWriter::new(&mut out, rt, keepers, &outgoing);
        is_written = writer.write_all(b"+ ran 3\n").is_ok();
    }
    if let Some(keeper) = first_keeper(keepers) {
        keeper.bell().end(rt);
    }
    is_written && out.as_slice() == b"+ ran 3\n".as_slice()
}

/// `write_reply` of a new connection.
fn reply_is_written<R: Wait, J: Naming>(
    rt: &R,
    alloc: Global,
    keepers: &[KeeperPlace<J>],
    journal: Growing<J>,
) -> bool {
    write_reply::<R, J, Brand>(rt, alloc, keepers, journal, FreshConnection::new())
}

/// `writer_waits_for_the_scribe`, with a new history.
fn waits_for_the_scribe<R: Threads + Wait + Clock + Sync, J: Naming + Send + Sync>(
    rt: &R,
    alloc: Global,
    start: NewAccount,
) -> Result<bool, AllocError>
    requires books { books_of start.fresh ≡ J.books 0 }
    requires history { slice_get J.histories 0 ≡ Some start.shown.history }
{
    let mut shelf = Shelf::<J>::new(alloc);
    if !shelf.add(rt, alloc, 0, ENOUGH, start)? {
        return Ok(false);
    }
    let Shelf {
        files,
        keepers,
        mut journals,
    } = shelf;
    let Some(journal) = journals.pop() else {
        return Ok(false);
    };
    let faults = Faults::new();
    let shared = keepers.as_slice();
    let Some(mut scribe) = only_scribe(shared, files) else {
        return Ok(false);
    };
    let is_written = thread::scope(thread::scope_env(), rt, |scope| {
        let Ok(writing) = scope.spawn(move || reply_is_written(rt, alloc, shared, journal)) else {
            return false;
        };
        scribe.work(rt, Duration::from_secs(3_600), &faults);
        writing.join(rt)
    });
    let bytes = on_disk(alloc, scribe.file())?;
    Ok(is_written && bytes.as_slice() == b"journal 4 0 0\nrun 3\n".as_slice())
}

/// A writer waits for the scribe, which it calls.
pub(crate) fn writer_waits_for_the_scribe<R: Threads + Wait + Clock + Sync>(
    rt: &R,
    alloc: Global,
) -> Result<bool, AllocError> {
    waits_for_the_scribe::<R, Brand>(rt, alloc, NewAccount::new())
}
