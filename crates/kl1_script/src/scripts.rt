// A script, from its bytes to what is written for it.

ghost use Rattle.std.specs.Prelude.{◌≡◌, ◌+◌, ◌<◌, ◌≤◌, [], length, Some, IsTrue};
ghost use Rattle.kl1_model.specs.declared.limits.TheConstants.{MOST_ACCOUNTS, MOST_SCRIPT_BYTES};
ghost use Rattle.kl1_model.specs.Record.{records_of};
ghost use Rattle.kl1_model_server.specs.Script.{are_distinct, output, written_records};
ghost use Rattle.kl1_lines.specs.Devices.{ReadsFew};
ghost use Rattle.kl1_lines.specs.Replies.{Ends};
ghost use Rattle.kl1_lines.specs.Runs.{Runs, streams};
ghost use Rattle.kl1_script.specs.Scripts.{replies_from, script_replies};
ghost use Rattle.kl1_world.specs.Seating.{AreNewSeats};

use crate::accounts::accounts_in;
use crate::script_replies::ScriptReplies;
use kl1_atoms::{AtomSource, AtomTable, SharedAtoms};
use kl1_codes::{CodeSource, CodeTable, SharedCodes};
use kl1_lines::{ScriptFault, Sink, Source, answer_all, finish_with, read_all, split_line};
use kl1_world::{AccountName, Rules, World};
use std::alloc::Global;
use std::sync::Wait;

/// Runs a script: reads all of it, and writes its output. It may wait only when a code is put into the table of codes that it makes:
/// `run_script_over` does all the rest.
pub fn run_script<H: Wait, R: Source, W: Sink>(
    rt: &H,
    alloc: Global,
    source: &mut R,
    sink: &mut W,
) -> Result<(), ScriptFault>
    ensures runs { Runs output script_replies (streams R.remaining R.failures W.contents W.failures source.old sink.old) (streams R.remaining R.failures W.contents W.failures source.new sink.new) result }
    ensures few { ReadsFew (R.remaining source.old) (R.remaining source.new) (MOST_SCRIPT_BYTES + 1) }
{
    match CodeTable::new(alloc) {
        Ok(table) => run_script_over(alloc, SharedCodes { table: &table, rt }, source, sink),
        Err(_) => Err(ScriptFault::Memory),
    }
}

/// Like `run_script`, over any source of codes.
pub fn run_script_over<C: CodeSource + Drop, R: Source, W: Sink>(
    alloc: Global,
    codes: C,
    source: &mut R,
    sink: &mut W,
) -> Result<(), ScriptFault>
    ensures runs { Runs output script_replies (streams R.remaining R.failures W.contents W.failures source.old sink.old) (streams R.remaining R.failures W.contents W.failures source.new sink.new) result }
    ensures few { ReadsFew (R.remaining source.old) (R.remaining source.new) (MOST_SCRIPT_BYTES + 1) }
{
    let script = match read_all(alloc, source) {
        Ok(script) => script,
        Err(fault) => return Err(fault),
    };
    let (line, text) = split_line(script.as_slice());
    let accounts = match accounts_in(alloc, line) {
        Ok(Some(accounts)) => accounts,
        Ok(None) => return finish_with(sink, b"", b"! accounts\n"),
        Err(_) => return Err(ScriptFault::Memory),
    };
    match AtomTable::new(alloc, accounts.len()) {
        Ok((table, seats)) => answer_over(
            alloc,
            accounts.as_slice(),
            SharedAtoms { table: &table },
            seats,
            codes,
            text,
            sink,
        ),
        Err(_) => Err(ScriptFault::Memory),
    }
}

/// Writes what is written for the records of a text, over any table of names, seats of it for the accounts, each of which knows the
/// built-in names alone, and any source of codes.
pub fn answer_over<A: AtomSource + Drop, C: CodeSource + Drop, W: Sink>(
    alloc: Global,
    accounts: &[AccountName],
    names: A,
    seats: Vec<A::Seat>,
    codes: C,
    text: &[u8],
    sink: &mut W,
) -> Result<(), ScriptFault>
    requires some { 0 < length accounts.now }
    requires distinct { IsTrue (are_distinct accounts.now) }
    requires count { length seats.items ≡ length accounts.now }
    requires seats { AreNewSeats A.is_of A.place A.knows Rules.Three names seats.items }
    ensures { Ends (W.contents sink.old) (W.contents sink.new) (W.failures sink.old) (W.failures sink.new) (written_records accounts.now (records_of text.now)) (replies_from accounts.now [] (records_of text.now).list) result }
{
    match World::new(alloc, names, seats, codes, accounts, Rules::Three) {
        Ok(world) => {
            let mut replies = ScriptReplies {
                alloc,
                accounts,
                world,
                rest: text,
            };
            answer_all(alloc, &mut replies, sink)
        }
        Err(_) => Err(ScriptFault::Memory),
    }
}
