// The replay of a journal, from the bytes of its text to what is written for it.

ghost use Rattle.std.specs.Prelude.{◌≡◌, ◌+◌, ◌<◌, ◌≤◌, ◌^◌, [], length};
ghost use Rattle.kl1_model.specs.declared.limits.TheConstants.{MOST_SCRIPT_BYTES};
ghost use Rattle.kl1_model.specs.Rules.{limits_of};
ghost use Rattle.kl1_model.specs.State.{fresh_with};
ghost use Rattle.kl1_model_server.specs.JournalText.{lines_of};
ghost use Rattle.kl1_model_server.specs.Replay.{replay_name, replay_output, written_entries, written_fault, written_names};
ghost use Rattle.kl1_user.specs.Accounts.{IsNameList};
ghost use Rattle.kl1_lines.specs.Devices.{ReadsFew};
ghost use Rattle.kl1_lines.specs.Replies.{Ends, Finishes};
ghost use Rattle.kl1_lines.specs.Runs.{Runs, streams};
ghost use Rattle.kl1_script.specs.Replays.{entry_replies, name_replies, replay_replies};
ghost use Rattle.kl1_script.specs.Files.{file_output, file_replies};

use crate::last_lines::fault_line;
use crate::names::{Named, names_in};
use crate::replay_replies::ReplayReplies;
use crate::replayed::Replayed;
use kl1_atoms::{AtomSource, AtomTable, SharedAtoms};
use kl1_codes::{CodeSource, CodeTable, SharedCodes};
use kl1_journal_entries::{Heading, heading_of, next_line};
use kl1_lines::{ScriptFault, Sink, Source, answer_all, finish_with, read_all};
use kl1_sums::plain_text;
use kl1_text::AtomText;
use kl1_user::Rules;
use std::alloc::Global;
use std::sync::Wait;

/// More bytes than any memory has, and few enough for lines and entries to be counted in 64 bits.
const MOST_FILE_BYTES: usize = 1_099_511_627_776;

/// Replays a journal: reads all of its text, or of a host's file, in which each line has a sum, and writes the replies to its entries. It
/// may wait only when a code is put into the table of codes that it makes: `run_replay_over` does all the rest.
pub fn run_replay<H: Wait, R: Source, W: Sink>(
    rt: &H,
    alloc: Global,
    source: &mut R,
    sink: &mut W,
) -> Result<(), ScriptFault>
    ensures runs { Runs file_output file_replies (streams R.remaining R.failures W.contents W.failures source.old sink.old) (streams R.remaining R.failures W.contents W.failures source.new sink.new) result }
    ensures few { ReadsFew (R.remaining source.old) (R.remaining source.new) (MOST_SCRIPT_BYTES + 1) }
{
    match CodeTable::new(alloc) {
        Ok(table) => run_replay_over(alloc, SharedCodes { table: &table, rt }, source, sink),
        Err(_) => Err(ScriptFault::Memory),
    }
}

/// Like `run_replay`, over any source of codes.
pub fn run_replay_over<C: CodeSource + Drop, R: Source, W: Sink>(
    alloc: Global,
    codes: C,
    source: &mut R,
    sink: &mut W,
) -> Result<(), ScriptFault>
    ensures runs { Runs file_output file_replies (streams R.remaining R.failures W.contents W.failures source.old sink.old) (streams R.remaining R.failures W.contents W.failures source.new sink.new) result }
    ensures few { ReadsFew (R.remaining source.old) (R.remaining source.new) (MOST_SCRIPT_BYTES + 1) }
{
    match read_all(alloc, source) {
        Ok(text) => replay_file(alloc, codes, text.as_slice(), sink),
        Err(fault) => Err(fault),
    }
}

/// Writes what is written for the text of a journal or for a host's file, over any source of codes. A line without its sum, and each
/// after it, is one that no journal has.
pub fn replay_file<C: CodeSource + Drop, W: Sink>(
    alloc: Global,
    codes: C,
    text: &[u8],
    sink: &mut W,
) -> Result<(), ScriptFault>
    ensures { Ends (W.contents sink.old) (W.contents sink.new) (W.failures sink.old) (W.failures sink.new) (file_output text.now) (file_replies text.now) result }
{
    match plain_text(alloc, text) {
        Ok(plain) => {
            if plain.len() > MOST_FILE_BYTES {
                return Err(ScriptFault::Memory);
            }
            answer(alloc, codes, plain.as_slice(), sink)
        }
        Err(_) => Err(ScriptFault::Memory),
    }
}

/// Writes what is written for the text of a journal.
fn answer<C: CodeSource + Drop, W: Sink>(
    alloc: Global,
    codes: C,
    text: &[u8],
    sink: &mut W,
) -> Result<(), ScriptFault>
    requires { length text.now < 2 ^ 63 }
    ensures { Ends (W.contents sink.old) (W.contents sink.new) (W.failures sink.old) (W.failures sink.new) (replay_output text.now) (replay_replies text.now) result }
{
    let Some((line, rest)) = next_line(text) else {
        return finish_fault(sink, 1);
    };
    match heading_of(line) {
        None => finish_fault(sink, 1),
        Some(heading) => answer_headed(alloc, codes, heading, rest, sink),
    }
}

/// Writes what is written for the text after a journal's first line, by what that says.
fn answer_headed<C: CodeSource + Drop, W: Sink>(
    alloc: Global,
    codes: C,
    heading: Heading,
    text: &[u8],
    sink: &mut W,
) -> Result<(), ScriptFault>
    requires names { heading.names ≤ (limits_of heading.rules).names }
    requires small { length text.now < 2 ^ 63 }
    ensures { Ends (W.contents sink.old) (W.contents sink.new) (W.failures sink.old) (W.failures sink.new) (written_names heading.names 2 heading.rules heading.sessions [] (lines_of text.now).whole (lines_of text.now).rest) (name_replies heading.names heading.rules heading.sessions [] (lines_of text.now).whole) result }
{
    match names_in(alloc, heading.names, text) {
        Ok(Named::All { names, rest }) => {
            answer_shared(
                alloc,
                codes,
                heading.rules,
                heading.sessions,
                names.as_slice(),
                rest,
                sink,
            )
        }
        Ok(Named::Fault { line }) => finish_fault(sink, line),
        Err(_) => Err(ScriptFault::Memory),
    }
}

/// Writes what is written for the entries whose lines a text has, over a table of names that is made for one account.
fn answer_shared<C: CodeSource + Drop, W: Sink>(
    alloc: Global,
    codes: C,
    rules: Rules,
    sessions: u64,
    texts: &[AtomText],
    text: &[u8],
    sink: &mut W,
) -> Result<(), ScriptFault>
    requires list { IsNameList texts.now }
    requires few { length texts.now ≤ (limits_of rules).names }
    requires small { length text.now < 2 ^ 63 }
    ensures { Ends (W.contents sink.old) (W.contents sink.new) (W.failures sink.old) (W.failures sink.new) (written_entries (2 + length texts.now) 0 (fresh_with rules replay_name texts.now sessions) (lines_of text.now).whole (lines_of text.now).rest) (entry_replies (fresh_with rules replay_name texts.now sessions) (lines_of text.now).whole) result }
{
    match AtomTable::with_room(alloc, 1, rules.limits().names) {
        Ok((table, mut seats)) => {
            let seat = seats.swap_remove(0);
            replay_over(
                alloc,
                SharedAtoms { table: &table },
                seat,
                codes,
                rules,
                sessions,
                texts,
                text,
                sink,
            )
        }
        Err(_) => Err(ScriptFault::Memory),
    }
}

/// Writes what is written for the entries whose lines a text has, in a journal of these rules, these names and this number of open
/// sessions, over any table of names and a seat that knows the built-in names alone, and any source of codes.
pub fn replay_over<A: AtomSource + Drop, C: CodeSource + Drop, W: Sink>(
    alloc: Global,
    names: A,
    seat: A::Seat,
    codes: C,
    rules: Rules,
    sessions: u64,
    texts: &[AtomText],
    text: &[u8],
    sink: &mut W,
) -> Result<(), ScriptFault>
    requires of { A.is_of names seat }
    requires nothing { A.knows seat ≡ [] }
    requires list { IsNameList texts.now }
    requires few { length texts.now ≤ (limits_of rules).names }
    requires room { (limits_of rules).names ≤ (A.place seat).0.1 }
    requires small { length text.now < 2 ^ 63 }
    ensures { Ends (W.contents sink.old) (W.contents sink.new) (W.failures sink.old) (W.failures sink.new) (written_entries (2 + length texts.now) 0 (fresh_with rules replay_name texts.now sessions) (lines_of text.now).whole (lines_of text.now).rest) (entry_replies (fresh_with rules replay_name texts.now sessions) (lines_of text.now).whole) result }
{
    let line = texts.len() as u64 + 2;
    match Replayed::new(alloc, rules, sessions, texts, names, seat, codes) {
        Ok(replayed) => {
            let mut replies = ReplayReplies {
                alloc,
                replayed,
                line,
                entries: 0,
                rest: text,
            };
            answer_all(alloc, &mut replies, sink)
        }
        Err(_) => Err(ScriptFault::Memory),
    }
}

/// Writes the line of a fault in the line of this number, before which no entry stands.
fn finish_fault<W: Sink>(sink: &mut W, line: u64) -> Result<(), ScriptFault>
    ensures { Finishes (W.contents sink.old) (W.contents sink.new) (W.failures sink.old) (W.failures sink.new) (written_fault line) result }
{
    finish_with(sink, b"", fault_line(line).as_slice())
}
