// The lines of a journal.

ghost use Rattle.std.specs.Prelude.{◌≡◌, ◌<◌, ◌+◌, ◌*◌, ◌/◌, ◌%◌, ◌++◌, ◌∷◌, [], codes, decimal, bytes_eq, IfOk, OnOk};
ghost use Rattle.kl1_model_server.specs.Journal.{sends};
ghost use Rattle.kl1_model_server.specs.JournalText.{hex_digit, hex_text, message_line, name_line, heading_line, entry_line};
ghost use Rattle.kl1_journal_entries.specs.Shown.{entry_shown, HasPrint};

use crate::entry::Entry;
use crate::heading::version;
use crate::text::is_joined;
use itoa::Buffer;
use kl1_lines::is_same;
use kl1_model::{Message, Rules};
use kl1_text::{AtomText, put_atom};
use std::alloc::{AllocError, Global};

/// Puts a number in decimal.
fn put_number(out: &mut Vec<u8>, number: u64) -> Result<(), AllocError>
    ensures { OnOk result (out.new.items ≡ out.old.items ++ decimal number) }
{
    let mut buffer = Buffer::new();
    out.extend_from_slice(buffer.format(number).as_bytes())
}

/// Puts two numbers in decimal, with a space between them.
fn put_two(out: &mut Vec<u8>, first: u64, second: u64) -> Result<(), AllocError>
    ensures { OnOk result (out.new.items ≡ out.old.items ++ (decimal first ++ codes " " ++ decimal second)) }
{
    put_number(out, first)?;
    out.extend_from_slice(b" ")?;
    put_number(out, second)
}

/// A hexadecimal digit as a byte: 0 to 9, and a to f.
fn hex_digit(digit: u8) -> u8
    requires { digit < 16 }
    ensures { result ≡ hex_digit digit }
{
    if digit < 10 {
        b'0' + digit
    } else {
        b'a' + (digit - 10)
    }
}

/// Puts bytes as two hexadecimal digits each.
fn put_hex(out: &mut Vec<u8>, bytes: &[u8]) -> Result<(), AllocError>
    ensures { OnOk result (out.new.items ≡ out.old.items ++ hex_text bytes.now) }
{
    let mut rest = bytes;
    while let [first, others @ ..] = rest {
        out.push(hex_digit(*first / 16))?;
        out.push(hex_digit(*first % 16))?;
        rest = others;
    }
    Ok(())
}

/// Puts the line of a message to a shoen.
fn put_message(out: &mut Vec<u8>, shoen: u64, message: Message) -> Result<(), AllocError>
    ensures { OnOk result (out.new.items ≡ out.old.items ++ message_line shoen message) }
{
    match message {
        Message::Stop => {
            out.extend_from_slice(b"stop ")?;
            put_number(out, shoen)
        }
        Message::Start => {
            out.extend_from_slice(b"resume ")?;
            put_number(out, shoen)
        }
        Message::Abort => {
            out.extend_from_slice(b"abort ")?;
            put_number(out, shoen)
        }
        Message::Allow(more) => {
            out.extend_from_slice(b"allow ")?;
            put_two(out, shoen, more)
        }
    }
}

/// Puts the line of a start up to its goal's print.
fn put_start(out: &mut Vec<u8>, allowance: u64, low: u64, high: u64) -> Result<(), AllocError>
    ensures { OnOk result (out.new.items ≡ out.old.items ++ (codes "start " ++ decimal allowance ++ codes " " ++ decimal low ++ codes " " ++ decimal high ++ codes " ")) }
{
    out.extend_from_slice(b"start ")?;
    put_two(out, allowance, low)?;
    out.extend_from_slice(b" ")?;
    put_number(out, high)?;
    out.extend_from_slice(b" ")
}

/// Puts the line of an answer up to its goal's print.
fn put_answer(out: &mut Vec<u8>, shoen: u64, report: u64) -> Result<(), AllocError>
    ensures { OnOk result (out.new.items ≡ out.old.items ++ (codes "answer " ++ decimal shoen ++ codes " " ++ decimal report ++ codes " ")) }
{
    out.extend_from_slice(b"answer ")?;
    put_two(out, shoen, report)?;
    out.extend_from_slice(b" ")
}

/// Puts the line of an entry.
pub(crate) fn put_entry(out: &mut Vec<u8>, entry: Entry<'_>) -> Result<(), AllocError>
    requires { HasPrint entry }
    ensures { OnOk result (out.new.items ≡ out.old.items ++ entry_line (entry_shown entry.entry)) }
{
    match entry {
        Entry::Load(source) => {
            out.extend_from_slice(b"load ")?;
            put_hex(out, source)
        }
        Entry::Start {
            allowance,
            low,
            high,
            goal,
        } => {
            put_start(out, allowance, low, high)?;
            out.extend_from_slice(goal)
        }
        Entry::Control { shoen, message } => put_message(out, shoen.0, message),
        Entry::Reduce { goal, clause } => {
            out.extend_from_slice(b"reduce ")?;
            put_two(out, goal.0, clause.0)
        }
        Entry::Run(reductions) => {
            out.extend_from_slice(b"run ")?;
            put_number(out, reductions)
        }
        Entry::Answer {
            shoen,
            report,
            goal,
            told: _,
        } => {
            put_answer(out, shoen.0, report)?;
            out.extend_from_slice(goal)
        }
        Entry::Forget { shoen, count } => {
            out.extend_from_slice(b"forget ")?;
            put_two(out, shoen.0, count)
        }
    }
}

/// Whether a line is that of an entry. The print of a goal is compared where it stands, and not copied.
pub(crate) fn is_entry_line(
    alloc: Global,
    entry: Entry<'_>,
    line: &[u8],
) -> Result<bool, AllocError>
    requires { HasPrint entry }
    ensures { IfOk result (λ is. is ≡ bytes_eq (entry_line (entry_shown entry.entry)) line.now) }
{
    let mut own = Vec::new(alloc);
    match entry {
        Entry::Start {
            allowance,
            low,
            high,
            goal,
        } => {
            put_start(&mut own, allowance, low, high)?;
            Ok(is_joined(line, own.as_slice(), goal))
        }
        Entry::Answer {
            shoen,
            report,
            goal,
            told: _,
        } => {
            put_answer(&mut own, shoen.0, report)?;
            Ok(is_joined(line, own.as_slice(), goal))
        }
        _ => {
            put_entry(&mut own, entry)?;
            Ok(is_same(own.as_slice(), line))
        }
    }
}

/// Puts the line of a name that was used at the last reset.
pub(crate) fn put_name(out: &mut Vec<u8>, name: &AtomText) -> Result<(), AllocError>
    ensures { OnOk result (out.new.items ≡ out.old.items ++ name_line name.now) }
{
    out.extend_from_slice(b"name ")?;
    put_atom(out, name)
}

/// Puts the first line of a journal.
pub(crate) fn put_first(
    out: &mut Vec<u8>,
    rules: Rules,
    sessions: u64,
    names: u64,
) -> Result<(), AllocError>
    ensures { OnOk result (out.new.items ≡ out.old.items ++ heading_line rules sessions names) }
{
    out.extend_from_slice(b"journal ")?;
    out.extend_from_slice(version(rules))?;
    out.extend_from_slice(b" ")?;
    put_two(out, sessions, names)
}
