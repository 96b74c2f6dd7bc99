// Entries as their lines may be read.

ghost use Rattle.std.specs.Prelude.{◌≡◌, ◌<◌, false, Some, option_map, option_and_then, bytes_eq, codes, IfOk, IsTrue};
ghost use Rattle.std.specs.List.{list_all};
ghost use Rattle.kl1_model.specs.Line.{before_space, behind_space, number_in};
ghost use Rattle.kl1_model_server.specs.Journal.{sends, steps, forgets};
ghost use Rattle.kl1_model_server.specs.JournalText.{is_hex_digit, hex_value, hex_bytes, load_in, of_two, start_in, answer_in, run_of, entry_by};
ghost use Rattle.kl1_user_events.specs.Views.{event_of};
ghost use Rattle.kl1_journal_entries.specs.Reading.{two_in, message_by};
ghost use Rattle.kl1_journal_entries.specs.Lined.{entry_of};
ghost use Rattle.kl1_journal_entries.specs.Found.{deed_in};

use crate::deed::Deed;
use kl1_lines::{is_same, number_in, split_name};
use kl1_model::{Message, Rules};
use kl1_read::{ReadFault, read_answer, read_goal};
use kl1_user_events::{ClauseNo, Event, GoalNo, ShoenNo};
use std::alloc::{AllocError, Global};

/// Whether a byte is a hexadecimal digit: 0 to 9, and a to f.
fn is_hex_digit(byte: u8) -> bool
    ensures { result ≡ is_hex_digit byte }
{
    (b'0' <= byte && byte <= b'9') || (b'a' <= byte && byte <= b'f')
}

/// The value of a hexadecimal digit.
fn hex_value(byte: u8) -> u8
    requires { IsTrue (is_hex_digit byte) }
    ensures value { result ≡ hex_value byte }
    ensures small { result < 16 }
{
    if byte <= b'9' { byte - b'0' } else { byte - 87 }
}

/// Whether bytes are hexadecimal digits alone.
fn are_hex_digits(bytes: &[u8]) -> bool
    ensures { result ≡ list_all is_hex_digit bytes.now }
{
    bytes.iter().all(|byte| is_hex_digit(*byte))
}

/// The bytes that two hexadecimal digits each are; one that is left over is dropped.
fn hex_bytes(alloc: Global, digits: &[u8]) -> Result<Vec<u8>, AllocError>
    requires { IsTrue (list_all is_hex_digit digits.now) }
    ensures { IfOk result (λ bytes. bytes.items ≡ hex_bytes digits.now) }
{
    let mut out = Vec::new(alloc);
    let mut rest = digits;
    while let [first, second, others @ ..] = rest {
        out.push(16 * hex_value(*first) + hex_value(*second))?;
        rest = others;
    }
    Ok(out)
}

/// A load of the source whose hexadecimal digits these are.
fn load_in(alloc: Global, rest: &[u8]) -> Result<Option<Event>, AllocError>
    ensures { IfOk result (λ e. option_and_then entry_of (option_map event_of e) ≡ (load_in rest.now)) }
{
    if !are_hex_digits(rest) {
        return Ok(None);
    }
    let source = hex_bytes(alloc, rest)?;
    Ok(Some(Event::Load { source }))
}

/// A start of three numbers and a goal.
fn start_in(alloc: Global, rest: &[u8]) -> Result<Option<Event>, AllocError>
    ensures { IfOk result (λ e. option_and_then entry_of (option_map event_of e) ≡ (start_in rest.now)) }
{
    let (first, rest) = split_name(rest);
    let Some(allowance) = number_in(first) else {
        return Ok(None);
    };
    let (second, rest) = split_name(rest);
    let Some(low) = number_in(second) else {
        return Ok(None);
    };
    let (third, text) = split_name(rest);
    let Some(high) = number_in(third) else {
        return Ok(None);
    };
    match read_goal(alloc, text) {
        Ok(goal) => Ok(Some(Event::Start {
            allowance,
            low,
            high,
            goal,
        })),
        Err(ReadFault::Bad { line: _line }) => Ok(None),
        Err(ReadFault::Memory) => Err(AllocError),
    }
}

/// An answer of two numbers and a goal, as these rules read it.
fn answer_in(alloc: Global, rules: Rules, rest: &[u8]) -> Result<Option<Event>, AllocError>
    ensures { IfOk result (λ e. option_and_then entry_of (option_map event_of e) ≡ (answer_in rules rest.now)) }
{
    let (first, rest) = split_name(rest);
    let Some(shoen) = number_in(first) else {
        return Ok(None);
    };
    let (second, text) = split_name(rest);
    let Some(report) = number_in(second) else {
        return Ok(None);
    };
    match read_answer(alloc, rules, text) {
        Ok(goal) => Ok(Some(Event::Answer {
            shoen: ShoenNo(shoen),
            report,
            goal,
        })),
        Err(ReadFault::Bad { line: _line }) => Ok(None),
        Err(ReadFault::Memory) => Err(AllocError),
    }
}

/// The two numbers of a line.
fn two_in(rest: &[u8]) -> Option<(u64, u64)>
    ensures { result ≡ two_in rest.now }
{
    let (first, second) = split_name(rest);
    Some((number_in(first)?, number_in(second)?))
}

/// A reduction of two numbers.
fn reduce_in(rest: &[u8]) -> Option<Event>
    ensures { option_and_then entry_of (option_map event_of result) ≡ (of_two steps rest.now) }
{
    let (goal, clause) = two_in(rest)?;
    Some(Event::Reduce {
        goal: GoalNo(goal),
        clause: ClauseNo(clause),
    })
}

/// A letting go of two numbers.
fn forget_in(rest: &[u8]) -> Option<Event>
    ensures { option_and_then entry_of (option_map event_of result) ≡ (of_two forgets rest.now) }
{
    let (shoen, count) = two_in(rest)?;
    Some(Event::Forget {
        shoen: ShoenNo(shoen),
        count,
    })
}

/// A message to a shoen.
fn sent(shoen: u64, message: Message) -> Option<Event>
    ensures { option_and_then entry_of (option_map event_of result) ≡ (Some (sends shoen message)) }
{
    Some(Event::Control {
        shoen: ShoenNo(shoen),
        message,
    })
}

/// The message that a line may be, by its first word and what is after that.
fn message_in(word: &[u8], rest: &[u8]) -> Option<Event>
    ensures { option_and_then entry_of (option_map event_of result) ≡ (message_by word.now rest.now) }
{
    if is_same(word, b"stop") {
        return sent(number_in(rest)?, Message::Stop);
    }
    if is_same(word, b"resume") {
        return sent(number_in(rest)?, Message::Start);
    }
    if is_same(word, b"abort") {
        return sent(number_in(rest)?, Message::Abort);
    }
    if is_same(word, b"allow") {
        let (shoen, more) = two_in(rest)?;
        return sent(shoen, Message::Allow(more));
    }
    None
}

/// A run of this number of reductions, which is at least 1.
fn run_in(rest: &[u8]) -> Option<Deed>
    ensures { option_and_then deed_in result ≡ option_and_then run_of (number_in rest.now) }
{
    let reductions = number_in(rest)?;
    if reductions == 0 {
        return None;
    }
    Some(Deed::Run(reductions))
}

/// The event that a line may be, by its first word and what is after that, if it is no run.
fn event_by(
    alloc: Global,
    rules: Rules,
    word: &[u8],
    rest: &[u8],
) -> Result<Option<Event>, AllocError>
    requires { bytes_eq word.now (codes "run") ≡ false }
    ensures { IfOk result (λ e. option_and_then entry_of (option_map event_of e) ≡ entry_by rules word.now rest.now) }
{
    if is_same(word, b"reduce") {
        return Ok(reduce_in(rest));
    }
    if is_same(word, b"load") {
        return load_in(alloc, rest);
    }
    if is_same(word, b"start") {
        return start_in(alloc, rest);
    }
    if is_same(word, b"answer") {
        return answer_in(alloc, rules, rest);
    }
    if is_same(word, b"forget") && rules.has_forgetting() {
        return Ok(forget_in(rest));
    }
    Ok(message_in(word, rest))
}

/// What a line of a journal of these rules may say, by its first word and what is after that.
#[tactic(auto, using(crate::proofs::LinesRead::run_word))]
fn deed_by(
    alloc: Global,
    rules: Rules,
    word: &[u8],
    rest: &[u8],
) -> Result<Option<Deed>, AllocError>
    ensures { IfOk result (λ e. option_and_then deed_in e ≡ entry_by rules word.now rest.now) }
{
    if is_same(word, b"run") {
        return Ok(run_in(rest));
    }
    match event_by(alloc, rules, word, rest)? {
        None => Ok(None),
        Some(event) => Ok(Some(Deed::Event(event))),
    }
}

/// What a line of a journal of these rules may say.
pub(crate) fn parse_entry(
    alloc: Global,
    rules: Rules,
    line: &[u8],
) -> Result<Option<Deed>, AllocError>
    ensures { IfOk result (λ e. option_and_then deed_in e ≡ entry_by rules (before_space line.now) (behind_space line.now)) }
{
    let (word, rest) = split_name(line);
    deed_by(alloc, rules, word, rest)
}
