// Entries before they are put.

ghost use Rattle.std.specs.Prelude.{◌≡◌, ◌≤◌, ◌+◌, nat_le, length, decimal, false, IfOk, IsOk, None};
ghost use Rattle.kl1_model.specs.Print.{print};
ghost use Rattle.kl1_model.specs.Event.{is_number};
ghost use Rattle.kl1_model.specs.declared.limits.TheConstants.{MOST_LINE_BYTES};
ghost use Rattle.kl1_model.specs.Answering.{is_numbered_by};
ghost use Rattle.kl1_model.specs.Sending.{may_send};
ghost use Rattle.kl1_model.specs.declared.rules.Rules.{Rules};
ghost use Rattle.kl1_model_server.specs.Journal.{is_entry, loads, starts, sends, steps, answers, forgets, runs};
ghost use Rattle.kl1_user_events.specs.Views.{event_of};
ghost use Rattle.kl1_journal_entries.specs.Lined.{pending, is_lined, if_lined, lined_entry};
ghost use Rattle.kl1_journal_entries.specs.Reading.{is_line_of};

use crate::entry::{shown_at, shown_whole};
use crate::lines::is_entry_line;
use crate::long_entry::LongEntry;
use crate::packed_entry::PackedEntry;
use itoa::Buffer;
use kl1_model::limits::{MOST_LINE_BYTES, NUMBER_LIMIT};
use kl1_model::{Message, Rules};
use kl1_read::is_goal;
use kl1_term::{Term, print_whole};
use kl1_user_events::Event;
use std::alloc::{AllocError, Global};
use std::marker::Model;

/// The most bytes of a source whose line isn't too long.
const MOST_LOADED: usize = (MOST_LINE_BYTES - 5) / 2;

/// What is put into a journal.
#[derive(Drop)]
pub(crate) enum EntryForm {
    Nothing,
    /// A place that is no number of an entry kept whole.
    Short(PackedEntry),
    Long(LongEntry),
}

/// What an event is in a journal of these rules: an entry with a line, or nothing.
#[derive(Drop)]
pub struct PendingEntry {
    pub(crate) rules: Rules,
    pub(crate) form: EntryForm,
}

impl Model for PendingEntry {
    ghost use Rattle.kl1_journal_entries.specs.Codes.{pending_code};
    ghost use Rattle.kl1_journal_entries.specs.Lined.{Pending};
    ghost use Rattle.kl1_journal_entries.specs.Slots.{entry_in, IsSoundForm};

    ghost Value = { Pending };

    ghost coded = { pending_code };

    ghost view = { λ p. record { rules = p.rules; entry = entry_in p.form } };

    ghost invariant = { λ p. IsSoundForm p.rules p.form };
}

impl PendingEntry {
    /// Whether a line is that of what is prepared. A goal's print, which is kept, is compared where it stands.
    pub(crate) fn is_canonical(&self, alloc: Global, line: &[u8]) -> Result<bool, AllocError>
        ensures { IfOk result (λ is. is ≡ is_line_of self.now.entry line.now) }
    {
        match &self.form {
            EntryForm::Nothing => Ok(false),
            EntryForm::Short(slot) => is_entry_line(alloc, shown_at(&[], *slot), line),
            EntryForm::Long(whole) => is_entry_line(alloc, shown_whole(whole), line),
        }
    }
}

/// Whether an event is an entry of a journal, if it is accepted.
pub fn is_entry(event: &Event) -> bool
    ensures { result ≡ is_entry (event_of event.now) }
{
    matches!(
        event,
        Event::Load { .. }
            | Event::Start { .. }
            | Event::Control { .. }
            | Event::Reduce { .. }
            | Event::Answer { .. }
            | Event::Forget { .. }
    )
}

/// What an event is in a journal of these rules, if it is accepted: an entry, or nothing for a query, for a session that is opened or closed, and for
/// a reset. The print of a goal, which the entry keeps, is made once. Of an event whose line couldn't be read back it is nothing too; no such event is accepted.
pub fn entry_for(alloc: Global, rules: Rules, event: &Event) -> Result<PendingEntry, AllocError>
    ensures entry { IfOk result (λ p. p ≡ pending rules (lined_entry rules (event_of event.now))) }
    ensures nothing { is_entry (event_of event.now) ≡ false → IsOk result }
{
    match event {
        Event::Load { source } => load_for(alloc, rules, source.as_slice()),
        Event::Start {
            allowance,
            low,
            high,
            goal,
        } => start_for(alloc, rules, *allowance, *low, *high, goal),
        Event::Control { shoen, message } => Ok(control_for(rules, shoen.0, *message)),
        Event::Reduce { goal, clause } => Ok(step_for(rules, goal.0, clause.0)),
        Event::Answer {
            shoen,
            report,
            goal,
        } => answer_for(alloc, rules, shoen.0, *report, goal),
        Event::Forget { shoen, count } => Ok(forget_for(rules, shoen.0, *count)),
        _ => Ok(nothing(rules)),
    }
}

/// Nothing.
fn nothing(rules: Rules) -> PendingEntry
    ensures { result ≡ pending rules None }
{
    PendingEntry {
        rules,
        form: EntryForm::Nothing,
    }
}

/// Whether a number may stand in a command.
fn is_number(number: u64) -> bool
    ensures { result ≡ is_number number }
{
    number < NUMBER_LIMIT
}

/// A load of a source, if its line isn't too long.
fn load_for(alloc: Global, rules: Rules, source: &[u8]) -> Result<PendingEntry, AllocError>
    ensures { IfOk result (λ p. p ≡ pending rules (if_lined rules (loads source.now))) }
{
    if source.len() > MOST_LOADED {
        return Ok(nothing(rules));
    }
    let source = Vec::from_slice(alloc, source)?;
    Ok(PendingEntry {
        rules,
        form: EntryForm::Long(LongEntry::Load { source }),
    })
}

/// How many digits a number has.
fn digits(number: u64) -> usize
    ensures value { result ≡ length (decimal number) }
    ensures few { result ≤ 20 }
{
    let mut buffer = Buffer::new();
    buffer.format(number).len()
}

/// Whether the line of a start whose goal's print has `bytes` bytes isn't too long.
fn fits_line(allowance: u64, low: u64, high: u64, bytes: usize) -> bool
    ensures { result ≡ nat_le (9 + length (decimal allowance) + length (decimal low) + length (decimal high) + bytes) MOST_LINE_BYTES }
{
    bytes <= MOST_LINE_BYTES
        && 9 + digits(allowance) + digits(low) + digits(high) + bytes <= MOST_LINE_BYTES
}

/// Whether the numbers of a start may stand in a line, its goal, whose print is `text`, can be written and read back, and the line isn't
/// too long.
fn is_lined(
    alloc: Global,
    allowance: u64,
    low: u64,
    high: u64,
    goal: &Term,
    text: &[u8],
) -> Result<bool, AllocError>
    requires { text.now ≡ print goal.now }
    ensures { (rules : Rules) → IfOk result (λ may. may ≡ is_lined rules (starts allowance low high goal.now)) }
{
    let writable = goal.is_writable(alloc)?;
    Ok(
        is_number(allowance)
            && is_number(low)
            && is_number(high)
            && is_goal(goal)
            && writable
            && goal.is_numbered()
            && fits_line(allowance, low, high, text.len()),
    )
}

/// A start, if its line can be read back.
fn start_for(
    alloc: Global,
    rules: Rules,
    allowance: u64,
    low: u64,
    high: u64,
    goal: &Term,
) -> Result<PendingEntry, AllocError>
    ensures { IfOk result (λ p. p ≡ pending rules (if_lined rules (starts allowance low high goal.now))) }
{
    let text = print_whole(alloc, goal)?;
    if !is_lined(alloc, allowance, low, high, goal, text.as_slice())? {
        return Ok(nothing(rules));
    }
    Ok(PendingEntry {
        rules,
        form: EntryForm::Long(LongEntry::Start {
            allowance,
            low,
            high,
            goal: text,
        }),
    })
}

/// Whether a message and the number of its shoen may stand in a line.
fn may_send(shoen: u64, message: Message) -> bool
    ensures { result ≡ may_send shoen message }
{
    if !is_number(shoen) {
        return false;
    }
    match message {
        Message::Allow(more) => is_number(more),
        _ => true,
    }
}

/// A message to a shoen: in the row if the shoen's number has 32 bits.
fn control_for(rules: Rules, shoen: u64, message: Message) -> PendingEntry
    ensures { result ≡ pending rules (if_lined rules (sends shoen message)) }
{
    if !may_send(shoen, message) {
        return nothing(rules);
    }
    let form = match (u32::try_from(shoen), message) {
        (Ok(number), Message::Stop) => EntryForm::Short(PackedEntry::Stop(number)),
        (Ok(number), Message::Start) => EntryForm::Short(PackedEntry::Resume(number)),
        (Ok(number), Message::Abort) => EntryForm::Short(PackedEntry::Abort(number)),
        _ => EntryForm::Long(LongEntry::Control { shoen, message }),
    };
    PendingEntry { rules, form }
}

/// A reduction: in the row if both numbers have 32 bits.
pub fn step_for(rules: Rules, goal: u64, clause: u64) -> PendingEntry
    ensures { result ≡ pending rules (if_lined rules (steps goal clause)) }
{
    if !is_number(goal) || !is_number(clause) {
        return nothing(rules);
    }
    let form = match (u32::try_from(goal), u32::try_from(clause)) {
        (Ok(short_goal), Ok(short_clause)) => EntryForm::Short(PackedEntry::Step {
            goal: short_goal,
            clause: short_clause,
        }),
        _ => EntryForm::Long(LongEntry::Step { goal, clause }),
    };
    PendingEntry { rules, form }
}

/// A run of reductions: in the row if how many they are has 32 bits.
pub(crate) fn run_for(rules: Rules, reductions: u64) -> PendingEntry
    ensures { result ≡ pending rules (if_lined rules (runs reductions)) }
{
    if reductions == 0 || !is_number(reductions) {
        return nothing(rules);
    }
    let form = if reductions <= u32::MAX as u64 {
        EntryForm::Short(PackedEntry::Run(reductions as u32))
    } else {
        EntryForm::Long(LongEntry::Run(reductions))
    };
    PendingEntry { rules, form }
}

/// A letting go of reports or of a shoen, if these rules have it.
fn forget_for(rules: Rules, shoen: u64, count: u64) -> PendingEntry
    ensures { result ≡ pending rules (if_lined rules (forgets shoen count)) }
{
    if !rules.has_forgetting() || !is_number(shoen) || !is_number(count) {
        return nothing(rules);
    }
    PendingEntry {
        rules,
        form: EntryForm::Long(LongEntry::Forget { shoen, count }),
    }
}

/// Whether the variables of an answer's goal are numbered as these rules want it: as they are told, or from 1.
fn is_numbered_by(rules: Rules, goal: &Term) -> bool
    ensures { result ≡ is_numbered_by rules goal.now }
{
    if rules.has_told() {
        goal.is_told()
    } else {
        goal.is_numbered()
    }
}

/// Whether the line of an answer whose goal's print has `bytes` bytes isn't too long.
fn fits_answer(shoen: u64, report: u64, bytes: usize) -> bool
    ensures { result ≡ nat_le (9 + length (decimal shoen) + length (decimal report) + bytes) MOST_LINE_BYTES }
{
    bytes <= MOST_LINE_BYTES && 9 + digits(shoen) + digits(report) + bytes <= MOST_LINE_BYTES
}

/// Whether the numbers of an answer may stand in a line, its goal, whose print is `text`, can be written and read back, and the line isn't
/// too long.
fn is_answer_lined(
    alloc: Global,
    rules: Rules,
    shoen: u64,
    report: u64,
    goal: &Term,
    text: &[u8],
) -> Result<bool, AllocError>
    requires { text.now ≡ print goal.now }
    ensures { IfOk result (λ may. may ≡ is_lined rules (answers shoen report goal.now)) }
{
    let writable = goal.is_writable(alloc)?;
    Ok(
        is_number(shoen)
            && is_number(report)
            && is_goal(goal)
            && writable
            && is_numbered_by(rules, goal)
            && fits_answer(shoen, report, text.len()),
    )
}

/// An answer, if its line can be read back.
fn answer_for(
    alloc: Global,
    rules: Rules,
    shoen: u64,
    report: u64,
    goal: &Term,
) -> Result<PendingEntry, AllocError>
    ensures { IfOk result (λ p. p ≡ pending rules (if_lined rules (answers shoen report goal.now))) }
{
    let text = print_whole(alloc, goal)?;
    if !is_answer_lined(alloc, rules, shoen, report, goal, text.as_slice())? {
        return Ok(nothing(rules));
    }
    Ok(PendingEntry {
        rules,
        form: EntryForm::Long(LongEntry::Answer {
            shoen,
            report,
            goal: text,
            told: rules.has_told(),
        }),
    })
}
