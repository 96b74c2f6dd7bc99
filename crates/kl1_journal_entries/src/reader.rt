// The reader of a journal's text.

ghost use Rattle.std.specs.Prelude.{◌≡◌, ◌≤◌, [], Some, IfOk, IfSome, bytes_eq, option_map, option_and_then, is_some};
ghost use Rattle.std.specs.List.{list_any};
ghost use Rattle.kl1_model.specs.declared.limits.TheConstants.{MOST_SESSIONS};
ghost use Rattle.kl1_model.specs.Rules.{limits_of};
ghost use Rattle.kl1_model.specs.Text.{is_built_in};
ghost use Rattle.kl1_model_server.specs.JournalText.{is_new_name, entry_in, journal_in};
ghost use Rattle.kl1_journal_entries.specs.Lined.{pending, if_lined};
ghost use Rattle.kl1_journal_entries.specs.Reading.{read_text, read_after};
ghost use Rattle.kl1_journal_entries.specs.Found.{deed_in, found_deed, found_entry, begun_at};

use crate::deed::Deed;
use crate::heading::{Heading, heading_of};
use crate::journal::Journal;
use crate::loose::parse_entry;
use crate::name::name_of;
use crate::pending_entry::{PendingEntry, entry_for, run_for};
use crate::text::next_line;
use kl1_model::Rules;
use kl1_model::limits::MOST_LINE_BYTES;
use kl1_text::AtomText;
use std::alloc::{AllocError, Global};

/// An entry that was read from its line.
#[derive(Drop)]
pub(crate) struct Found {
    deed: Deed,
    prepared: PendingEntry,
}

/// The entry that asks for this, if there is one and it has a line that reads back.
fn prepared_for(alloc: Global, rules: Rules, deed: &Deed) -> Result<PendingEntry, AllocError>
    ensures { IfOk result (λ entry. entry ≡ pending rules (option_and_then (if_lined rules) (deed_in deed.now))) }
{
    match deed {
        Deed::Event(event) => entry_for(alloc, rules, event),
        Deed::Run(reductions) => Ok(run_for(rules, *reductions)),
    }
}

/// The entry of a journal of these rules whose line this is, if there is one.
fn found_in(alloc: Global, rules: Rules, line: &[u8]) -> Result<Option<Found>, AllocError>
    ensures deed { IfOk result (λ found. option_and_then found_deed found ≡ entry_in rules line.now) }
    ensures entry { IfOk result (λ found. option_map found_entry found ≡ option_map (λ e. Some e) (entry_in rules line.now)) }
    ensures rules { IfOk result (λ found. IfSome found (λ f. f.prepared.rules ≡ rules)) }
{
    if line.len() > MOST_LINE_BYTES {
        return Ok(None);
    }
    let Some(deed) = parse_entry(alloc, rules, line)? else {
        return Ok(None);
    };
    let prepared = prepared_for(alloc, rules, &deed)?;
    if !prepared.is_canonical(alloc, line)? {
        return Ok(None);
    }
    Ok(Some(Found { deed, prepared }))
}

/// What the entry of a journal of these rules asks for whose line this is, if there is one. A line that isn't written as the journal's own is none.
pub fn entry_of(alloc: Global, rules: Rules, line: &[u8]) -> Result<Option<Deed>, AllocError>
    ensures deed { IfOk result (λ deed. option_and_then deed_in deed ≡ entry_in rules line.now) }
    ensures some { IfOk result (λ deed. is_some deed ≡ is_some (entry_in rules line.now)) }
{
    match found_in(alloc, rules, line)? {
        None => Ok(None),
        Some(Found { deed, .. }) => Ok(Some(deed)),
    }
}

/// Whether a name is built in.
#[tactic(auto, using(crate::proofs::BuiltIns::built_in_found))]
fn is_built_in(name: &AtomText) -> bool
    ensures { result ≡ is_built_in name.now }
{
    name.built_in().is_some()
}

/// Whether a name is among others.
fn is_among(names: &[AtomText], name: &AtomText) -> bool
    ensures { result ≡ list_any (bytes_eq name.now) names.now }
{
    names.iter().any(|other| name.is(other))
}

/// Whether a name may follow these in a journal: it isn't built in, and isn't among them.
pub fn may_follow(names: &[AtomText], name: &AtomText) -> bool
    ensures { result ≡ is_new_name names.now name.now }
{
    !is_built_in(name) && !is_among(names, name)
}

/// A journal whose heading and names were read, and the text after them.
#[derive(Drop)]
pub(crate) struct Begun<'a> {
    journal: Journal,
    rest: &'a [u8],
}

/// The journal that begins with a heading and, in this text, with its names, if these are names that may follow one another.
fn read_names<'a>(
    alloc: Global,
    heading: Heading,
    text: &'a [u8],
) -> Result<Option<Begun<'a>>, AllocError>
    requires sessions { heading.sessions ≤ MOST_SESSIONS }
    requires names { heading.names ≤ (limits_of heading.rules).names }
    ensures { IfOk result (λ begun. option_and_then begun_at begun ≡ read_after heading.rules heading.sessions [] heading.names text.now) }
{
    let mut names: Vec<AtomText> = Vec::new(alloc);
    let mut rest = text;
    while (names.len() as u64) < heading.names {
        let Some((line, after)) = next_line(rest) else {
            return Ok(None);
        };
        let Some(name) = name_of(line) else {
            return Ok(None);
        };
        if !may_follow(names.as_slice(), &name) {
            return Ok(None);
        }
        names.push(name)?;
        rest = after;
    }
    let journal = Journal::with_names(alloc, heading.rules, names.as_slice(), heading.sessions)?;
    Ok(Some(Begun { journal, rest }))
}

/// A journal with the entries after its own whose lines this text is, if it is.
fn read_entries(
    alloc: Global,
    mut journal: Journal,
    text: &[u8],
) -> Result<Option<Journal>, AllocError>
    ensures { IfOk result (λ read. option_map (λ j. j.journal) read ≡ read_text journal.journal text.now) }
{
    let mut rest = text;
    while let Some((line, after)) = next_line(rest) {
        let Some(Found { prepared, .. }) = found_in(alloc, journal.rules(), line)? else {
            return Ok(None);
        };
        journal.reserve()?;
        journal.put(prepared);
        rest = after;
    }
    if rest.is_empty() {
        Ok(Some(journal))
    } else {
        Ok(None)
    }
}

impl Journal {
    /// The journal that a text is, if it is one: each line is written as the journal's own, and ends with a line feed.
    pub fn read(alloc: Global, text: &[u8]) -> Result<Option<Journal>, AllocError>
        ensures { IfOk result (λ read. option_map (λ j. j.journal) read ≡ journal_in text.now) }
    {
        let Some((line, rest)) = next_line(text) else {
            return Ok(None);
        };
        let Some(heading) = heading_of(line) else {
            return Ok(None);
        };
        let Some(Begun { journal, rest }) = read_names(alloc, heading, rest)? else {
            return Ok(None);
        };
        read_entries(alloc, journal, rest)
    }
}
