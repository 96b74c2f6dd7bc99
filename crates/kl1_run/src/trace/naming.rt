// The names that an account had used when its journal began.

use kl1_command::Host;
use kl1_journal_entries::{may_follow, name_of, next_line};
use kl1_text::{AtomText, put_atom, put_name};
use kl1_user_events::{Event, Reply};
use kl1_words::Fault;
use std::alloc::{AllocError, Global};

/// The most names that one source brings in.
const MOST_TOGETHER: usize = 200;

/// The most arguments of a clause that brings in names.
const MOST_ARGUMENTS: usize = 8;

/// Names that were read from the lines of a text, and what is after them.
#[derive(Drop)]
pub struct NamesRead<'a> {
    pub names: Vec<AtomText>,
    pub rest: &'a [u8],
    /// Whether all of them were there. If not, the line after the last is no name.
    pub are_all: bool,
}

/// Reads as many names as a heading tells of.
pub fn read_names(alloc: Global, count: u64, text: &[u8]) -> Result<NamesRead<'_>, AllocError> {
    let mut names: Vec<AtomText> = Vec::new(alloc);
    let mut rest = text;
    for _ in 0..count {
        let name = match next_line(rest) {
            Some((line, after)) => match name_of(line) {
                Some(name) if may_follow(names.as_slice(), &name) => {
                    rest = after;
                    Some(name)
                }
                _ => None,
            },
            None => None,
        };
        let Some(name) = name else {
            return Ok(NamesRead {
                names,
                rest,
                are_all: false,
            });
        };
        names.push(name)?;
    }
    Ok(NamesRead {
        names,
        rest,
        are_all: true,
    })
}

/// A source in which names come first in this order: a module of the first, and facts with the others as their arguments.
fn source_of(alloc: Global, first: &AtomText, others: &[AtomText]) -> Result<Vec<u8>, AllocError> {
    let mut source = Vec::new(alloc);
    source.extend_from_slice(b":- module ")?;
    put_atom(&mut source, first)?;
    source.extend_from_slice(b".\n")?;
    let mut rest = others;
    for _ in 0..others.len().saturating_add(1) {
        let count = rest.len().min(MOST_ARGUMENTS);
        put_name(&mut source, first)?;
        let mut sign: &[u8] = b"(";
        for name in rest.get(..count).unwrap_or(&[]) {
            source.extend_from_slice(sign)?;
            put_atom(&mut source, name)?;
            sign = b",";
        }
        source.extend_from_slice(if count == 0 { b".\n" } else { b").\n" })?;
        rest = rest.get(count..).unwrap_or(&[]);
        if rest.is_empty() {
            return Ok(source);
        }
    }
    Ok(source)
}

/// Has an account in which nothing has happened use names in this order, and be fresh but for that: a reset keeps the names that were
/// used.
pub fn bring_in<H: Host>(alloc: Global, host: &mut H, names: &[AtomText]) -> Result<(), Fault> {
    let mut rest = names;
    // Each turn takes one name at least.
    for _ in 0..names.len() {
        let [first, ..] = rest else {
            break;
        };
        let count = rest.len().min(MOST_TOGETHER);
        let others = rest.get(1..count).unwrap_or(&[]);
        let source = source_of(alloc, first, others)?;
        apply(host, &Event::Load { source })?;
        rest = rest.get(count..).unwrap_or(&[]);
    }
    if !names.is_empty() {
        apply(host, &Event::Reset)?;
    }
    Ok(())
}

/// Has an event done, which isn't refused.
fn apply<H: Host>(host: &mut H, event: &Event) -> Result<(), Fault> {
    match &host.apply(event)? {
        Reply::Refused(_refusal) => Err(Fault::Memory),
        _ => Ok(()),
    }
}
