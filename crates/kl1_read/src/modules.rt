// Modules.

ghost use Rattle.std.specs.Prelude.{◌≡◌, ◌+◌, ◌^◌, ◌<◌, ◌≤◌, List, [], length, map, option_and_then, None, Some, IfOk, IfErr, OnOk};
ghost use Rattle.kl1_model.specs.Module.{Clause, good, read_module, clause_of, clauses_from, is_otherwise, with_clause};
ghost use Rattle.kl1_read.specs.Followings.{clauses_ended, last_section, otherwise_on, standing_behind};
ghost use Rattle.kl1_read.specs.Items.{items_left};
ghost use Rattle.kl1_read.specs.Sources.{IsFaultOf, clause_of_parts, module_of_parts};
ghost use Rattle.kl1_read.specs.Statements.{given};
ghost use Rattle.kl1_read.specs.Views.{kept_token};

use crate::clause::read_clause;
use crate::clause_parts::ClauseParts;
use crate::following::section_for;
use crate::item::{Item, Next, Place, next_item};
use crate::kept::Kept;
use crate::module_line::named_module;
use crate::read_fault::ReadFault;
use crate::source::Source;
use kl1_text::AtomText;
use std::alloc::{AllocError, Global};

/// The module that a text is.
pub fn read_module(alloc: Global, text: &[u8]) -> Result<Source, ReadFault>
    ensures module { IfOk result (λ parts. read_module text.now ≡ good (module_of_parts text.now parts)) }
    ensures fault { IfErr result (IsFaultOf (read_module text.now)) }
{
    let place = Place {
        line: 1,
        bytes: text,
    };
    match next_item(alloc, place)? {
        Next::Nothing => Err(ReadFault::Bad { line: 1 }),
        Next::Bad(line) => Err(ReadFault::Bad { line }),
        Next::Whole(item, behind) => {
            let Item { line, tokens } = item;
            let name = named_module(tokens.as_slice());
            drop(tokens);
            match name {
                None => Err(ReadFault::Bad { line }),
                Some(name) => {
                    let mut clauses = Vec::new(alloc);
                    put_clauses(alloc, name, behind, &mut clauses)?;
                    Ok(Source { name, clauses })
                }
            }
        }
    }
}

/// Puts the clauses of the items that are left of a module of this name after the others.
fn put_clauses(
    alloc: Global,
    name: AtomText,
    place: Place<'_>,
    clauses: &mut Vec<ClauseParts>,
) -> Result<(), ReadFault>
    requires lines { place.line + length place.bytes.now < 2 ^ 64 }
    requires none { clauses.old.items ≡ [] }
    ensures clauses { OnOk result (clauses_from name [] None (items_left place.entry.line place.entry.bytes.now) ≡ good (map clause_of_parts clauses.new.items)) }
    ensures fault { IfErr result (IsFaultOf (clauses_from name [] None (items_left place.entry.line place.entry.bytes.now))) }
{
    let mut place = place;
    let mut pending = None;
    'items: loop {
        match next_item(alloc, place)? {
            Next::Nothing => return ended(pending),
            Next::Bad(line) => return Err(ReadFault::Bad { line }),
            Next::Whole(item, behind) => {
                let Item { line, tokens } = item;
                match put_item(alloc, name, clauses, &mut pending, line, tokens) {
                    Ok(true) => place = behind,
                    Ok(false) => return Err(ReadFault::Bad { line }),
                    Err(_refused) => return Err(ReadFault::Memory),
                }
            }
        }
    }
}

/// The end of a module's items: an `otherwise` on this line with no clause after it is bad.
fn ended(pending: Option<u64>) -> Result<(), ReadFault>
    ensures clauses { OnOk result ((before : List Clause) → clauses_ended before pending ≡ good before) }
    ensures fault { IfErr result (λ e. (before : List Clause) → IsFaultOf (clauses_ended before pending) e) }
{
    match pending {
        None => Ok(()),
        Some(line) => Err(ReadFault::Bad { line }),
    }
}

/// Puts what an item means after the clauses and the line of an `otherwise` directly after them, if it may follow them in a
/// module of this name. Answers whether it may.
fn put_item(
    alloc: Global,
    name: AtomText,
    clauses: &mut Vec<ClauseParts>,
    pending: &mut Option<u64>,
    line: u64,
    tokens: Vec<Kept>,
) -> Result<bool, AllocError>
    requires few { last_section clauses.old.items ≤ length clauses.old.items }
    ensures standing { IfOk result (λ put. given put (map clause_of_parts clauses.new.items, pending.new) ≡ standing_behind name (map clause_of_parts clauses.old.items, pending.old) line (map kept_token tokens.items)) }
    ensures few { OnOk result (last_section clauses.new.items ≤ length clauses.new.items) }
{
    if is_otherwise(tokens.as_slice()) {
        *pending = otherwise_on(line, clauses.as_slice(), *pending);
        return Ok(pending.is_some());
    }
    let behind = pending.is_some();
    *pending = None;
    put_clause(alloc, name, clauses, behind, tokens)
}

/// Whether the tokens of an item are `otherwise`.
fn is_otherwise(tokens: &[Kept]) -> bool
    ensures { result ≡ is_otherwise (Some (map kept_token tokens.now)) }
{
    match tokens {
        [Kept::Name(_quotes, _applied, word)] => word.name().is(&AtomText::of(b"otherwise")),
        _ => false,
    }
}

/// The line of an `otherwise` on this line, if it stands directly after a clause, and not after another `otherwise`.
fn otherwise_on(line: u64, before: &[ClauseParts], pending: Option<u64>) -> Option<u64>
    ensures { result ≡ otherwise_on line (map clause_of_parts before.now) pending }
{
    match before {
        [] => None,
        [_first, _others @ ..] => match pending {
            None => Some(line),
            Some(_line) => None,
        },
    }
}

/// Puts after the others the clause that the tokens of an item are, if they are one that may follow them in a module of
/// this name, directly after an `otherwise` or not. Answers whether it did.
fn put_clause(
    alloc: Global,
    name: AtomText,
    clauses: &mut Vec<ClauseParts>,
    behind: bool,
    tokens: Vec<Kept>,
) -> Result<bool, AllocError>
    requires few { last_section clauses.old.items ≤ length clauses.old.items }
    ensures clauses { IfOk result (λ put. given put (map clause_of_parts clauses.new.items) ≡ option_and_then (with_clause (map clause_of_parts clauses.old.items) behind) (clause_of name (map kept_token tokens.items))) }
    ensures few { OnOk result (last_section clauses.new.items ≤ length clauses.new.items) }
{
    let mut clause = ClauseParts {
        name,
        patterns: Vec::new(alloc),
        tests: Vec::new(alloc),
        section: 0,
        body: Vec::new(alloc),
    };
    if !read_clause(alloc, name, tokens, &mut clause)? {
        return Ok(false);
    }
    match section_for(clauses.as_slice(), behind, &clause) {
        None => Ok(false),
        Some(section) => {
            clause.section = section;
            clauses.push(clause)?;
            Ok(true)
        }
    }
}
