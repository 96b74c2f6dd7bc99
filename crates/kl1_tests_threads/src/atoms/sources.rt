// Code that takes any table of names, over a plain table and over a shared one.

ghost use Rattle.std.specs.Prelude.{◌≡◌, ◌≢◌, ◌+◌, ◌≤◌, ◌<◌, length};
ghost use Rattle.kl1_model.specs.declared.limits.TheConstants.{MOST_NAMES, MOST_NAMES_BEFORE};

use crate::atoms::seats::{next_plain_seat, next_seat};
use kl1_atoms::{AtomSource, AtomTable, PlainTable, SharedAtoms, Turns};
use kl1_text::AtomText;
use std::alloc::{AllocError, Global};

/// Whether a name gets a number, and is read back by it.
fn is_numbered<S: AtomSource>(
    source: &mut S,
    seat: &mut S::Seat,
    text: AtomText,
    number: u32,
) -> bool
    requires of { S.is_of source.old seat.old }
    requires room { length (S.knows seat.old) < (S.place seat.old).0.1 }
    ensures of { S.is_of source.new seat.new }
    ensures place { S.place seat.new ≡ S.place seat.old }
    ensures others { (other : S.Seat) → S.is_of source.old other → S.place other ≢ S.place seat.old → S.is_of source.new other }
    ensures few { length (S.knows seat.new) ≤ length (S.knows seat.old) + 1 }
    ensures room { (S.place seat.new).0.1 ≡ (S.place seat.old).0.1 }
{
    let found = source.intern(seat, text);
    let read = source.text_of(seat, found);
    (found.number == number) & read.is(&text)
}

/// Whether the first two seats of a new table, in which a row has `row` names, share its numbers: each names anew from its own row, and finds
/// what the other named.
fn are_shared<S: AtomSource>(
    source: &mut S,
    alice: &mut S::Seat,
    bob: &mut S::Seat,
    row: u16,
) -> bool
    requires alice { S.is_of source.old alice.old }
    requires bob { S.is_of source.old bob.old }
    requires apart { S.place alice.old ≢ S.place bob.old }
    requires few { (length (S.knows alice.old) ≤ 1000) × (length (S.knows bob.old) ≤ 1000) }
    requires rooms { (MOST_NAMES_BEFORE ≤ (S.place alice.old).0.1) × (MOST_NAMES_BEFORE ≤ (S.place bob.old).0.1) }
{
    let other = 64 + u32::from(row);
    let first = is_numbered(source, alice, AtomText::of(b"one"), 64);
    let second = is_numbered(source, bob, AtomText::of(b"two"), other);
    let same = is_numbered(source, bob, AtomText::of(b"one"), 64);
    let empty = is_numbered(source, alice, AtomText::of(b""), 65);
    let built_in = is_numbered(source, alice, AtomText::of(b"."), 1);
    let again = is_numbered(source, bob, AtomText::of(b"two"), other);
    first & second & same & empty & built_in & again
}

/// Whether names get the numbers from one on, and those again once all of them are known.
fn are_found_again<S: AtomSource>(
    source: &mut S,
    seat: &mut S::Seat,
    names: &[AtomText],
    first: usize,
) -> bool
    requires of { S.is_of source.old seat.old }
    requires room { length (S.knows seat.old) + length names.now ≤ (S.place seat.old).0.1 }
    requires small { first < 65536 }
{
    for place in 0..names.len() {
        if source.intern(seat, names[place]).number as usize != first + place {
            return false;
        }
    }
    for place in 0..names.len() {
        if source.intern(seat, names[place]).number as usize != first + place {
            return false;
        }
    }
    true
}

/// Whether two seats of a plain table share its numbers.
pub fn plain_seats_share(alloc: Global) -> Result<bool, AllocError> {
    let (mut table, mut seats) = PlainTable::new(alloc, 2)?;
    let mut bob = next_plain_seat(&table, &mut seats);
    let mut alice = next_plain_seat(&table, &mut seats);
    Ok(are_shared(&mut table, &mut alice, &mut bob, 4096))
}

/// Whether two seats of a shared table share its numbers.
pub fn seats_share(alloc: Global) -> Result<bool, AllocError> {
    let (table, mut seats) = AtomTable::new(alloc, 2)?;
    let mut bob = next_seat(&table, &mut seats);
    let mut alice = next_seat(&table, &mut seats);
    let mut source = SharedAtoms { table: &table };
    Ok(are_shared(&mut source, &mut alice, &mut bob, 1024))
}

/// Whether a seat of a shared table has published an entry of its own for a name that it was the first to look up, and the other none.
pub fn own_entries_are_counted(alloc: Global) -> Result<bool, AllocError> {
    let (table, mut seats) = AtomTable::new(alloc, 2)?;
    let mut bob = next_seat(&table, &mut seats);
    let mut alice = next_seat(&table, &mut seats);
    let none = (table.own_entries(&alice) == 0) & (table.own_entries(&bob) == 0);
    let first = table.intern(&mut alice, AtomText::of(b"one"), &mut Turns::new());
    let again = table.intern(&mut bob, AtomText::of(b"one"), &mut Turns::new());
    let one = (table.own_entries(&alice) == 1) & (table.own_entries(&bob) == 0);
    Ok(none & one & (first.number == again.number))
}

/// Whether a seat of a plain table that is given `names` finds them again.
pub fn a_full_plain_seat_finds(alloc: Global, names: &[AtomText]) -> Result<bool, AllocError>
    requires { length names.now ≤ MOST_NAMES }
{
    let (mut table, mut seats) = PlainTable::new(alloc, 2)?;
    let mut seat = next_plain_seat(&table, &mut seats);
    Ok(are_found_again(&mut table, &mut seat, names, 64 + 4096))
}

/// Whether the one seat of a shared table that is given `names` finds them again.
pub fn a_full_seat_finds(alloc: Global, names: &[AtomText]) -> Result<bool, AllocError>
    requires { length names.now ≤ MOST_NAMES_BEFORE }
{
    let (table, mut seats) = AtomTable::new(alloc, 1)?;
    let mut seat = next_seat(&table, &mut seats);
    let mut source = SharedAtoms { table: &table };
    Ok(are_found_again(&mut source, &mut seat, names, 64))
}
