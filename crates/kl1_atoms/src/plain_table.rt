// A plain table of names: one thread, and a search from the front.

ghost use Rattle.std.specs.Prelude.{◌≡◌, ◌≢◌, ℕ, ◌+◌, ◌*◌, ◌-◌, ◌<◌, ◌≤◌, List, Option, Some, None, IfOk, IfSome, IsNone, IfNone, option_map, slice_get, slice_set, vec_len, vec_capacity, length, IsTrue, ◌↔◌, []};
ghost use Rattle.kl1_model.specs.declared.limits.TheConstants.{MOST_ACCOUNTS, MOST_NAMES};
ghost use Rattle.kl1_model.specs.Text.{is_text};
ghost use Rattle.kl1_text.specs.declared.atom_no.AtomNo.{AtomNo};
ghost use Rattle.kl1_text.specs.BuiltIns.{built_in_of};
ghost use Rattle.kl1_atoms.specs.declared.known.Known.{Known};
ghost use Rattle.kl1_atoms.specs.Names.{number_in, text_in, text_by, HasRoom, Adds, AreNames};
ghost use Rattle.kl1_atoms.specs.Plain.{IsSeatOf, StandsAt, IsNewSeat, Held};
ghost use Rattle.kl1_atoms.specs.declared.plain_seat.PlainSeat.{PlainSeat};

use crate::atom_source::AtomSource;
use crate::known::Known;
use crate::plain_seat::PlainSeat;
use kl1_model::limits::{FIRST_NUMBER, MOST_NAMES};
use kl1_text::{AtomNo, AtomText, NameValue, built_in_at};
use std::alloc::{AllocError, Global};

/// A table of names for one thread: 4,096 places for each account, each of a name or free.
#[derive(Drop)]
pub struct PlainTable {
    places: Vec<Option<AtomText>>,
    pub ghost few: { vec_len places ≤ (MOST_ACCOUNTS * MOST_NAMES) },
}

impl PlainTable {
    /// A table for 1 to 32 accounts, and a seat for each of them that knows the built-in names alone.
    pub fn new(alloc: Global, accounts: usize) -> Result<(PlainTable, Vec<PlainSeat>), AllocError>
        requires { accounts ≤ MOST_ACCOUNTS }
        ensures places { IfOk result (λ made. vec_len made.0.places ≡ MOST_NAMES * accounts) }
        ensures count { IfOk result (λ made. vec_len made.1 ≡ accounts) }
        ensures seats { IfOk result (λ made. (k : ℕ) (seat : PlainSeat) → slice_get made.1.items k ≡ Some seat → IsNewSeat made.0.places.items k seat.account seat.used seat.known.items) }
    {
        let places = free_places(alloc, MOST_NAMES * accounts)?;
        let seats = new_seats(alloc, accounts)?;
        Ok((PlainTable { places }, seats))
    }

    /// The place of a text that isn't built in, which is put into the account's row if it has none yet.
    fn place_of(&mut self, seat: &mut PlainSeat, text: AtomText) -> usize
        requires of { IsSeatOf self.old.places.items seat.old.account seat.old.used seat.old.known.items }
        requires room { vec_len seat.old.known < MOST_NAMES }
        requires other { built_in_of text ≡ None }
        ensures bound { result < (MOST_ACCOUNTS * MOST_NAMES) }
        ensures known { seat.new.known ≡ seat.old.known }
        ensures account { seat.new.account ≡ seat.old.account }
        ensures name { IsTrue (is_text text) }
        ensures held { Held self.old.places.items self.new.places.items seat.old.account seat.old.used seat.new.used result text }
    {
        text.shows_text();
        if let Some(place) = place_in(self.places.as_slice(), &text) {
            return place;
        }
        let place = MOST_NAMES * seat.account + seat.used;
        self.places[place] = Some(text);
        seat.used += 1;
        place
    }
}

impl AtomSource for PlainTable {
    ghost use Rattle.std.specs.Prelude.{ℕ};
    ghost use Rattle.kl1_model.specs.declared.limits.TheConstants.{MOST_NAMES};
    ghost use Rattle.kl1_atoms.specs.Plain.{IsSeatOf, StandsAt};
    ghost use Rattle.kl1_atoms.specs.Knowing.{are_names};

    type Seat = PlainSeat;

    ghost is_of = { λ table seat. IsSeatOf table.places.items seat.account seat.used seat.known.items };

    ghost place = { λ seat. ((0, MOST_NAMES), seat.account) };

    ghost knows = { λ seat. seat.known.items };

    ghost published = { λ seat. seat.used };

    ghost one_to_one = { λ table seat of. are_names (StandsAt table.places.items) seat.known.items of.table of.there };

    fn intern(&mut self, seat: &mut PlainSeat, text: AtomText) -> AtomNo {
        if let Some(built_in) = text.built_in() {
            return AtomNo::of(built_in);
        }
        if let Some(number) = number_in(seat.known.as_slice(), &text) {
            return number;
        }
        let place = self.place_of(seat, text);
        let number = AtomNo {
            number: FIRST_NUMBER + place as u32,
        };
        seat.learn(Known { text, number });
        number
    }

    fn text_of(&mut self, seat: &mut PlainSeat, number: AtomNo) -> AtomText {
        if let Some(built_in) = built_in_at(number.number) {
            return AtomText::of_built_in(built_in);
        }
        match text_in(seat.known.as_slice(), number) {
            Some(text) => text,
            None => unreachable!(),
        }
    }
}

/// `count` free places.
fn free_places(alloc: Global, count: usize) -> Result<Vec<Option<AtomText>>, AllocError>
    ensures count { IfOk result (λ places. length places.items ≡ count) }
    ensures free { IfOk result (λ places. (i : ℕ) → i < count → slice_get places.items i ≡ Some None) }
{
    let mut places = Vec::new(alloc);
    places.resize(count, None)?;
    Ok(places)
}

/// A seat for each account, each with the built-in names alone.
fn new_seats(alloc: Global, accounts: usize) -> Result<Vec<PlainSeat>, AllocError>
    ensures count { IfOk result (λ seats. vec_len seats ≡ accounts) }
    ensures each { IfOk result (λ seats. (k : ℕ) (seat : PlainSeat) → slice_get seats.items k ≡ Some seat → (seat.account ≡ k) × (seat.used ≡ 0) × (seat.known.items ≡ [])) }
{
    let mut seats = Vec::with_capacity(alloc, accounts)?;
    for account in 0..accounts {
        let seat = PlainSeat::new(alloc, account)?;
        seats.push_reserved(seat);
    }
    Ok(seats)
}

/// The number of a text among names that are known.
fn number_in(known: &[Known], text: &AtomText) -> Option<AtomNo>
    ensures { option_map (λ a. a.number) result ≡ number_in known.now text.now }
{
    for one in known {
        if one.text.is(text) {
            return Some(one.number);
        }
    }
    None
}

/// The text of name `number` among names that are known.
fn text_in(known: &[Known], number: AtomNo) -> Option<AtomText>
    ensures { result ≡ text_in known.now number.number }
{
    for one in known {
        if one.number.number == number.number {
            return Some(one.text);
        }
    }
    None
}

/// The place of a text.
fn place_in(places: &[Option<AtomText>], text: &AtomText) -> Option<usize>
    ensures some { IfSome result (λ place. slice_get places.now place ≡ Some (Some text.now)) }
    ensures none { IfNone result ((i : ℕ) → slice_get places.now i ≢ Some (Some text.now)) }
{
    for (place, held) in places.iter().enumerate() {
        if holds(held, text) {
            return Some(place);
        }
    }
    None
}

/// Whether a place holds a text.
fn holds(place: &Option<AtomText>, text: &AtomText) -> bool
    ensures { IsTrue result ↔ (place.now ≡ Some text.now) }
{
    match place {
        Some(held) => held.is(text),
        None => false,
    }
}
