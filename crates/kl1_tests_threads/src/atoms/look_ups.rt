// Look-ups of names that seats know, from one thread and from several at once.

ghost use Rattle.std.specs.Prelude.{◌≡◌, ℕ, ◌+◌, ◌<◌, ◌≤◌, All, IfOk, OnOk, Some, length, slice_get, vec_len};
ghost use Rattle.kl1_model.specs.declared.limits.TheConstants.{MOST_NAMES_BEFORE};
ghost use Rattle.kl1_atoms.specs.Seats.{IsSharedSeat, IsNewSharedSeat, face_in};
ghost use Rattle.kl1_atoms.specs.declared.atom_seat.AtomSeat.{AtomSeat};
ghost use Rattle.kl1_atoms.specs.Knowing.{KnowsFirst};

use crate::atoms::seats::next_seat;
use crate::measures::{are_all, moment, nanoseconds_since};
use kl1_atoms::{AtomSeat, AtomTable, Turns};
use kl1_text::AtomText;
use std::alloc::AllocError;
use std::rt::Clock;
use std::thread::{Threads, map_vec};

/// A seat that has looked each name up once.
#[tactic(auto, using(kl1_atoms::specs::Knowing::few_more))]
fn learn(table: &AtomTable, mut seat: AtomSeat, texts: &[AtomText]) -> AtomSeat
    requires of { IsSharedSeat table.now.table.shared.table_id seat.badge.table_id table.now.accounts (face_in seat.badge.views) seat.account }
    requires room { length (face_in seat.badge.views).knows + length texts.now ≤ (face_in seat.badge.views).room }
    ensures of { IsSharedSeat table.now.table.shared.table_id result.badge.table_id table.now.accounts (face_in result.badge.views) result.account }
    ensures known { KnowsFirst (face_in result.badge.views).knows texts.now (length texts.now) }
{
    for place in 0..texts.len() {
        let _ = table.intern(&mut seat, texts[place], &mut Turns::new());
    }
    seat
}

/// The last `count` of some seats, each of which has looked each name up once.
fn next_seats(
    table: &AtomTable,
    seats: &mut Vec<AtomSeat>,
    texts: &[AtomText],
    count: usize,
) -> Result<Vec<AtomSeat>, AllocError>
    requires seats { (k : ℕ) (seat : AtomSeat) → slice_get seats.old.items k ≡ Some seat → IsNewSharedSeat table.now.table.shared.table_id seat.badge.table_id table.now.accounts (face_in seat.badge.views) seat.account k }
    requires rooms { (k : ℕ) (seat : AtomSeat) → slice_get seats.old.items k ≡ Some seat → (face_in seat.badge.views).room ≡ MOST_NAMES_BEFORE }
    requires some { count ≤ vec_len seats.old }
    requires few { length texts.now ≤ 1000 }
    ensures seats { OnOk result ((k : ℕ) (seat : AtomSeat) → slice_get seats.new.items k ≡ Some seat → IsNewSharedSeat table.now.table.shared.table_id seat.badge.table_id table.now.accounts (face_in seat.badge.views) seat.account k) }
    ensures rooms { OnOk result ((k : ℕ) (seat : AtomSeat) → slice_get seats.new.items k ≡ Some seat → (face_in seat.badge.views).room ≡ MOST_NAMES_BEFORE) }
    ensures fewer { OnOk result (vec_len seats.new + count ≡ vec_len seats.old) }
    ensures known { IfOk result (λ next. All (λ seat. IsSharedSeat table.now.table.shared.table_id seat.badge.table_id table.now.accounts (face_in seat.badge.views) seat.account × KnowsFirst (face_in seat.badge.views).knows texts.now (length texts.now)) next.items) }
{
    let mut next = Vec::new(*seats.allocator());
    for _seat in 0..count {
        next.push(learn(table, next_seat(table, seats), texts))?;
    }
    Ok(next)
}

/// Looks names that a seat knows up, each `rounds` times, and sums their numbers.
fn found(table: &AtomTable, mut seat: AtomSeat, texts: &[AtomText], rounds: usize) -> u64
    requires of { IsSharedSeat table.now.table.shared.table_id seat.badge.table_id table.now.accounts (face_in seat.badge.views) seat.account }
    requires known { KnowsFirst (face_in seat.badge.views).knows texts.now (length texts.now) }
{
    let mut sum = 0u64;
    for _round in 0..rounds {
        for place in 0..texts.len() {
            let number = table.intern(&mut seat, texts[place], &mut Turns::new());
            sum = sum.wrapping_add(u64::from(number.number));
        }
    }
    sum
}

/// What numbers are that are all the same, or 0 if they differ.
fn common(numbers: &[u64]) -> u64 {
    match numbers {
        [first, ..] if are_all(numbers, *first) => *first,
        _ => 0,
    }
}

/// The sum of the numbers that each thread finds, all at once, or 0 if they differ; and the nanoseconds that they
/// take.
pub fn found_by<R: Threads + Clock + Sync>(
    rt: &R,
    table: &AtomTable,
    seats: &mut Vec<AtomSeat>,
    texts: &[AtomText],
    rounds: usize,
    count: usize,
) -> Result<(u64, u128), AllocError>
    requires seats { (k : ℕ) (seat : AtomSeat) → slice_get seats.old.items k ≡ Some seat → IsNewSharedSeat table.now.table.shared.table_id seat.badge.table_id table.now.accounts (face_in seat.badge.views) seat.account k }
    requires rooms { (k : ℕ) (seat : AtomSeat) → slice_get seats.old.items k ≡ Some seat → (face_in seat.badge.views).room ≡ MOST_NAMES_BEFORE }
    requires some { count ≤ vec_len seats.old }
    requires few { length texts.now ≤ 1000 }
    ensures seats { OnOk result ((k : ℕ) (seat : AtomSeat) → slice_get seats.new.items k ≡ Some seat → IsNewSharedSeat table.now.table.shared.table_id seat.badge.table_id table.now.accounts (face_in seat.badge.views) seat.account k) }
    ensures rooms { OnOk result ((k : ℕ) (seat : AtomSeat) → slice_get seats.new.items k ≡ Some seat → (face_in seat.badge.views).room ≡ MOST_NAMES_BEFORE) }
    ensures fewer { OnOk result (vec_len seats.new + count ≡ vec_len seats.old) }
{
    let next = next_seats(table, seats, texts, count)?;
    let start = moment(rt);
    let sums = map_vec(rt, next, &|seat| found(table, seat, texts, rounds))?;
    let time = nanoseconds_since(rt, start);
    Ok((common(sums.as_slice()), time))
}
