// How long look-ups take: in a map on one thread, and in the shared table from one, two and four threads at once.

ghost use Rattle.std.specs.Prelude.{◌≡◌, ℕ, ◌≤◌, Some, length, slice_get, vec_len};
ghost use Rattle.kl1_model.specs.declared.limits.TheConstants.{MOST_NAMES_BEFORE};
ghost use Rattle.kl1_atoms.specs.Seats.{IsNewSharedSeat, face_in};
ghost use Rattle.kl1_atoms.specs.declared.atom_seat.AtomSeat.{AtomSeat};

use crate::atoms::look_ups::found_by;
use crate::measures::{Times, moment, nanoseconds_since};
use kl1_atoms::{AtomSeat, AtomTable};
use kl1_text::AtomText;
use std::alloc::{AllocError, Global};
use std::collections::HashMap;
use std::rt::Clock;
use std::thread::Threads;

/// Nanoseconds for the same look-ups: in a map on one thread, and in the table; all found the same numbers, or it is not right.
#[derive(Clone, Copy)]
pub struct Looks {
    pub map: u128,
    pub times: Times,
}

impl Looks {
    /// The less of each.
    pub fn least(self, other: Looks) -> Looks {
        Looks {
            map: self.map.min(other.map),
            times: self.times.least(other.times),
        }
    }
}

/// The times of one run over names, each looked up `rounds` times by each thread.
pub fn times_of_run<R: Threads + Clock + Sync>(
    rt: &R,
    alloc: Global,
    texts: &[AtomText],
    rounds: usize,
) -> Result<Looks, AllocError>
    requires { length texts.now ≤ 1000 }
{
    let map = map_of(alloc, texts)?;
    let (map, has_all) = map_time(rt, &map, texts, rounds);
    let mut times = times_of_table(rt, alloc, texts, rounds)?;
    times.is_right &= has_all;
    Ok(Looks { map, times })
}

/// The times of look-ups in a new table of seven accounts.
fn times_of_table<R: Threads + Clock + Sync>(
    rt: &R,
    alloc: Global,
    texts: &[AtomText],
    rounds: usize,
) -> Result<Times, AllocError>
    requires { length texts.now ≤ 1000 }
{
    let (table, mut seats) = AtomTable::new(alloc, 7)?;
    times_in(rt, &table, &mut seats, texts, rounds)
}

/// The times of look-ups in a table by one, two and four threads, each with its own seat.
fn times_in<R: Threads + Clock + Sync>(
    rt: &R,
    table: &AtomTable,
    seats: &mut Vec<AtomSeat>,
    texts: &[AtomText],
    rounds: usize,
) -> Result<Times, AllocError>
    requires seats { (k : ℕ) (seat : AtomSeat) → slice_get seats.old.items k ≡ Some seat → IsNewSharedSeat table.now.table.shared.table_id seat.badge.table_id table.now.accounts (face_in seat.badge.views) seat.account k }
    requires rooms { (k : ℕ) (seat : AtomSeat) → slice_get seats.old.items k ≡ Some seat → (face_in seat.badge.views).room ≡ MOST_NAMES_BEFORE }
    requires seven { 7 ≤ vec_len seats.old }
    requires few { length texts.now ≤ 1000 }
{
    let (first, one) = found_by(rt, table, seats, texts, rounds, 1)?;
    let (second, two) = found_by(rt, table, seats, texts, rounds, 2)?;
    let (third, four) = found_by(rt, table, seats, texts, rounds, 4)?;
    Ok(Times {
        one,
        two,
        four,
        is_right: (first != 0) & (second == first) & (third == first),
    })
}

/// A map of the names.
fn map_of(alloc: Global, texts: &[AtomText]) -> Result<HashMap<AtomText, u32>, AllocError> {
    let mut map = HashMap::new(alloc);
    for text in texts {
        map.insert(*text, 1)?;
    }
    Ok(map)
}

/// Nanoseconds that look-ups take in a map of the names, and whether it has all of them.
fn map_time<R: Clock>(
    rt: &R,
    map: &HashMap<AtomText, u32>,
    texts: &[AtomText],
    rounds: usize,
) -> (u128, bool) {
    let mut sum = 0usize;
    let start = moment(rt);
    for _round in 0..rounds {
        for text in texts {
            if let Some(number) = map.get(text) {
                sum = sum.wrapping_add(*number as usize);
            }
        }
    }
    let time = nanoseconds_since(rt, start);
    (time, sum == rounds.wrapping_mul(texts.len()))
}
