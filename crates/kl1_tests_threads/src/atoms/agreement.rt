// That seats of several accounts find one number for each name, also when two threads look the same names up at once.

ghost use Rattle.std.specs.Prelude.{◌≡◌, ℕ, ◌+◌, ◌<◌, ◌≤◌, [], Some, length, slice_get, vec_len};
ghost use Rattle.kl1_model.specs.declared.limits.TheConstants.{MOST_ACCOUNTS, MOST_NAMES_BEFORE};
ghost use Rattle.kl1_atoms.specs.declared.atom_seat.AtomSeat.{AtomSeat};
ghost use Rattle.kl1_atoms.specs.Seats.{IsSharedSeat, IsNewSharedSeat, face_in};

use crate::atoms::names::{names, put_sharing};
use crate::atoms::seats::next_seat;
use kl1_atoms::{AtomSeat, AtomTable, Turns};
use kl1_text::AtomText;
use std::alloc::{AllocError, Global};
use std::thread::{Threads, join};

/// Looks names up in turn: their numbers made into one, by which two rows of numbers can be told apart, and the seat.
#[tactic(auto, using(kl1_atoms::specs::Knowing::few_more))]
fn learned(table: &AtomTable, mut seat: AtomSeat, names: &[AtomText]) -> (u64, AtomSeat)
    requires of { IsSharedSeat table.now.table.shared.table_id seat.badge.table_id table.now.accounts (face_in seat.badge.views) seat.account }
    requires room { length (face_in seat.badge.views).knows + length names.now ≤ (face_in seat.badge.views).room }
    ensures { IsSharedSeat table.now.table.shared.table_id result.1.badge.table_id table.now.accounts (face_in result.1.badge.views) result.1.account }
{
    let mut row = 0u64;
    for name in names {
        let number = table.intern(&mut seat, *name, &mut Turns::new());
        row = row
            .wrapping_mul(1_000_003)
            .wrapping_add(u64::from(number.number));
    }
    (row, seat)
}

/// Whether two seats agree on each of some names.
fn agreed(table: &AtomTable, a: &mut AtomSeat, b: &mut AtomSeat, names: &[AtomText]) -> bool
    requires a { IsSharedSeat table.now.table.shared.table_id a.old.badge.table_id table.now.accounts (face_in a.old.badge.views) a.old.account }
    requires b { IsSharedSeat table.now.table.shared.table_id b.old.badge.table_id table.now.accounts (face_in b.old.badge.views) b.old.account }
    ensures { IsSharedSeat table.now.table.shared.table_id a.new.badge.table_id table.now.accounts (face_in a.new.badge.views) a.new.account }
{
    for name in names {
        if !table.agree(a, b, *name) {
            return false;
        }
    }
    true
}

/// Whether a seat agrees with each of some new ones on names, when those have looked them up.
fn others_agree(
    table: &AtomTable,
    seat: &mut AtomSeat,
    seats: &mut Vec<AtomSeat>,
    names: &[AtomText],
) -> bool
    requires of { IsSharedSeat table.now.table.shared.table_id seat.old.badge.table_id table.now.accounts (face_in seat.old.badge.views) seat.old.account }
    requires seats { (k : ℕ) (seat : AtomSeat) → slice_get seats.old.items k ≡ Some seat → IsNewSharedSeat table.now.table.shared.table_id seat.badge.table_id table.now.accounts (face_in seat.badge.views) seat.account k }
    requires rooms { (k : ℕ) (seat : AtomSeat) → slice_get seats.old.items k ≡ Some seat → (face_in seat.badge.views).room ≡ MOST_NAMES_BEFORE }
    requires few { length names.now ≤ MOST_NAMES_BEFORE }
{
    for _other in 0..seats.len() {
        let (_, mut other) = learned(table, next_seat(table, seats), names);
        if !agreed(table, seat, &mut other, names) {
            return false;
        }
    }
    true
}

/// Whether two threads that look names up at once, the last seats' of a new table, get the same numbers, and all seats then
/// agree on each name.
fn agree_at_once<R: Threads + Sync>(
    rt: &R,
    table: &AtomTable,
    seats: &mut Vec<AtomSeat>,
    names: &[AtomText],
) -> bool
    requires seats { (k : ℕ) (seat : AtomSeat) → slice_get seats.old.items k ≡ Some seat → IsNewSharedSeat table.now.table.shared.table_id seat.badge.table_id table.now.accounts (face_in seat.badge.views) seat.account k }
    requires two { 1 < vec_len seats.old }
    requires rooms { (k : ℕ) (seat : AtomSeat) → slice_get seats.old.items k ≡ Some seat → (face_in seat.badge.views).room ≡ MOST_NAMES_BEFORE }
    requires few { length names.now ≤ MOST_NAMES_BEFORE }
{
    let a = next_seat(table, seats);
    let b = next_seat(table, seats);
    let (first, second) = join(rt, || learned(table, a, names), || learned(table, b, names));
    let (row, mut alice) = first;
    let (its, mut bob) = second;
    let is_one_row = row == its;
    let agree = agreed(table, &mut alice, &mut bob, names);
    let all_agree = others_agree(table, &mut alice, seats, names);
    is_one_row & agree & all_agree
}

/// Whether two threads and all seats agree on 500 names in a new table of `accounts` accounts.
pub fn agree_in<R: Threads + Sync>(
    rt: &R,
    alloc: Global,
    accounts: usize,
) -> Result<bool, AllocError>
    requires { (1 < accounts) × (accounts ≤ MOST_ACCOUNTS) }
{
    let names = names(alloc, 500)?;
    let (table, mut seats) = AtomTable::new(alloc, accounts)?;
    Ok(agree_at_once(rt, &table, &mut seats, names.as_slice()))
}

/// Whether two threads agree on 50 names whose look-ups start at one bucket.
pub fn agree_on_one_bucket<R: Threads + Sync>(rt: &R, alloc: Global) -> Result<bool, AllocError> {
    let mut names = names(alloc, 50)?;
    let (table, mut seats) = AtomTable::new(alloc, 2)?;
    let found = put_sharing(&table, 1000, names.as_mut_slice());
    let agree = agree_at_once(rt, &table, &mut seats, names.as_slice());
    Ok((found == 50) & agree)
}

/// Whether seats that know nothing agree on the built-in names and on no other, and with one that looked a name up on that name, whose number
/// one more finds.
fn agree_on_what_is_known(
    table: &AtomTable,
    alice: &mut AtomSeat,
    bob: &mut AtomSeat,
    carol: &mut AtomSeat,
    dave: &mut AtomSeat,
) -> bool
    requires alice { IsSharedSeat table.now.table.shared.table_id alice.old.badge.table_id table.now.accounts (face_in alice.old.badge.views) alice.old.account }
    requires bob { IsSharedSeat table.now.table.shared.table_id bob.old.badge.table_id table.now.accounts (face_in bob.old.badge.views) bob.old.account }
    requires carol { IsSharedSeat table.now.table.shared.table_id carol.old.badge.table_id table.now.accounts (face_in carol.old.badge.views) carol.old.account }
    requires dave { IsSharedSeat table.now.table.shared.table_id dave.old.badge.table_id table.now.accounts (face_in dave.old.badge.views) dave.old.account }
    requires nothing { ((face_in carol.old.badge.views).knows ≡ []) × ((face_in dave.old.badge.views).knows ≡ []) }
    requires rooms { ((face_in carol.old.badge.views).room ≡ MOST_NAMES_BEFORE) × ((face_in dave.old.badge.views).room ≡ MOST_NAMES_BEFORE) }
{
    let append = AtomText::of(b"append");
    let built_in = table.agree(alice, bob, AtomText::of(b"[]"));
    let early = table.agree(alice, bob, append);
    let number = table.intern(carol, append, &mut Turns::new());
    let late = table.agree(alice, carol, append);
    let other = table.agree(carol, alice, AtomText::of(b"appen"));
    let its = table.intern(dave, append, &mut Turns::new());
    built_in & !early & late & !other & (number.number == 64 + 1024) & (its.number == 64 + 1024)
}

/// Whether seats of a new table agree on the built-in names and on no other, and with one that looked a name up on that name.
pub fn agree_on_what_one_knows(alloc: Global) -> Result<bool, AllocError> {
    let (table, mut seats) = AtomTable::new(alloc, 4)?;
    let mut alice = next_seat(&table, &mut seats);
    let mut bob = next_seat(&table, &mut seats);
    // The row of the account with number 1 begins after 1,024 names.
    let mut carol = next_seat(&table, &mut seats);
    let mut dave = next_seat(&table, &mut seats);
    Ok(agree_on_what_is_known(&table, &mut alice, &mut bob, &mut carol, &mut dave))
}
