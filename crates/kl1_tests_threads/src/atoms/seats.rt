// New seats, one after the other.

ghost use Rattle.std.specs.Prelude.{◌≡◌, ℕ, ◌+◌, ◌<◌, [], Some, slice_get, vec_len};
ghost use Rattle.kl1_model.specs.declared.limits.TheConstants.{MOST_NAMES_BEFORE};
ghost use Rattle.kl1_atoms.specs.declared.atom_seat.AtomSeat.{AtomSeat};
ghost use Rattle.kl1_atoms.specs.declared.plain_seat.PlainSeat.{PlainSeat};
ghost use Rattle.kl1_atoms.specs.Plain.{IsSeatOf, IsNewSeat};
ghost use Rattle.kl1_atoms.specs.Seats.{IsSharedSeat, IsNewSharedSeat, face_in};

use kl1_atoms::{AtomSeat, AtomTable, PlainSeat, PlainTable};

/// The last of some new seats of a shared table.
pub fn next_seat(table: &AtomTable, seats: &mut Vec<AtomSeat>) -> AtomSeat
    requires seats { (k : ℕ) (seat : AtomSeat) → slice_get seats.old.items k ≡ Some seat → IsNewSharedSeat table.now.table.shared.table_id seat.badge.table_id table.now.accounts (face_in seat.badge.views) seat.account k }
    requires rooms { (k : ℕ) (seat : AtomSeat) → slice_get seats.old.items k ≡ Some seat → (face_in seat.badge.views).room ≡ MOST_NAMES_BEFORE }
    requires some { 0 < vec_len seats.old }
    ensures seats { (k : ℕ) (seat : AtomSeat) → slice_get seats.new.items k ≡ Some seat → IsNewSharedSeat table.now.table.shared.table_id seat.badge.table_id table.now.accounts (face_in seat.badge.views) seat.account k }
    ensures rooms { (k : ℕ) (seat : AtomSeat) → slice_get seats.new.items k ≡ Some seat → (face_in seat.badge.views).room ≡ MOST_NAMES_BEFORE }
    ensures fewer { vec_len seats.new + 1 ≡ vec_len seats.old }
    ensures of { IsSharedSeat table.now.table.shared.table_id result.badge.table_id table.now.accounts (face_in result.badge.views) result.account }
    ensures nothing { (face_in result.badge.views).knows ≡ [] }
    ensures room { (face_in result.badge.views).room ≡ MOST_NAMES_BEFORE }
    ensures account { result.account ≡ vec_len seats.new }
{
    // Only contracts speak of the table.
    let _ = table;
    let Some(seat) = seats.pop() else {
        unreachable!()
    };
    seat
}

/// The last of some new seats of a plain table.
pub fn next_plain_seat(table: &PlainTable, seats: &mut Vec<PlainSeat>) -> PlainSeat
    requires seats { (k : ℕ) (seat : PlainSeat) → slice_get seats.old.items k ≡ Some seat → IsNewSeat table.now.places.items k seat.account seat.used seat.known.items }
    requires some { 0 < vec_len seats.old }
    ensures seats { (k : ℕ) (seat : PlainSeat) → slice_get seats.new.items k ≡ Some seat → IsNewSeat table.now.places.items k seat.account seat.used seat.known.items }
    ensures fewer { vec_len seats.new + 1 ≡ vec_len seats.old }
    ensures of { IsSeatOf table.now.places.items result.account result.used result.known.items }
    ensures nothing { result.known.items ≡ [] }
    ensures account { result.account ≡ vec_len seats.new }
{
    // Only contracts speak of the table.
    let _ = table;
    let Some(seat) = seats.pop() else {
        unreachable!()
    };
    seat
}
