// Making the shared table, and its public look-ups.

ghost use Rattle.std.specs.Prelude.{◌≡◌, ℕ, ◌+◌, ◌-◌, ◌*◌, ◌<◌, ◌≤◌, List, [], ◌∷◌, Some, IsSome, IsTrue, IfOk, slice_get, vec_len, length};
ghost use Rattle.kl1_model.specs.declared.limits.TheConstants.{FIRST_NUMBER, MOST_ACCOUNTS, MOST_NAMES, MOST_NAMES_BEFORE};
ghost use Rattle.kl1_atoms.specs.Names.{text_in, text_by, HasRoom, Adds, PublishesWithin};
ghost use Rattle.kl1_text.specs.Words.{name_words, words_of};
ghost use Rattle.kl1_atoms.specs.Plays.{own, has_first};
ghost use Rattle.kl1_atoms.specs.Seats.{face_in, IsSharedSeat, IsNewSharedSeat, new_face, faces_from};
ghost use Rattle.kl1_atoms.specs.declared.atom_seat.AtomSeat.{AtomSeat};

use crate::atom_seat::AtomSeat;
use crate::atom_table::{AtomTable, WORDS_EACH};
use crate::face::{Size, View};
use crate::turns::Turns;
use atomic_table::{Badge, Seat, Table};
use kl1_model::limits::{FIRST_NUMBER, MOST_NAMES_BEFORE};
use kl1_text::{AtomNo, AtomText, FULL_WORD, WORDS, built_in_at};
use std::alloc::{AllocError, Global};
use std::mem;

impl AtomTable {
    /// A table for 1 to 32 accounts with room for 1,024 names of each, and a seat for each of them that knows the built-in names alone.
    pub fn new(alloc: Global, accounts: usize) -> Result<(AtomTable, Vec<AtomSeat>), AllocError>
        requires { (0 < accounts) × (accounts ≤ MOST_ACCOUNTS) }
        ensures accounts { IfOk result (λ made. made.0.accounts ≡ accounts) }
        ensures count { IfOk result (λ made. vec_len made.1 ≡ accounts) }
        ensures seats { IfOk result (λ made. (k : ℕ) (seat : AtomSeat) → slice_get made.1.items k ≡ Some seat → IsNewSharedSeat made.0.table.shared.table_id seat.badge.table_id made.0.accounts (face_in seat.badge.views) seat.account k) }
        ensures room { IfOk result (λ made. (k : ℕ) (seat : AtomSeat) → slice_get made.1.items k ≡ Some seat → (face_in seat.badge.views).room ≡ MOST_NAMES_BEFORE) }
        ensures entries { IfOk result (λ made. made.0.entries ≡ accounts * MOST_NAMES_BEFORE) }
    {
        AtomTable::with_room(alloc, accounts, MOST_NAMES_BEFORE)
    }

    /// Like `new`, with room for `room` names of each account, 2 to 4,096.
    pub fn with_room(
        alloc: Global,
        accounts: usize,
        room: usize,
    ) -> Result<(AtomTable, Vec<AtomSeat>), AllocError>
        requires accounts { (0 < accounts) × (accounts ≤ MOST_ACCOUNTS) }
        requires room { (1 < room) × (room ≤ MOST_NAMES) }
        ensures accounts { IfOk result (λ made. made.0.accounts ≡ accounts) }
        ensures count { IfOk result (λ made. vec_len made.1 ≡ accounts) }
        ensures seats { IfOk result (λ made. (k : ℕ) (seat : AtomSeat) → slice_get made.1.items k ≡ Some seat → IsNewSharedSeat made.0.table.shared.table_id seat.badge.table_id made.0.accounts (face_in seat.badge.views) seat.account k) }
        ensures room { IfOk result (λ made. (k : ℕ) (seat : AtomSeat) → slice_get made.1.items k ≡ Some seat → (face_in seat.badge.views).room ≡ room) }
        ensures entries { IfOk result (λ made. made.0.entries ≡ accounts * room) }
    {
        let entries = accounts * room;
        let zeros = vec![in alloc; 0u64; WORDS_EACH * entries]?;
        let size = Size {
            entries: entries as u64,
            room: room as u64,
            accounts: accounts as u64,
        };
        let (table, first) = Table::of_words(alloc, zeros.as_slice(), &size)?;
        let atoms = AtomTable {
            table,
            accounts: accounts as u64,
            room: room as u64,
            entries: entries as u64,
        };
        let seats = atoms.seats(alloc, first)?;
        Ok((atoms, seats))
    }

    /// A seat for each account, cut off one after the other from the first seat, which speaks for all.
    fn seats(&self, alloc: Global, first: Seat<(), View>) -> Result<Vec<AtomSeat>, AllocError>
        requires of { first.table_id ≡ self.now.table.shared.table_id }
        requires all { first.me ≡ (record { faces = faces_from self.now.entries self.now.room 0 self.now.accounts }, []) }
        requires range { self.now.accounts * self.now.room ≤ self.now.entries }
        ensures count { IfOk result (λ seats. vec_len seats ≡ self.now.accounts) }
        ensures seats { IfOk result (λ seats. (k : ℕ) (seat : AtomSeat) → slice_get seats.items k ≡ Some seat → IsNewSharedSeat self.now.table.shared.table_id seat.badge.table_id self.now.accounts (face_in seat.badge.views) seat.account k) }
        ensures room { IfOk result (λ seats. (k : ℕ) (seat : AtomSeat) → slice_get seats.items k ≡ Some seat → (face_in seat.badge.views).room ≡ self.now.room) }
    {
        let mut seats = Vec::with_capacity(alloc, self.accounts as usize)?;
        let mut rest = first;
        let mut from = 0;
        for account in 0..self.accounts {
            let seat = self.next_seat(&mut rest, account, from);
            from += self.room;
            seats.push_reserved(seat);
        }
        Ok(seats)
    }

    /// The seat of the next account, cut off from the seat that speaks for those that are left. Its entries begin with `from`.
    fn next_seat(&self, rest: &mut Seat<(), View>, account: u64, from: u64) -> AtomSeat
        requires of { rest.old.table_id ≡ self.now.table.shared.table_id }
        requires left { rest.old.me ≡ (record { faces = faces_from self.now.entries self.now.room from (self.now.accounts - account) }, []) }
        requires within { account < self.now.accounts }
        requires range { from + self.now.room ≤ self.now.entries }
        ensures of { rest.new.table_id ≡ rest.old.table_id }
        ensures left { rest.new.me ≡ (record { faces = faces_from self.now.entries self.now.room (from + self.now.room) (self.now.accounts - (account + 1)) }, []) }
        ensures seat { IsNewSharedSeat self.now.table.shared.table_id result.badge.table_id self.now.accounts (face_in result.badge.views) result.account account }
        ensures room { (face_in result.badge.views).room ≡ self.now.room }
    {
        let others = self.part(rest);
        let own = mem::replace(rest, others);
        resting_seat(own, account, from)
    }

    /// The number of a name, which the seat knows from then on. A turn is a bucket that was looked at.
    pub fn intern(&self, seat: &mut AtomSeat, text: AtomText, turns: &mut Turns) -> AtomNo
        requires of { IsSharedSeat self.now.table.shared.table_id seat.old.badge.table_id self.now.accounts (face_in seat.old.badge.views) seat.old.account }
        requires room { HasRoom (face_in seat.old.badge.views).room (face_in seat.old.badge.views).knows text }
        ensures of { IsSharedSeat self.now.table.shared.table_id seat.new.badge.table_id self.now.accounts (face_in seat.new.badge.views) seat.new.account }
        ensures account { seat.new.account ≡ seat.old.account }
        ensures same { (face_in seat.new.badge.views).room ≡ (face_in seat.old.badge.views).room }
        ensures adds { Adds (face_in seat.old.badge.views).knows text result (face_in seat.new.badge.views).knows }
        ensures publishes { PublishesWithin seat.old.used seat.new.used (face_in seat.old.badge.views).knows (face_in seat.new.badge.views).knows }
        ensures turns { (turns.old < turns.new) × (turns.new ≤ turns.old + 2 * self.now.entries) }
    {
        text.shows_text();
        let entry = seat.first + seat.used;
        let used = seat.used;
        let mut own = mem::replace(&mut seat.badge, Badge::blank()).into_seat();
        let ended = self.look_up(&mut own, &text, entry, used, turns);
        seat.badge = own.into_badge();
        seat.used = used + ended.more;
        ended.number
    }

    /// How many entries of its account's own range a seat has published: at most as many as it knows names that aren't built in, and
    /// all before the others. Its account alone publishes them.
    pub fn own_entries(&self, seat: &AtomSeat) -> u64
        requires of { IsSharedSeat self.now.table.shared.table_id seat.now.badge.table_id self.now.accounts (face_in seat.now.badge.views) seat.now.account }
        ensures used { result ≡ (face_in seat.now.badge.views).used }
        ensures published { result ≡ seat.now.used }
        ensures few { result ≤ length (face_in seat.now.badge.views).knows }
    {
        seat.used
    }

    /// Reads the words of an entry whose name the seat knows, up to the one in which the name ends. The words after that one are zero.
    fn read_text(&self, seat: &mut Seat<(), View>, entry: u64) -> [u64; WORDS]
        requires of { seat.old.table_id ≡ self.now.table.shared.table_id }
        requires first { IsTrue (has_first seat.old.me.0.faces) }
        requires entries { (own seat.old.me.0).entries ≡ self.now.entries }
        requires entry { entry < self.now.entries }
        ensures of { seat.new.table_id ≡ seat.old.table_id }
        ensures same { seat.new.me ≡ seat.old.me }
        ensures words { (t : List ℕ) → text_in (own seat.old.me.0).knows (FIRST_NUMBER + entry) ≡ Some t → result ≡ words_of name_words t }
    {
        let mut words = [0u64; WORDS];
        for word in 0..WORDS {
            let value = self.read(seat, entry, word as u64);
            words[word] = value;
            if value < FULL_WORD {
                return words;
            }
        }
        words
    }

    /// The name with number `number`, which the seat knows.
    pub fn text_of(&self, seat: &mut AtomSeat, number: AtomNo) -> AtomText
        requires of { IsSharedSeat self.now.table.shared.table_id seat.old.badge.table_id self.now.accounts (face_in seat.old.badge.views) seat.old.account }
        requires known { IsSome (text_by (face_in seat.old.badge.views).knows number.number) }
        ensures of { IsSharedSeat self.now.table.shared.table_id seat.new.badge.table_id self.now.accounts (face_in seat.new.badge.views) seat.new.account }
        ensures account { seat.new.account ≡ seat.old.account }
        ensures room { (face_in seat.new.badge.views).room ≡ (face_in seat.old.badge.views).room }
        ensures same { (face_in seat.new.badge.views).knows ≡ (face_in seat.old.badge.views).knows }
        ensures publishes { seat.new.used ≡ seat.old.used }
        ensures text { text_by (face_in seat.old.badge.views).knows number.number ≡ Some result }
    {
        if let Some(built_in) = built_in_at(number.number) {
            return AtomText::of_built_in(built_in);
        }
        let entry = u64::from(number.number - FIRST_NUMBER);
        let mut own = mem::replace(&mut seat.badge, Badge::blank()).into_seat();
        let words = self.read_text(&mut own, entry);
        seat.badge = own.into_badge();
        AtomText::of_words(words)
    }
}

/// The seat of one account, at rest, which knows the built-in names alone. Its entries begin with `first`.
fn resting_seat(own: Seat<(), View>, account: u64, first: u64) -> AtomSeat
    requires { (n : ℕ) × (room : ℕ) × (first + room ≤ n) × (own.me ≡ (record { faces = new_face n room first ∷ [] }, [])) }
    ensures table { result.badge.table_id ≡ own.table_id }
    ensures face { result.badge.views ≡ own.me.0 ∷ [] }
    ensures account { result.account ≡ account }
{
    AtomSeat {
        badge: own.into_badge(),
        account,
        first,
        used: 0,
    }
}
