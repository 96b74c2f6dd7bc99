// Making the tally, and counting.

ghost use Rattle.std.specs.Prelude.{◌≡◌, ℕ, ◌+◌, ◌<◌, ◌≤◌, ◌^◌, [], List, map, replicate, All, IfOk, OnOk, vec_len};
ghost use Rattle.kl1_tally.specs.Numbers.{up_from};
ghost use Rattle.kl1_tally.specs.Seats.{Parts, Book, Share, new_book, new_share, raised_book, raised_share};
ghost use Rattle.kl1_tally.specs.Views.{view_of, whole, own_part, other_part, joint_view, CanPart};
ghost use Rattle.kl1_tally.specs.Plays.{RaisesBy, raised, CanRaise, IsBounded};

use crate::amounts::{Amounts, MOST_ACCOUNTS};
use crate::book_seat::BookSeat;
use crate::law::{Joined, Law, Parted, RaiseEvent, RaiseStep, Sizes};
use crate::share_seat::ShareSeat;
use crate::view::View;
use atomic_table::{Badge, Seat, Shared, Table};
use std::alloc::{AllocError, Global};
use std::marker::Model;
use std::mem;

/// Where the books of accounts and the shares of threads are made and counted. Contracts see which tally it is, and how many
/// books and shares it was made with.
#[derive(Drop)]
pub struct Tally {
    pub(crate) table: Table<(), View, Sizes, Law, Global>,
}

impl Model for Tally {
    ghost use Rattle.std.specs.Prelude.{◌≡◌, ◌≤◌};
    ghost use Rattle.kl1_tally.specs.declared.amounts.TheConstants.{MOST_ACCOUNTS};
    ghost use Rattle.kl1_tally.specs.Seats.{Parts};

    ghost Value = { Parts };

    ghost view = { λ tally. record { id = tally.table.shared.table_id; accounts = tally.table.shared.key.accounts; shares = tally.table.shared.key.shares } };

    ghost invariant = { λ tally. (tally.table.shared.table_id.words ≡ 1) × (tally.table.shared.table_id.slots ≡ 0) × (tally.table.shared.key.accounts ≤ MOST_ACCOUNTS) };
}

impl Tally {
    /// The words of the tally. Whoever has them can do what keeps their rule, of which `seats_add_up` speaks, and nothing else.
    pub fn words(&self) -> &Shared<(), View, Sizes, Law>
        ensures of { result.now.table_id ≡ self.now.id }
        ensures sizes { (result.now.key.accounts ≡ self.now.accounts) × (result.now.key.shares ≡ self.now.shares) }
    {
        &self.table.shared
    }

    /// Makes two seats one.
    pub(crate) fn join(&self, seat: &mut Seat<(), View>, other: Seat<(), View>)
        requires of { seat.old.table_id ≡ self.now.id }
        requires other { other.table_id ≡ self.now.id }
        requires free { other.me.1 ≡ [] }
        ensures of { seat.new.table_id ≡ self.now.id }
        ensures both { seat.new.me ≡ (joint_view seat.old.me.0 other.me.0, seat.old.me.1) }
    {
        self.table.shared.join_seat::<Joined>(seat, other);
    }

    /// Cuts the book of a seat's first account off: the new seat has the rest.
    pub(crate) fn part(&self, seat: &mut Seat<(), View>) -> Seat<(), View>
        requires of { seat.old.table_id ≡ self.now.id }
        requires can { CanPart seat.old.me.0 }
        ensures of { seat.new.table_id ≡ self.now.id }
        ensures own { seat.new.me ≡ (own_part seat.old.me.0, seat.old.me.1) }
        ensures table { result.table_id ≡ self.now.id }
        ensures other { result.me ≡ (other_part seat.old.me.0, []) }
    {
        self.table.shared.split_seat::<Parted>(seat)
    }

    /// Counts one event of a seat's account in its book and in its amount.
    fn count(&self, seat: &mut Seat<(), View>, step: bool)
        requires of { seat.old.table_id ≡ self.now.id }
        requires can { CanRaise seat.old.me.0 }
        ensures of { seat.new.table_id ≡ self.now.id }
        ensures raised { seat.new.me ≡ (raised seat.old.me.0 step, seat.old.me.1) }
        ensures bound { IsBounded seat.old.me.0 }
    {
        if step {
            self.table.shared.load::<RaiseStep>(seat, 0);
        } else {
            self.table.shared.load::<RaiseEvent>(seat, 0);
        }
    }

    /// A tally with a book for each account and with some shares, all at zero. The accounts' numbers count from 0.
    pub fn new(
        alloc: Global,
        accounts: usize,
        shares: usize,
    ) -> Result<(Tally, Vec<BookSeat>, Vec<ShareSeat>), AllocError>
        requires { accounts ≤ MOST_ACCOUNTS }
        ensures tally { IfOk result (λ made. (made.0.accounts ≡ accounts) × (made.0.shares ≡ shares)) }
        ensures books { IfOk result (λ made. made.1.items ≡ map (new_book made.0.id) (up_from 0 accounts)) }
        ensures shares { IfOk result (λ made. made.2.items ≡ replicate shares (new_share made.0.id)) }
        ensures of { IfOk result (λ made. All (λ book. book.tally ≡ made.0.id) made.1.items × All (λ share. share.tally ≡ made.0.id) made.2.items) }
        ensures counts { IfOk result (λ made. (vec_len made.1 ≡ accounts) × (vec_len made.2 ≡ shares)) }
    {
        let sizes = Sizes {
            accounts: accounts as u64,
            shares: shares as u64,
        };
        let (table, first) = Table::of_words(alloc, &[0], &sizes)?;
        let tally = Tally { table };
        let mut rest = first;
        let books = tally.books(alloc, &mut rest, accounts)?;
        let shares = tally.shares(alloc, &mut rest, shares)?;
        Ok((tally, books, shares))
    }

    /// A book for each account, cut off one after the other from the first seat.
    fn books(
        &self,
        alloc: Global,
        rest: &mut Seat<(), View>,
        accounts: usize,
    ) -> Result<Vec<BookSeat>, AllocError>
        requires of { rest.old.table_id ≡ self.now.id }
        requires few { accounts ≤ MOST_ACCOUNTS }
        requires all { accounts ≡ self.now.accounts }
        requires first { rest.old.me ≡ (whole self.now.accounts self.now.shares, []) }
        ensures of { rest.new.table_id ≡ self.now.id }
        ensures rest { OnOk result (rest.new.me ≡ (view_of self.now.shares [] [] [], [])) }
        ensures books { IfOk result (λ books. books.items ≡ map (new_book self.now.id) (up_from 0 accounts)) }
        ensures count { IfOk result (λ books. vec_len books ≡ accounts) }
    {
        let mut books = Vec::with_capacity(alloc, accounts)?;
        for account in 0..accounts {
            let others = self.part(rest);
            let own = mem::replace(rest, others);
            books.push_reserved(book_at_zero(own, account));
        }
        Ok(books)
    }

    /// Some shares, cut off one after the other from a seat that has no books.
    fn shares(
        &self,
        alloc: Global,
        rest: &mut Seat<(), View>,
        shares: usize,
    ) -> Result<Vec<ShareSeat>, AllocError>
        requires of { rest.old.table_id ≡ self.now.id }
        requires left { rest.old.me ≡ (view_of shares [] [] [], []) }
        ensures shares { IfOk result (λ made. made.items ≡ replicate shares (new_share self.now.id)) }
        ensures count { IfOk result (λ made. vec_len made ≡ shares) }
    {
        let mut made = Vec::with_capacity(alloc, shares)?;
        for _ in 0..shares {
            let others = self.part(rest);
            let own = mem::replace(rest, others);
            made.push_reserved(share_at_zero(own));
        }
        Ok(made)
    }

    /// Counts one event, which is a step or not, in the book of an account and in a thread's share. It takes no memory and never
    /// waits.
    pub fn raise(&self, book: &mut BookSeat, share: &mut ShareSeat, step: bool)
        requires book { book.old.tally ≡ self.now.id }
        requires share { share.old.tally ≡ self.now.id }
        requires room { book.old.events < 2 ^ 63 }
        ensures book { book.new ≡ raised_book book.old step }
        ensures share { share.new ≡ raised_share share.old book.old.account step }
    {
        let mut joint = mem::replace(&mut book.badge, Badge::blank()).into_seat();
        let other = mem::replace(&mut share.badge, Badge::blank()).into_seat();
        self.join(&mut joint, other);
        self.count(&mut joint, step);
        let parted = self.part(&mut joint);
        book.badge = joint.into_badge();
        book.events += 1;
        book.steps += u64::from(step);
        share.badge = parted.into_badge();
        share.amounts.add(book.account, step);
    }
}

/// The book of an account, at zero.
fn book_at_zero(own: Seat<(), View>, account: usize) -> BookSeat
    requires own { own.me ≡ (view_of 1 (up_from account 1) [] [], []) }
    requires within { account < MOST_ACCOUNTS }
    ensures { result ≡ new_book own.table_id account }
{
    BookSeat {
        badge: own.into_badge(),
        account,
        events: 0,
        steps: 0,
    }
}

/// A share at zero.
fn share_at_zero(own: Seat<(), View>) -> ShareSeat
    requires { own.me ≡ (view_of 1 [] [] [], []) }
    ensures { result ≡ new_share own.table_id }
{
    ShareSeat {
        badge: own.into_badge(),
        amounts: Amounts::zero(),
    }
}
