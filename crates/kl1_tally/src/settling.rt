// Adding all shares up.

ghost use Rattle.std.specs.Prelude.{◌≡◌, [], All, vec_len};
ghost use Rattle.kl1_tally.specs.Totals.{Settled, TookShares, TookBooks};
ghost use Rattle.kl1_tally.specs.Views.{spent_view};

use crate::amounts::Amounts;
use crate::book_seat::BookSeat;
use crate::law::Enter;
use crate::share_seat::ShareSeat;
use crate::tally::Tally;
use crate::view::View;
use atomic_table::Seat;

impl Tally {
    /// A seat with nothing.
    fn empty_seat(&self) -> Seat<(), View>
        ensures of { result.table_id ≡ self.now.id }
        ensures empty { result.me ≡ (spent_view, []) }
    {
        let (_, seat) = self.table.shared.load_new_seat::<Enter>(0);
        seat
    }

    /// Joins all shares to a seat with nothing.
    fn take_shares(&self, joint: &mut Seat<(), View>, mut shares: Vec<ShareSeat>)
        requires of { joint.old.table_id ≡ self.now.id }
        requires empty { joint.old.me ≡ (spent_view, []) }
        requires shares_of { All (λ share. share.tally ≡ self.now.id) shares.items }
        ensures of { joint.new.table_id ≡ self.now.id }
        ensures free { joint.new.me.1 ≡ [] }
        ensures took { TookShares shares.items [] joint.new.me.0 }
    {
        while let Some(share) = shares.pop() {
            self.join(joint, share.badge.into_seat());
        }
    }

    /// Joins all books to a seat that has none, and answers what they tell, at the accounts' numbers.
    fn take_books(&self, joint: &mut Seat<(), View>, mut books: Vec<BookSeat>) -> Amounts
        requires of { joint.old.table_id ≡ self.now.id }
        requires free { joint.old.me.1 ≡ [] }
        requires none { (joint.old.me.0.names ≡ []) × (joint.old.me.0.book ≡ []) }
        requires books_of { All (λ book. book.tally ≡ self.now.id) books.items }
        ensures of { joint.new.table_id ≡ self.now.id }
        ensures free { joint.new.me.1 ≡ [] }
        ensures took { TookBooks books.items [] joint.old.me.0 joint.new.me.0 result.events result.steps }
    {
        let mut told = Amounts::zero();
        while let Some(book) = books.pop() {
            let account = book.account;
            told.events[account] = book.events;
            told.steps[account] = book.steps;
            self.join(joint, book.badge.into_seat());
        }
        told
    }

    /// What all shares counted of each account, which is what its book tells. It takes no memory and never waits.
    pub fn settle(self, books: Vec<BookSeat>, shares: Vec<ShareSeat>) -> Amounts
        requires books_of { All (λ book. book.tally ≡ self.id) books.items }
        requires shares_of { All (λ share. share.tally ≡ self.id) shares.items }
        requires all_books { vec_len books ≡ self.accounts }
        requires all_shares { vec_len shares ≡ self.shares }
        ensures { Settled self.accounts books.items shares.items result }
    {
        let mut joint = self.empty_seat();
        self.take_shares(&mut joint, shares);
        let told = self.take_books(&mut joint, books);
        let Tally { table } = self;
        table.close_with(joint).free();
        told
    }
}
