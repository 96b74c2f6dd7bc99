// The history of an account's file: what it is to hold, note after note. It exists in proofs alone: what is kept is how long it is.

ghost use Rattle.std.specs.Prelude.{◌≡◌, ◌≤◌, ◌++◌, ◌∷◌, [], true, None, length, OnOk, OnErr};
ghost use Rattle.kl1_host_journals.specs.Editions.{MayFollow, IsUpToDate, last_of};
ghost use Rattle.kl1_host_journals.specs.Histories.{head_of};
ghost use Rattle.kl1_host_journals.specs.FreshHistories.{books_of};

use crate::edition::Edition;
use crate::fresh_history::FreshHistory;
use crate::place::Place;
use kl1_journal_stamps::ShownIds;
use logbook::{Gain, Offer, Plain, Play, Rule, Seen, Word};
use std::alloc::AllocError;
use std::marker::{Brand, PhantomData};

/// The rule of a history.
pub struct Law;

impl Rule<Edition, u64> for Law {
    ghost use Rattle.std.specs.Prelude.{[]};
    ghost use base.Fml.{ftrue};
    ghost use Rattle.kl1_host_journals.specs.Histories.{IsKept};

    ghost holds = { λ cells log. IsKept cells log };

    ghost first = { [] };

    ghost hinted = { λ n log. Unit {0} };

    ghost shows = { λ log. [] };

    ghost keeps = { λ names log. ftrue };

    ghost moves = { λ ask before after answer. Unit {0} };
}

/// Who adds to a history trades nothing for it.
pub struct Nothing;

impl Gain<Edition, u64> for Nothing {
    ghost use base.Fml.{ftrue};

    ghost after = { λ names about answer. ftrue };
}

/// A step that adds an edition.
pub struct Add;

impl Play<Edition, u64> for Add {
    ghost use Rattle.kl1_host_journals.specs.Histories.{Adds};

    ghost then = { Adds };
}

/// A step that looks how long a history is.
pub struct Look;

impl Play<Edition, u64> for Look {
    ghost use Rattle.kl1_host_journals.specs.Histories.{Looks};

    ghost then = { Looks };
}

/// It asks for nothing.
impl Plain<(), Edition, u64> for Look {
    ghost use Rattle.std.specs.Prelude.{None};
    ghost use Rattle.kl1_host_journals.specs.Editions.{no_edition};

    ghost ask = { λ _. no_edition };

    ghost state = { λ _. None };
}

/// Which histories each account has, by its number.
pub trait Naming: ShownIds {
    ghost use Rattle.std.specs.Prelude.{ℕ};
    ghost use Rattle.kl1_host_journals.specs.Books.{Books};

    ghost books: { ℕ → Books };
}

impl Naming for Brand {
    ghost use Rattle.kl1_host_journals.specs.Books.{no_books};

    ghost books = { λ account. no_books };
}

/// All that was noted for the file of an account.
#[derive(Drop)]
pub struct History<J: Naming> {
    account: u32,
    count: u64,
    head: Word<Edition, u64, Law>,
    seen: Seen<Edition, u64, Law>,
    of: PhantomData<J>,
    ghost head_is: { head ≡ head_of (J.books account).noted },
    ghost book_is: { seen.book ≡ (J.books account).noted },
    ghost counted: { count ≡ length seen.log },
}

impl<J: Naming> History<J> {
    /// The history of this account, without editions.
    pub fn new(fresh: FreshHistory, account: u32) -> Self
        requires { books_of fresh ≡ J.books account }
        ensures account { result.account ≡ account }
        ensures empty { result.seen.log ≡ [] }
    {
        let FreshHistory { head, seen } = fresh;
        History {
            account,
            count: 0,
            head,
            seen,
            of: PhantomData,
        }
    }

    /// All that was noted so far, if something was.
    pub(crate) fn place(&self) -> Place<J>
        requires { 1 ≤ length self.now.seen.log }
        ensures account { result.account ≡ self.now.account }
        ensures log { result.seen.log ≡ self.now.seen.log }
    {
        Place {
            account: self.account,
            seen: self.seen.again(),
            of: PhantomData,
        }
    }

    /// Whether it has all that was noted up to a place, and nobody has added an edition to it otherwise, which never is so.
    pub(crate) fn has(&self, noted: &Place<J>) -> bool
        ensures { result ≡ true → (last_of noted.now.seen.log).number ≤ (last_of self.now.seen.log).number }
    {
        if noted.account() != self.account {
            return false;
        }
        let mut seen = self.seen.again();
        seen.learn(&noted.seen);
        let mut offer: Offer<Edition, u64, Law, Nothing> = seen.plain::<Nothing, (), Look>(&());
        let found = self.head.load::<Look, Nothing>(&mut seen, &mut offer);
        found == self.count
    }

    /// Adds an edition. An error if there are others, which never is so, or if there are too many.
    pub(crate) fn add<X, M: Plain<X, Edition, u64>>(&mut self, about: &X) -> Result<(), AllocError>
        requires state { M.state about.now ≡ None }
        requires follows { MayFollow self.old.seen.log (M.ask about.now) }
        requires dated { IsUpToDate (self.old.seen.log ++ M.ask about.now ∷ []) }
        ensures account { self.new.account ≡ self.old.account }
        ensures ok { OnOk result (self.new.seen.log ≡ self.old.seen.log ++ M.ask about.now ∷ []) }
        ensures err { OnErr result (self.new.seen.log ≡ self.old.seen.log) }
    {
        if self.count == u64::MAX {
            return Err(AllocError);
        }
        let count = self.count + 1;
        let mut seen = self.seen.again();
        let mut offer: Offer<Edition, u64, Law, Nothing> = seen.plain::<Nothing, X, M>(about);
        let mut pen = seen.no_pen();
        let found = self
            .head
            .compare_exchange::<Add, Nothing>(self.count, count, &mut seen, &mut offer, &mut pen);
        if found != self.count {
            return Err(AllocError);
        }
        self.count = count;
        self.seen = seen;
        Ok(())
    }
}
