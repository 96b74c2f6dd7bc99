// What lies under the lock of a place for an account.

ghost use Rattle.std.specs.Prelude.{◌≡◌, ◌≤◌, ◌-◌, ℕ, List, Some, None, IfSome, IfOk, IfErr, slice_get, [], false};
ghost use Rattle.atomic_table.specs.Seated.{TableId};
ghost use Rattle.kl1_atoms.specs.declared.atom_seat.AtomSeat.{AtomSeat};
ghost use Rattle.kl1_model.specs.declared.rules.Rules.{Rules};
ghost use Rattle.kl1_model_server.specs.laws.TextLaws.{AreNames};
ghost use Rattle.kl1_journal_stamps.specs.Stamps.{HistoryId};
ghost use Rattle.kl1_pool_tickets.specs.Parts.{IsNewBook};
ghost use Rattle.kl1_pool.specs.Names.{called_at};
ghost use Rattle.kl1_pool.specs.Parts.{IsFreshSeat};

use crate::memory::was_sent;
use crate::pool_account::PoolAccount;
use crate::pool_ids::PoolIds;
use crate::shared_tables::SharedTables;
use crossbeam_utils::CachePadded;
use kl1_atoms::AtomSeat;
use kl1_command::Performed;
use kl1_journal::{AccountName, JournaledAccount, Rules};
use kl1_journal_stamps::ShownHistory;
use kl1_pool_tickets::Booked;
use kl1_tally::BookSeat;
use kl1_text::AtomText;
use std::alloc::Global;
use std::marker::{Model, PhantomData};
use std::sync::Wait;

/// What an account is made of, with a book: the rules that it keeps to, a seat, and a history of its journals that are shown.
#[derive(Drop)]
pub(crate) struct Vacancy {
    pub(crate) rules: Rules,
    pub(crate) seat: AtomSeat,
    pub(crate) shown: ShownHistory,
}

/// A place without an account: its book, and what an account is made of, unless one came before. Contracts see the account's number.
#[derive(Drop)]
pub(crate) struct EmptyPlace<K: PoolIds> {
    book: BookSeat,
    vacancy: Option<Vacancy>,
    of: PhantomData<K>,
}

impl<K: PoolIds> Model for EmptyPlace<K> {
    ghost use Rattle.std.specs.Prelude.{◌≡◌, ℕ, Some, None, IfSome, slice_get};
    ghost use Rattle.kl1_pool_tickets.specs.Parts.{IsNewBook};
    ghost use Rattle.kl1_pool.specs.Parts.{IsFreshSeat};

    ghost Value = { ℕ };

    ghost view = { λ p. p.book.account };

    ghost invariant = { λ p. (p.book.tally ≡ K.tally) × IfSome p.vacancy (λ v. (v.rules ≡ K.rules) × IsFreshSeat K.table K.seats K.rules v.seat × IsNewBook K.tally p.book × (slice_get K.histories p.book.account ≡ Some v.shown.history) × (v.shown.last ≡ None)) };
}

impl<K: PoolIds> EmptyPlace<K> {
    /// One to which no account comes any more.
    pub(crate) fn left(book: BookSeat) -> Self
        requires { book.tally ≡ K.tally }
        ensures { result ≡ book.account }
    {
        EmptyPlace {
            book,
            vacancy: None,
            of: PhantomData,
        }
    }

    /// The number of its account.
    pub(crate) fn account(&self) -> usize
        ensures { result ≡ self.now }
    {
        self.book.account()
    }

    /// An account of this name, in which nothing has happened since the reset at which it had used `texts`. If memory is refused, or one came
    /// before, the place is given back, to which none comes any more.
    pub(crate) fn settle<'t, R: Wait>(
        self,
        alloc: Global,
        tables: &SharedTables<'t, K>,
        name: AccountName,
        texts: &[AtomText],
    ) -> Result<PoolAccount<'t, R, K>, EmptyPlace<K>>
        requires name { called_at K.names self name }
        requires texts { AreNames K.rules texts.now }
        ensures account { IfOk result (λ a. a.book.account ≡ self) }
        ensures name { IfOk result (λ a. a.held.0.own_name ≡ name) }
        ensures fresh { IfOk result (λ a. (a.held.1.entries ≡ []) × (a.is_out ≡ false)) }
        ensures used { IfOk result (λ a. a.held.1.names ≡ texts.now) }
        ensures left { IfErr result (λ p. p ≡ self) }
    {
        let EmptyPlace { book, vacancy, .. } = self;
        let Some(Vacancy { rules, seat, shown }) = vacancy else {
            return Err(EmptyPlace::left(book));
        };
        let mut atoms = tables.atoms();
        match JournaledAccount::with_names(alloc, name, rules, &mut atoms, seat, texts) {
            Ok(kept) => Ok(PoolAccount::new(kept, name, book, shown)),
            Err(_) => Err(EmptyPlace::left(book)),
        }
    }
}

/// Who is at a place.
#[derive(Drop)]
pub(crate) enum Tenant<'t, R: Wait, K: PoolIds> {
    Nobody(EmptyPlace<K>),
    Account(PoolAccount<'t, R, K>),
}

/// What places are made as to which no account has come.
pub(crate) trait Vacant: Drop {
    /// Which table of names its seat is of.
    ghost table: { TableId };

    /// For how many accounts that table was made.
    ghost seats: { ℕ };

    /// Which tally its book is of.
    ghost tally: { TableId };

    /// Which rules an account keeps to that comes.
    ghost keeps_to: { Rules };

    /// Which histories of shown journals accounts have, in the order of their numbers.
    ghost histories: { List HistoryId };

    /// A place to which an account may come that is made of this.
    fn vacant(book: BookSeat, vacancy: Vacancy) -> Self
        requires rules { vacancy.rules ≡ keeps_to }
        requires seat { IsFreshSeat table seats keeps_to vacancy.seat }
        requires book { IsNewBook tally book }
        requires shown { (slice_get histories book.account ≡ Some vacancy.shown.history) × (vacancy.shown.last ≡ None) };
}

/// A place under its lock; contracts see how much may be unread there. It is padded: a lock's word is written by each thread that wants the account, and no word of an account lies on its
/// line.
#[derive(Drop)]
pub struct LockedSlot<'t, R: Wait, K: PoolIds> {
    /// `None` only while an account comes or leaves, under the lock.
    pub(crate) tenant: CachePadded<Option<Tenant<'t, R, K>>>,
    /// How many messages to its shoens, and answers, may be unread.
    pub(crate) unread: u64,
    // What an account borrows and names, told here too: how long a struct may live is read off its own fields, not those of a tenant.
    of: PhantomData<&'t R>,
    ids: PhantomData<K>,
}

impl<'t, R: Wait, K: PoolIds> Model for LockedSlot<'t, R, K> {
    ghost use Rattle.std.specs.Prelude.{ℕ, IsSome};
    ghost use Rattle.crossbeam_utils.specs.Padded.{padded_value};

    ghost Value = { ℕ };

    ghost view = { λ s. s.unread };

    ghost invariant = { λ s. IsSome (padded_value s.tenant) };
}

impl<'t, R: Wait, K: PoolIds> LockedSlot<'t, R, K> {
    /// One at which somebody or nobody is.
    fn new(tenant: Tenant<'t, R, K>) -> Self {
        LockedSlot {
            tenant: CachePadded::new(Some(tenant)),
            unread: 0,
            of: PhantomData,
            ids: PhantomData,
        }
    }

    /// The account, if there is one.
    pub(crate) fn account(&self) -> Option<&PoolAccount<'t, R, K>> {
        match &*self.tenant {
            Some(Tenant::Account(account)) => Some(account),
            _ => None,
        }
    }

    /// Notes what became of a command: what was sent is read over the bound too, by short turns.
    pub(crate) fn note_answer(&mut self, performed: &Performed) {
        if was_sent(performed) {
            self.unread = self.unread.saturating_add(1);
        }
    }

    /// Whether there is an account of which a goal can step.
    fn can_step(&self) -> bool {
        match self.account() {
            Some(account) => !account.quiet(),
            None => false,
        }
    }

    /// Notes that so many steps were done: each reads one, since monitors step before all else; and nothing is unread where no goal can step.
    pub(crate) fn note_steps(&mut self, steps: u64)
        ensures { self.new ≤ self.old - steps }
    {
        if !self.can_step() {
            self.unread = 0;
            return;
        }
        self.unread = self.unread.saturating_sub(steps);
    }
}

impl<'t, R: Wait, K: PoolIds> Vacant for LockedSlot<'t, R, K> {
    ghost table = { K.table };

    ghost seats = { K.seats };

    ghost tally = { K.tally };

    ghost keeps_to = { K.rules };

    ghost histories = { K.histories };

    fn vacant(book: BookSeat, vacancy: Vacancy) -> Self {
        LockedSlot::new(Tenant::Nobody(EmptyPlace {
            book,
            vacancy: Some(vacancy),
            of: PhantomData,
        }))
    }
}

impl<'t, R: Wait, K: PoolIds> Booked for LockedSlot<'t, R, K> {
    ghost tally = { K.tally };

    fn into_book(self) -> BookSeat {
        let LockedSlot { tenant, .. } = self;
        match tenant.into_inner() {
            Some(Tenant::Account(account)) => account.into_book(),
            Some(Tenant::Nobody(place)) => {
                let EmptyPlace { book, .. } = place;
                book
            }
            None => unreachable!(),
        }
    }
}
