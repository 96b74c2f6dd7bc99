// Restoring an account from a journal.

ghost use Rattle.std.specs.Prelude.{◌≡◌, [], take};
ghost use Rattle.kl1_journal.specs.Keeping.{Reading, Fits, kept_of};
ghost use Rattle.kl1_pool_tickets.specs.Counts.{Moved};
ghost use Rattle.kl1_pool.specs.Names.{is_called};
ghost use Rattle.kl1_pool.specs.PoolAccounts.{HasCounted};
ghost use Rattle.kl1_pool.specs.Restoring.{IsRestored, IsRestoredBySome, entries_for, told_of, events_of, steps_of};

use crate::account_host::AccountHost;
use crate::pool_account::PoolAccount;
use crate::pool_ids::PoolIds;
use crate::restoring::{Meter, Restored, restore_all};
use crate::shared_tables::SharedTables;
use kl1_journal_entries::Journal;
use kl1_pool_tickets::{PoolShared, Share};
use std::alloc::Global;
use std::sync::Wait;

impl<'t, R: Wait, K: PoolIds> PoolAccount<'t, R, K> {
    /// Does the entries of a journal to the account, one after another, until one isn't accepted whole. Book and `share` get an event for
    /// each that is done, and for each step of a run, and a step for each reduction. An answer of a journal whose rules have none that tells
    /// variables tells none.
    fn restore<M: Meter>(
        &mut self,
        rt: &'t R,
        alloc: Global,
        common: &PoolShared<K>,
        tables: &SharedTables<'t, K>,
        share: &mut Share<K>,
        meter: &M,
        journal: &Journal,
    ) -> Restored
        ensures restored { (f : Reading) → Fits self.new.held.0.names f → IsRestored (kept_of f self.old.held).state (entries_for (kept_of f self.old.held).state.rules journal.now.journal) result (kept_of f self.new.held).state }
        ensures counted { HasCounted self.old share.old (told_of (take result.entries journal.now.journal.entries) result.steps) self.new share.new }
        ensures out { self.new.is_out ≡ self.old.is_out }
        ensures before { (f : Reading) → Fits self.new.held.0.names f → Fits self.old.held.0.names f }
    {
        let restored = self.restore_as_host(rt, alloc, common, tables, share, meter, journal);
        // Called for the fact that it proves: some reading fits the names.
        self.shows_counts();
        restored
    }

    /// `restore`, where what is counted is told of each reading that fits.
    fn restore_as_host<M: Meter>(
        &mut self,
        rt: &'t R,
        alloc: Global,
        common: &PoolShared<K>,
        tables: &SharedTables<'t, K>,
        share: &mut Share<K>,
        meter: &M,
        journal: &Journal,
    ) -> Restored
        ensures restored { (f : Reading) → Fits self.new.held.0.names f → IsRestored (kept_of f self.old.held).state (entries_for (kept_of f self.old.held).state.rules journal.now.journal) result (kept_of f self.new.held).state }
        ensures counted { (f : Reading) → Fits self.new.held.0.names f → HasCounted self.old share.old (told_of (take result.entries journal.now.journal.entries) result.steps) self.new share.new }
        ensures out { self.new.is_out ≡ self.old.is_out }
        ensures before { (f : Reading) → Fits self.new.held.0.names f → Fits self.old.held.0.names f }
    {
        let mut host = AccountHost {
            account: self,
            share,
            common,
            tables,
            rt,
        };
        restore_all(alloc, &mut host, meter, journal)
    }

    /// `restore` of an account whose journal has no entries and the names of that which is to be done, and what is told of it by those who don't
    /// see the account.
    pub(crate) fn restore_counted<M: Meter>(
        &mut self,
        rt: &'t R,
        alloc: Global,
        common: &PoolShared<K>,
        tables: &SharedTables<'t, K>,
        share: &mut Share<K>,
        meter: &M,
        journal: &Journal,
    ) -> Restored
        requires fresh { self.old.held.1.entries ≡ [] }
        requires names { self.old.held.1.names ≡ journal.now.journal.names }
        ensures restored { IsRestoredBySome K.rules (is_called self.old.held.0.own_name) journal.now.journal result }
        ensures counted { Moved self.old.book.account (events_of journal.now.journal.entries result) (steps_of journal.now.journal.entries result) 0 0 share.old share.new }
        ensures account { self.new.book.account ≡ self.old.book.account }
    {
        // This and the next one are called for the facts that they prove: the account is the replay of its journal, and some reading fits
        // the names.
        self.shows_counts();
        let restored = self.restore(rt, alloc, common, tables, share, meter, journal);
        self.shows_counts();
        restored
    }
}
