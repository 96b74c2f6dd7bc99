// Journals that grow, as those of accounts do, and are shown.

ghost use Rattle.std.specs.Prelude.{◌≡◌, Some, None, slice_get, IfSome};
ghost use Rattle.std.specs.Coded.{codes};
ghost use Rattle.kl1_journal_entries.specs.Codes.{journal_code};
ghost use Rattle.kl1_journal_stamps.specs.Stamps.{IsStampOf};

use crate::journals::shelf::journal_of;
use kl1_host_journals::{Connecting, FreshHistory, Keeper, Naming, Outgoing};
use kl1_journal_entries::Journal;
use kl1_journal_stamps::{ShownHistory, Stamp};
use std::alloc::{AllocError, Global};
use std::marker::{Model, PhantomData};
use std::sync::Wait;

/// The histories of an account, in which nothing is yet: of its file, and of its journals that are shown.
#[derive(Drop)]
pub(crate) struct NewAccount {
    pub(crate) fresh: FreshHistory,
    pub(crate) shown: ShownHistory,
    pub(crate) ghost new: { shown.last ≡ None } by { Prim.hlevel (codes, journal_code) },
}

impl NewAccount {
    /// New ones.
    pub(crate) fn new() -> Self {
        NewAccount {
            fresh: FreshHistory::new(),
            shown: ShownHistory::new(),
        }
    }
}

/// What becomes of a journal.
#[derive(Clone, Copy)]
pub(crate) enum Change {
    /// Its last entry is a run of so many reductions more.
    Run(u32),
    /// It has a reduction more that is in no run.
    Reduction,
    /// It begins anew, with a name, in the next generation.
    Reset,
}

/// A journal that begins anew.
const ANEW: &[u8] = b"journal 4 0 1\nname f\n";

/// The journal of an account, with its generation, and with what was shown of it. Contracts see the account, and the journal with its generation.
#[derive(Drop)]
pub(crate) struct Growing<J: Naming> {
    account: u32,
    journal: Journal,
    generation: u64,
    /// How many reductions its last entry has if that is a run that it began itself, or 0.
    run: u32,
    shown: ShownHistory,
    of: PhantomData<J>,
}

impl<J: Naming> Model for Growing<J> {
    ghost use Rattle.std.specs.Prelude.{◌≡◌, ℕ, Some, slice_get};
    ghost use Rattle.std.specs.Coded.{codes};
    ghost use Rattle.kl1_model_server.specs.Journal.{Journal as Entered};
    ghost use Rattle.kl1_model_server.specs.laws.HistoryLaws.{EndsInRun};
    ghost use Rattle.kl1_journal_entries.specs.Codes.{journal_code};
    ghost use Rattle.kl1_journal_stamps.specs.Stamps.{MayFollow};

    ghost Value = { ℕ × (ℕ × Entered) };

    ghost coded = { Prim.hlevel (codes, journal_code) };

    ghost view = { λ g. (g.account, (g.generation, g.journal.journal)) };

    ghost invariant = { λ g. (slice_get J.histories g.account ≡ Some g.shown.history) × MayFollow g.shown.last g.generation g.journal.journal × EndsInRun g.journal.journal.entries g.run };
}

impl<J: Naming> Growing<J> {
    /// A journal of generation 0, of which nothing was shown.
    pub(crate) fn new(account: u32, journal: Journal, shown: ShownHistory) -> Self
        requires history { slice_get J.histories account ≡ Some shown.history }
        requires new { shown.last ≡ None }
        ensures { result ≡ (account, (0, journal.journal)) }
    {
        Growing {
            account,
            journal,
            generation: 0,
            run: 0,
            shown,
            of: PhantomData,
        }
    }

    /// The journal.
    pub(crate) fn journal(&self) -> &Journal
        ensures { result.now.journal ≡ self.now.1.1 }
    {
        &self.journal
    }

    /// The stamp of the journal, which is shown now. `None` if there were too many.
    pub(crate) fn show(&mut self) -> Option<Stamp>
        ensures same { self.new ≡ self.old }
        ensures history { IfSome result (λ s. slice_get J.histories self.old.0 ≡ Some s.history) }
        ensures stamp { IfSome result (IsStampOf self.old.1.1 self.old.1.0) }
    {
        self.shown.show(&self.journal, self.generation)
    }

    /// One reduction more in the last run, or in a new one.
    fn run_on(&mut self) -> Result<(), AllocError>
        ensures { self.new.0 ≡ self.old.0 }
    {
        if self.run == u32::MAX {
            return Err(AllocError);
        }
        self.journal.reserve()?;
        let run = self.run + 1;
        self.journal.put_reduction(0, 0, run);
        self.run = run;
        Ok(())
    }

    /// One reduction more that is in no run.
    fn reduce(&mut self) -> Result<(), AllocError>
        ensures { self.new.0 ≡ self.old.0 }
    {
        self.journal.reserve()?;
        self.journal.put_reduction(1, 0, 0);
        self.run = 0;
        Ok(())
    }

    /// Begins the journal anew as this one, in the next generation.
    fn begin_anew(&mut self, journal: Journal) -> Result<(), AllocError>
        ensures { self.new.0 ≡ self.old.0 }
    {
        if self.generation == u64::MAX {
            return Err(AllocError);
        }
        self.generation += 1;
        self.journal = journal;
        self.run = 0;
        Ok(())
    }

    /// Does a change.
    fn change(&mut self, alloc: Global, change: &Change) -> Result<(), AllocError>
        ensures { self.new.0 ≡ self.old.0 }
    {
        match change {
            Change::Run(count) => {
                for _number in 0..*count {
                    self.run_on()?;
                }
                Ok(())
            }
            Change::Reduction => self.reduce(),
            Change::Reset => self.begin_anew(journal_of(alloc, ANEW)?),
        }
    }

    /// Does changes, one after another.
    pub(crate) fn changed(&mut self, alloc: Global, changes: &[Change]) -> Result<(), AllocError>
        ensures { self.new.0 ≡ self.old.0 }
    {
        for change in changes {
            self.change(alloc, change)?;
        }
        Ok(())
    }

    /// Shows the journal and notes it, and lets the leave to write wait for it.
    pub(crate) fn note<R: Wait, C: Connecting>(
        &mut self,
        rt: &R,
        keeper: &Keeper<J>,
        leave: Outgoing<J, C>,
    ) -> Outgoing<J, C>
        ensures { self.new ≡ self.old }
    {
        let Some(stamp) = self.show() else {
            return Outgoing::Lost;
        };
        keeper.note_for(
            rt,
            self.account as usize,
            &self.journal,
            self.generation,
            &stamp,
            leave,
        )
    }
}
