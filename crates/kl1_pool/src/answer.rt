// Commands to an account of a pool, and the answers to them.

ghost use Rattle.std.specs.Prelude.{◌≡◌, ◌≢◌, ◌&&◌, Some, is_some, not};
ghost use Rattle.kl1_command.specs.Commands.{command_view};
ghost use Rattle.kl1_command.specs.Performing.{IsUntouched};
ghost use Rattle.kl1_command.specs.Told.{told_in, told_steps, events_told, steps_told};
ghost use Rattle.kl1_command.specs.Room.{PerformsWithin};
ghost use Rattle.kl1_model.specs.Choice.{quiet};
ghost use Rattle.kl1_journal.specs.Keeping.{Reading, Fits, kept_of};
ghost use Rattle.kl1_pool_tickets.specs.Counts.{Moved};
ghost use Rattle.kl1_pool.specs.Counted.{room_in};
ghost use Rattle.kl1_pool.specs.PoolAccounts.{HasCounted};
ghost use Rattle.kl1_pool.specs.Answers.{IsGiven};
ghost use Rattle.kl1_pool.specs.Names.{called_at, is_called};
ghost use Rattle.kl1_pool.specs.Memory.{IsBeyond, IsWithin, IsGivenWithin};

use crate::account_host::AccountHost;
use crate::locked_slot::EmptyPlace;
use crate::pool_account::{DueTicket, PoolAccount};
use crate::pool_ids::{Names, PoolIds};
use crate::shared_tables::SharedTables;
use kl1_command::{Command, Performed};
use kl1_pool_tickets::{PoolShared, Share};
use std::marker::{Model, PhantomData};
use std::snapshot::Snapshot;
use std::sync::Wait;

/// The answer to a command to an account of the pool that K names, which is called as N says. Nothing makes one but a command that was done, a
/// place without an account, an account that isn't the one that was asked for, or one that takes more bytes than it may, to a command that takes
/// memory. Contracts see for which account and for which command it is.
#[derive(Drop)]
pub struct Answer<K: PoolIds, N: Names> {
    performed: Performed,
    account: Snapshot<usize>,
    command: Snapshot<Command>,
    of: PhantomData<(K, N)>,
}

impl<K: PoolIds, N: Names> Model for Answer<K, N> {
    ghost use Rattle.std.specs.Coded.{codes};
    ghost use Rattle.kl1_model.specs.code.TermCode.{term_code};
    ghost use Rattle.kl1_command.specs.Commands.{command_view};
    ghost use Rattle.kl1_pool.specs.Answers.{AnswerValue};
    ghost use Rattle.kl1_pool.specs.Memory.{IsGivenWithin};
    ghost use Rattle.kl1_pool.specs.Names.{called_at};

    ghost Value = { AnswerValue };

    ghost coded = { Prim.hlevel (codes, term_code) };

    ghost view = { λ a. record { account = a.account.value; command = command_view a.command.value; performed = a.performed } };

    ghost invariant = { λ a. IsGivenWithin K.rules (called_at N.names a.account.value) K.most_bytes (command_view a.command.value) a.performed };
}

impl<K: PoolIds, N: Names> Answer<K, N> {
    /// The answer of which only is told that nothing is done. Why that is so, those know who ask for it.
    fn refused(account: usize, command: &Command) -> Self
        ensures account { result.account ≡ account }
        ensures command { result.command ≡ command_view command.now }
        ensures told { told_in result.performed ≡ told_steps 0 }
    {
        Answer {
            performed: Performed::Memory,
            account: Snapshot::of(&account),
            command: Snapshot::of(command),
            of: PhantomData,
        }
    }

    /// The answer if the account of another number was found in the place of the one that was asked for. Nothing is done.
    pub(crate) fn misplaced<'t, R: Wait>(
        found: &PoolAccount<'t, R, K>,
        account: usize,
        command: &Command,
    ) -> Self
        requires { found.now.book.account ≢ account }
        ensures account { result.account ≡ account }
        ensures command { result.command ≡ command_view command.now }
        ensures told { told_in result.performed ≡ told_steps 0 }
    {
        let _found = found.account();
        Answer::refused(account, command)
    }

    /// The answer if an account was found that isn't called as it was asked for. Nothing is done.
    pub(crate) fn misnamed<'t, R: Wait>(
        found: &PoolAccount<'t, R, K>,
        account: usize,
        name: &[u8],
        command: &Command,
    ) -> Self
        requires { ¬ is_called name.now found.now.held.0.own_name }
        ensures account { result.account ≡ account }
        ensures command { result.command ≡ command_view command.now }
        ensures told { told_in result.performed ≡ told_steps 0 }
    {
        // They are asked for only because of what is known of them.
        let _found = found.account();
        let _name = name.len();
        Answer::refused(account, command)
    }

    /// The answer to a command that takes memory, if the account takes more bytes than the command may find: as if memory was refused. Nothing
    /// is done.
    pub(crate) fn over<'t, R: Wait>(
        found: &PoolAccount<'t, R, K>,
        account: usize,
        command: &Command,
    ) -> Self
        requires { IsBeyond K.most_bytes found.now (command_view command.now) }
        ensures account { result.account ≡ account }
        ensures command { result.command ≡ command_view command.now }
        ensures told { told_in result.performed ≡ told_steps 0 }
    {
        // It is asked for only because of what is known of it.
        let _found = found.account();
        Answer::refused(account, command)
    }

    /// The answer if there is no account at a place: as if memory was refused. Nothing is done.
    pub(crate) fn absent(_place: &EmptyPlace<K>, account: usize, command: &Command) -> Self
        ensures account { result.account ≡ account }
        ensures command { result.command ≡ command_view command.now }
        ensures told { told_in result.performed ≡ told_steps 0 }
    {
        Answer::refused(account, command)
    }

    /// Tells a caller's proof that some account of the rules that K names and of the name that N names gives this answer to this command, unless
    /// memory was refused. It does nothing.
    pub fn shows_given(&self)
        ensures { IsGiven K.rules (called_at N.names self.now.account) self.now.command self.now.performed }
    {
        let _performed = &self.performed;
    }

    /// Tells a caller's proof besides that the account took no more bytes than the command may find, if that takes memory. It does nothing.
    pub fn shows_within(&self)
        ensures { IsGivenWithin K.rules (called_at N.names self.now.account) K.most_bytes self.now.command self.now.performed }
    {
        let _performed = &self.performed;
    }

    /// What became of the command.
    pub fn performed(&self) -> &Performed
        ensures { result.now ≡ self.now.performed }
    {
        &self.performed
    }

    /// What became of the command; and, for contracts alone, to which account it was done and which one it was.
    pub fn into_parts(self) -> (Performed, Snapshot<usize>, Snapshot<Command>)
        ensures performed { result.0 ≡ self.performed }
        ensures account { result.1.value ≡ self.account }
        ensures command { command_view result.2.value ≡ self.command }
    {
        let Answer {
            performed,
            account,
            command,
            of: _,
        } = self;
        (performed, account, command)
    }

    /// What became of the command.
    pub fn into_performed(self) -> Performed
        ensures { result ≡ self.performed }
    {
        let Answer {
            performed,
            account: _,
            command: _,
            of: _,
        } = self;
        performed
    }
}

impl<'t, R: Wait, K: PoolIds> PoolAccount<'t, R, K> {
    /// `perform`, and then the ticket of the account that is to be put, if there is one.
    pub(crate) fn act<N: Names>(
        &mut self,
        rt: &'t R,
        common: &PoolShared<K>,
        tables: &SharedTables<'t, K>,
        share: &mut Share<K>,
        command: &Command,
    ) -> (Answer<K, N>, Option<DueTicket<K>>)
        requires named { called_at N.names self.old.book.account self.old.held.0.own_name }
        requires within { IsWithin K.most_bytes self.old (command_view command.now) }
        ensures counted { Moved self.old.book.account (events_told result.0.performed) (steps_told result.0.performed) 0 0 share.old share.new }
        ensures account { result.0.account ≡ self.old.book.account }
        ensures command { result.0.command ≡ command_view command.now }
        ensures does { (f : Reading) → Fits self.new.held.0.names f → PerformsWithin (Some (room_in self.old.book)) (kept_of f self.old.held) (command_view command.now) result.0.performed (kept_of f self.new.held) }
        ensures before { (f : Reading) → Fits self.new.held.0.names f → Fits self.old.held.0.names f }
        ensures due { (f : Reading) → Fits self.new.held.0.names f → is_some result.1 ≡ (not self.old.is_out && not (quiet (kept_of f self.new.held).state)) }
    {
        let answer = self.perform(rt, common, tables, share, command);
        let due = self.due_ticket();
        (answer, due)
    }

    /// What a command does to the account and its journal, and the answer. The book and `share` get what the answer tells: one event
    /// for a load, a start, a message and an answer, one event and one step for a reduction, and both for each step of a run. An
    /// accepted reset adds the journal that it ends to what was counted before. A run ends when the book tells `MOST_EVENTS`, as if
    /// the next step was refused by a full journal, and so is what would be an entry.
    fn perform<N: Names>(
        &mut self,
        rt: &'t R,
        common: &PoolShared<K>,
        tables: &SharedTables<'t, K>,
        share: &mut Share<K>,
        command: &Command,
    ) -> Answer<K, N>
        requires named { called_at N.names self.old.book.account self.old.held.0.own_name }
        requires within { IsWithin K.most_bytes self.old (command_view command.now) }
        ensures does { (f : Reading) → Fits self.new.held.0.names f → PerformsWithin (Some (room_in self.old.book)) (kept_of f self.old.held) (command_view command.now) result.performed (kept_of f self.new.held) }
        ensures memory { IsUntouched result.performed self.old self.new × IsUntouched result.performed share.old share.new }
        ensures counted { HasCounted self.old share.old (told_in result.performed) self.new share.new }
        ensures account { result.account ≡ self.old.book.account }
        ensures command { result.command ≡ command_view command.now }
        ensures out { self.new.is_out ≡ self.old.is_out }
        ensures before { (f : Reading) → Fits self.new.held.0.names f → Fits self.old.held.0.names f }
    {
        let account = self.account();
        // This and the next one are called for the facts that they prove: the account that answers is the replay of its journal, and some
        // reading fits the names.
        self.shows_counts();
        let performed = self.performed(rt, common, tables, share, command);
        self.shows_counts();
        Answer {
            performed,
            account: Snapshot::of(&account),
            command: Snapshot::of(command),
            of: PhantomData,
        }
    }

    /// What became of a command that was done.
    fn performed(
        &mut self,
        rt: &'t R,
        common: &PoolShared<K>,
        tables: &SharedTables<'t, K>,
        share: &mut Share<K>,
        command: &Command,
    ) -> Performed
        ensures does { (f : Reading) → Fits self.new.held.0.names f → PerformsWithin (Some (room_in self.old.book)) (kept_of f self.old.held) (command_view command.now) result (kept_of f self.new.held) }
        ensures memory { IsUntouched result self.old self.new × IsUntouched result share.old share.new }
        ensures counted { HasCounted self.old share.old (told_in result) self.new share.new }
        ensures out { self.new.is_out ≡ self.old.is_out }
        ensures before { (f : Reading) → Fits self.new.held.0.names f → Fits self.old.held.0.names f }
    {
        let mut host = AccountHost {
            account: self,
            share,
            common,
            tables,
            rt,
        };
        kl1_command::perform(&mut host, command)
    }
}
