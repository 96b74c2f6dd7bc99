// The entries of a journal's text, which are done one after another.

ghost use Rattle.std.specs.Prelude.{◌≡◌, ◌++◌, ◌<◌, length, IfOk, OnOk, OnErr};
ghost use Rattle.kl1_model.specs.declared.limits.TheConstants.{MOST_WAITING_BYTES};
ghost use Rattle.kl1_model.specs.Step.{step};
ghost use Rattle.kl1_user_events.specs.Views.{event_of};
ghost use Rattle.kl1_model_server.specs.Journal.{runs, entry_step};
ghost use Rattle.kl1_user.specs.Accounts.{Reading, Fits, state_of};
ghost use Rattle.kl1_script.specs.Replays.{if_accepted, accepted_in};
ghost use Rattle.kl1_script.specs.Steps.{Went, told_of};

use crate::last_lines::{fault_line, rest_line};
use crate::replayed::Replayed;
use kl1_atoms::AtomSource;
use kl1_codes::CodeSource;
use kl1_command::put_reply;
use kl1_journal_entries::{Deed, entry_of, next_line};
use kl1_lines::{NextReply, Replies};
use kl1_user_events::{Event, Reply};
use std::alloc::{AllocError, Global};

/// Does an event, and puts its reply after the bytes, unless it is a refusal. Answers whether it was accepted. After an `Err` the bytes
/// are as they were, and the event may be done.
fn put_event<A: AtomSource + Drop, C: CodeSource + Drop>(
    replayed: &mut Replayed<A, C>,
    event: &Event,
    out: &mut Vec<u8>,
) -> Result<bool, AllocError>
    requires few { length out.old.items < MOST_WAITING_BYTES }
    ensures went { IfOk result (λ accepted. (f : Reading) → Fits replayed.new.names f → Went accepted (if_accepted (step (state_of f replayed.old) (event_of event.now))) (state_of f replayed.new)) }
    ensures told { OnOk result ((f : Reading) → Fits replayed.new.names f → out.new.items ≡ out.old.items ++ told_of (if_accepted (step (state_of f replayed.old) (event_of event.now)))) }
    ensures before { (f : Reading) → Fits replayed.new.names f → Fits replayed.old.names f }
    ensures err { OnErr result (out.new.items ≡ out.old.items) }
{
    let reply = replayed.apply(event)?;
    match &reply {
        Reply::Refused(_refusal) => Ok(false),
        _ => {
            put_reply(out, &reply)?;
            Ok(true)
        }
    }
}

/// Does a run, and puts its reply after the bytes, unless it is refused. Answers whether it was accepted. After an `Err` the bytes are as
/// they were, and some of the run may be done.
fn put_run<A: AtomSource + Drop, C: CodeSource + Drop>(
    replayed: &mut Replayed<A, C>,
    reductions: u64,
    out: &mut Vec<u8>,
) -> Result<bool, AllocError>
    requires few { length out.old.items < MOST_WAITING_BYTES }
    ensures went { IfOk result (λ accepted. (f : Reading) → Fits replayed.new.names f → Went accepted (if_accepted (entry_step (state_of f replayed.old) (runs reductions))) (state_of f replayed.new)) }
    ensures told { OnOk result ((f : Reading) → Fits replayed.new.names f → out.new.items ≡ out.old.items ++ told_of (if_accepted (entry_step (state_of f replayed.old) (runs reductions)))) }
    ensures before { (f : Reading) → Fits replayed.new.names f → Fits replayed.old.names f }
    ensures err { OnErr result (out.new.items ≡ out.old.items) }
{
    let accepted = replayed.run(reductions)?;
    if !accepted {
        return Ok(false);
    }
    put_reply(out, &Reply::Ran(reductions))?;
    Ok(true)
}

/// Does the entry of a line, if it is one, and puts its reply after the bytes, unless it is refused. Answers whether it was accepted.
/// After an `Err` the bytes are as they were, and the entry may be done.
fn put_entry<A: AtomSource + Drop, C: CodeSource + Drop>(
    alloc: Global,
    replayed: &mut Replayed<A, C>,
    line: &[u8],
    out: &mut Vec<u8>,
) -> Result<bool, AllocError>
    requires few { length out.old.items < MOST_WAITING_BYTES }
    ensures went { IfOk result (λ accepted. (f : Reading) → Fits replayed.new.names f → Went accepted (accepted_in (state_of f replayed.old) line.now) (state_of f replayed.new)) }
    ensures told { OnOk result ((f : Reading) → Fits replayed.new.names f → out.new.items ≡ out.old.items ++ told_of (accepted_in (state_of f replayed.old) line.now)) }
    ensures before { (f : Reading) → Fits replayed.new.names f → Fits replayed.old.names f }
    ensures err { OnErr result (out.new.items ≡ out.old.items) }
{
    match entry_of(alloc, replayed.rules(), line)? {
        None => Ok(false),
        Some(Deed::Event(event)) => put_event(replayed, &event, out),
        Some(Deed::Run(reductions)) => put_run(replayed, reductions, out),
    }
}

/// The account that replays a journal, and the lines of its text that are left.
#[derive(Drop)]
pub(crate) struct ReplayReplies<'a, A: AtomSource + Drop, C: CodeSource + Drop> {
    pub(crate) alloc: Global,
    pub(crate) replayed: Replayed<A, C>,
    /// The number of the next line, from 1.
    pub(crate) line: u64,
    /// How many entries are done.
    pub(crate) entries: u64,
    pub(crate) rest: &'a [u8],
}

impl<'a, A: AtomSource + Drop, C: CodeSource + Drop> Replies for ReplayReplies<'a, A, C> {
    ghost use Rattle.std.specs.Prelude.{◌≡◌, ◌+◌, ◌<◌, ◌^◌, length};
    ghost use Rattle.kl1_model_server.specs.JournalText.{lines_of};
    ghost use Rattle.kl1_user.specs.Accounts.{Reading, Fits, state_of};
    ghost use Rattle.kl1_script.specs.Replays.{written_on};

    ghost can_put = { λ s. (s.line + length s.rest.now < 2 ^ 64) × (s.entries + length s.rest.now < 2 ^ 64) };

    ghost left = { λ s. length (lines_of s.rest.now).whole };

    ghost writes = { λ s w. (f : Reading) → Fits s.replayed.names f → w ≡ written_on s.line s.entries (state_of f s.replayed) (lines_of s.rest.now) };

    fn put_next(&mut self, out: &mut Vec<u8>) -> Result<NextReply, AllocError> {
        // Here and below this is called for the fact that it proves: some reading fits the account's names.
        self.replayed.shows_names();
        let Some((line, after)) = next_line(self.rest) else {
            return Ok(NextReply::Last(rest_line(self.line, self.entries, self.rest)));
        };
        let accepted = put_entry(self.alloc, &mut self.replayed, line, out)?;
        self.replayed.shows_names();
        if !accepted {
            return Ok(NextReply::Last(fault_line(self.line)));
        }
        self.rest = after;
        self.line += 1;
        self.entries += 1;
        Ok(NextReply::Put)
    }
}
