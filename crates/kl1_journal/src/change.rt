// What an event changes in a journal.

ghost use Rattle.std.specs.Prelude.{◌≡◌, ◌<◌, ℕ, List, is_some, if◌then◌else◌, IfOk, IsOk, IsTrue};
ghost use Rattle.kl1_model.specs.Event.{is_refused};
ghost use Rattle.kl1_user_events.specs.Views.{event_of, is_logout, reply_of};
ghost use Rattle.kl1_model_server.specs.laws.TextLaws.{AreNames};
ghost use Rattle.kl1_model_server.specs.Journal.{new_journal};
ghost use Rattle.kl1_journal_entries.specs.Lined.{with_reduction};
ghost use Rattle.kl1_journal.specs.Changes.{IsChange, IsEntered, HasRoom, SessionsFit, ReplyFits, changed, sessions_after};

use kl1_journal_entries::{Journal, PendingEntry, entry_for};
use kl1_text::AtomText;
use kl1_user_events::{ClauseNo, Event, GoalNo, Refusal, Reply};
use std::alloc::{AllocError, Global};

/// What an event changes in a journal, if it is accepted.
#[derive(Drop)]
pub(crate) enum Change {
    /// A query: the journal stays.
    Nothing,
    /// This entry comes after the others, if there is one: of an event whose line can't be read back, which is refused, there is none.
    Entry(PendingEntry),
    /// A reduction is noted, in a run or as an entry.
    Reduction { goal: GoalNo, clause: ClauseNo },
    /// The number of open sessions is what the reply tells.
    Sessions,
    /// The journal begins anew as this one.
    Anew(Journal),
}

/// What an event changes in the journal of an account that uses `names`, in order of first use, if it is accepted. There is room
/// for it afterwards. Closing a session asks for no memory.
pub(crate) fn prepare(
    alloc: Global,
    journal: &mut Journal,
    names: &[AtomText],
    event: &Event,
) -> Result<Change, AllocError>
    requires { AreNames journal.old.journal.rules names.now }
    ensures same { journal.new.journal ≡ journal.old.journal }
    ensures change { IfOk result (λ change. IsChange names.now journal.old.journal (event_of event.now) change) }
    ensures room { IfOk result (λ change. HasRoom journal.new change) }
    ensures logout { IsTrue (is_logout event.now) → IsOk result }
{
    match event {
        Event::Login => Ok(Change::Sessions),
        Event::Logout => Ok(Change::Sessions),
        Event::Reset => Ok(Change::Anew(anew(alloc, journal, names)?)),
        Event::Read(_query) => Ok(Change::Nothing),
        Event::Reduce { goal, clause } => {
            journal.reserve()?;
            Ok(Change::Reduction {
                goal: *goal,
                clause: *clause,
            })
        }
        Event::Load { .. } => entered(alloc, journal, event),
        Event::Start { .. } => entered(alloc, journal, event),
        Event::Control { .. } => entered(alloc, journal, event),
        Event::Answer { .. } => entered(alloc, journal, event),
        Event::Forget { .. } => entered(alloc, journal, event),
    }
}

/// The journal that a reset begins.
fn anew(alloc: Global, journal: &Journal, names: &[AtomText]) -> Result<Journal, AllocError>
    requires { AreNames journal.now.journal.rules names.now }
    ensures { IfOk result (λ new. new.journal ≡ new_journal journal.now.journal.rules names.now journal.now.journal.sessions) }
{
    // This is called for the fact that it proves: at most 4 sessions are open.
    journal.shows_written();
    Journal::with_names(alloc, journal.rules(), names, journal.sessions())
}

/// The entry of an event, with room for it.
fn entered(alloc: Global, journal: &mut Journal, event: &Event) -> Result<Change, AllocError>
    requires { IsEntered (event_of event.now) }
    ensures same { journal.new.journal ≡ journal.old.journal }
    ensures change { IfOk result (λ change. (names : List (List ℕ)) → IsChange names journal.old.journal (event_of event.now) change) }
    ensures room { IfOk result (λ change. HasRoom journal.new change) }
{
    let entry = entry_for(alloc, journal.rules(), event)?;
    journal.reserve()?;
    Ok(Change::Entry(entry))
}

/// Changes a journal after a reply, unless that is a refusal. `run` is how many reductions the account's last run has now, or 0.
pub(crate) fn note(journal: &mut Journal, change: Change, run: u32, reply: &Reply)
    requires room { HasRoom journal.old change }
    requires sessions { SessionsFit journal.old.journal change (reply_of reply.now) }
    ensures { journal.new.journal ≡ (if is_refused (reply_of reply.now) then journal.old.journal else changed journal.old.journal change run (reply_of reply.now)) }
{
    if is_refusal(reply) {
        return;
    }
    match change {
        Change::Nothing => {}
        Change::Entry(entry) => journal.put(entry),
        Change::Reduction { goal, clause } => journal.put_reduction(goal.0, clause.0, run),
        Change::Sessions => note_sessions(journal, reply),
        Change::Anew(new) => *journal = new,
    }
}

/// Notes a reduction, unless it was refused. `run` is how many reductions the account's last run has now, or 0.
pub(crate) fn note_step(
    journal: &mut Journal,
    goal: GoalNo,
    clause: ClauseNo,
    run: u32,
    refused: &Option<Refusal>,
)
    requires { 0 < journal.old.room }
    ensures { journal.new.journal ≡ (if is_some refused.now then journal.old.journal else with_reduction journal.old.journal goal.0 clause.0 run) }
{
    if refused.is_none() {
        journal.put_reduction(goal.0, clause.0, run);
    }
}

/// Counts a session that was opened or closed.
fn note_sessions(journal: &mut Journal, reply: &Reply)
    requires { ReplyFits journal.old.journal (reply_of reply.now) }
    ensures { journal.new.journal ≡ sessions_after journal.old.journal (reply_of reply.now) }
{
    // This is called for the fact that it proves: at most 4 sessions are open.
    journal.shows_written();
    let sessions = journal.sessions();
    match reply {
        Reply::Welcome(_name) => journal.set_sessions(sessions + 1),
        Reply::Bye => journal.set_sessions(sessions - 1),
        _ => {}
    }
}

/// Whether a reply is a refusal.
fn is_refusal(reply: &Reply) -> bool
    ensures { result ≡ is_refused (reply_of reply.now) }
{
    matches!(reply, Reply::Refused(_))
}
