// What the entries of a journal ask for.

ghost use Rattle.std.specs.Prelude.{◌≡◌, Some, IfOk};
ghost use Rattle.kl1_journal_entries.specs.Found.{deed_in};
ghost use Rattle.kl1_journal_entries.specs.Shown.{entry_shown};
ghost use Rattle.kl1_journal_entries.specs.Slots.{goal_in, answer_in};
ghost use Rattle.kl1_pool.specs.Restoring.{goal_by, entry_by};

use kl1_journal_entries::{Deed, Entry};
use kl1_read::{read_goal, read_told_goal};
use kl1_term::Term;
use kl1_user_events::Event;
use std::alloc::{AllocError, Global};

/// The goal whose print this is.
fn goal_of(alloc: Global, print: &[u8]) -> Result<Term, AllocError>
    ensures { IfOk result (λ goal. goal ≡ goal_in print.now) }
{
    match read_goal(alloc, print) {
        Ok(goal) => Ok(goal),
        // The print of a goal reads back: it is want of memory.
        Err(_) => Err(AllocError),
    }
}

/// The goal of an answer whose print this is, which tells variables or doesn't.
fn answer_of(alloc: Global, print: &[u8], told: bool) -> Result<Term, AllocError>
    ensures { IfOk result (λ goal. goal ≡ answer_in told print.now) }
{
    if !told {
        return goal_of(alloc, print);
    }
    match read_told_goal(alloc, print) {
        Ok(goal) => Ok(goal),
        Err(_) => Err(AllocError),
    }
}

/// The goal of an answer as it is done: with variables that it doesn't tell, if that is said, or as it is.
fn goal_by(alloc: Global, goal: Term, untold: bool) -> Result<Term, AllocError>
    ensures { IfOk result (λ t. t ≡ goal_by untold goal) }
{
    if !untold {
        return Ok(goal);
    }
    goal.untold(alloc)
}

/// What an entry asks for. The variables of an answer are those that it doesn't tell, if that is said.
pub(crate) fn deed_for(alloc: Global, entry: Entry<'_>, untold: bool) -> Result<Deed, AllocError>
    ensures { IfOk result (λ deed. deed_in deed ≡ Some (entry_by untold (entry_shown entry.entry))) }
{
    match entry {
        Entry::Load(source) => {
            let source = Vec::from_slice(alloc, source)?;
            Ok(Deed::Event(Event::Load { source }))
        }
        Entry::Start {
            allowance,
            low,
            high,
            goal,
        } => {
            let goal = goal_of(alloc, goal)?;
            Ok(Deed::Event(Event::Start {
                allowance,
                low,
                high,
                goal,
            }))
        }
        Entry::Control { shoen, message } => Ok(Deed::Event(Event::Control { shoen, message })),
        Entry::Reduce { goal, clause } => Ok(Deed::Event(Event::Reduce { goal, clause })),
        Entry::Run(steps) => Ok(Deed::Run(steps)),
        Entry::Answer {
            shoen,
            report,
            goal,
            told,
        } => {
            let goal = goal_by(alloc, answer_of(alloc, goal, told)?, untold)?;
            Ok(Deed::Event(Event::Answer {
                shoen,
                report,
                goal,
            }))
        }
        Entry::Forget { shoen, count } => Ok(Deed::Event(Event::Forget { shoen, count })),
    }
}
