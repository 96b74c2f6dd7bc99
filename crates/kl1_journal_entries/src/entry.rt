// Entries of a journal, lent.

ghost use Rattle.std.specs.Prelude.{◌≡◌, ◌<◌, length};
ghost use Rattle.std.specs.List.{AllByRecursion};
ghost use Rattle.kl1_model_server.specs.Journal.{sends};
ghost use Rattle.kl1_journal_entries.specs.Slots.{entry_of_whole, entry_at, IsPlace, IsPrinted};
ghost use Rattle.kl1_journal_entries.specs.Shown.{entry_shown, HasPrint};

use crate::long_entry::LongEntry;
use crate::packed_entry::PackedEntry;
use kl1_model::Message;
use kl1_user_events::{ClauseNo, GoalNo, ShoenNo};

/// An entry of a journal.
#[derive(Clone, Copy)]
pub enum Entry<'a> {
    /// A module loaded from this source.
    Load(&'a [u8]),
    /// A goal started, which is given as its print.
    Start {
        allowance: u64,
        low: u64,
        high: u64,
        goal: &'a [u8],
    },
    /// A message sent to a shoen.
    Control {
        shoen: ShoenNo,
        message: Message,
    },
    /// A goal reduced by a clause's number, or by 0.
    Reduce {
        goal: GoalNo,
        clause: ClauseNo,
    },
    /// First reductions, one after another: how many.
    Run(u64),
    /// A goal, which is given as its print, as the answer to a report of a shoen, the first being 1. `told` is whether it tells variables
    /// of the account by their numbers.
    Answer {
        shoen: ShoenNo,
        report: u64,
        goal: &'a [u8],
        told: bool,
    },
    /// The first reports of a shoen let go, or the shoen itself if `count` is 0.
    Forget {
        shoen: ShoenNo,
        count: u64,
    },
}

/// An entry that is kept whole.
pub(crate) fn shown_whole(whole: &LongEntry) -> Entry<'_>
    ensures entry { entry_shown result ≡ entry_of_whole whole.now }
    ensures printed { IsPrinted whole.now → HasPrint result }
{
    match whole {
        LongEntry::Load { source } => Entry::Load(source.as_slice()),
        LongEntry::Start {
            allowance,
            low,
            high,
            goal,
        } => Entry::Start {
            allowance: *allowance,
            low: *low,
            high: *high,
            goal: goal.as_slice(),
        },
        LongEntry::Control { shoen, message } => Entry::Control {
            shoen: ShoenNo(*shoen),
            message: *message,
        },
        LongEntry::Step { goal, clause } => Entry::Reduce {
            goal: GoalNo(*goal),
            clause: ClauseNo(*clause),
        },
        LongEntry::Run(reductions) => Entry::Run(*reductions),
        LongEntry::Answer {
            shoen,
            report,
            goal,
            told,
        } => Entry::Answer {
            shoen: ShoenNo(*shoen),
            report: *report,
            goal: goal.as_slice(),
            told: *told,
        },
        LongEntry::Forget { shoen, count } => Entry::Forget {
            shoen: ShoenNo(*shoen),
            count: *count,
        },
    }
}

/// A message to a shoen whose number has 32 bits.
fn sent(shoen: u32, message: Message) -> Entry<'static>
    ensures entry { entry_shown result ≡ sends shoen message }
    ensures printed { HasPrint result }
{
    Entry::Control {
        shoen: ShoenNo(u64::from(shoen)),
        message,
    }
}

/// The entry of a place in the row.
pub(crate) fn shown_at<'a>(wholes: &'a [LongEntry], slot: PackedEntry) -> Entry<'a>
    requires place { IsPlace (length wholes.now) slot }
    requires printed { AllByRecursion IsPrinted wholes.now }
    ensures entry { entry_shown result ≡ entry_at wholes.now slot }
    ensures printed { HasPrint result }
{
    match slot {
        PackedEntry::Step { goal, clause } => Entry::Reduce {
            goal: GoalNo(u64::from(goal)),
            clause: ClauseNo(u64::from(clause)),
        },
        PackedEntry::Stop(shoen) => sent(shoen, Message::Stop),
        PackedEntry::Resume(shoen) => sent(shoen, Message::Start),
        PackedEntry::Abort(shoen) => sent(shoen, Message::Abort),
        PackedEntry::Run(reductions) => Entry::Run(u64::from(reductions)),
        PackedEntry::Kept(place) => shown_whole(&wholes[place as usize]),
    }
}
