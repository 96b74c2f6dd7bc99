// What replies add to a book, to a share and to a past.

ghost use Rattle.std.specs.Prelude.{◌≡◌, ◌+◌, ◌<◌, ◌≤◌, ◌^◌, true, false};
ghost use Rattle.kl1_tally.specs.declared.amounts.TheConstants.{MOST_ACCOUNTS};
ghost use Rattle.kl1_user_events.specs.Views.{event_of, reply_of, reduced_or};
ghost use Rattle.kl1_pool_tickets.specs.Counts.{Moved};
ghost use Rattle.kl1_command.specs.Told.{events_by, steps_by};
ghost use Rattle.kl1_model_server.specs.Journal.{is_entry};
ghost use Rattle.kl1_pool.specs.Counted.{with_more, is_run, ended, HasRoom};

use crate::totals_before_reset::TotalsBeforeReset;
use kl1_journal_entries::is_entry;
use kl1_pool_tickets::{Share, TicketIds};
use kl1_tally::{BookSeat, Tally};
use kl1_user_events::{Event, Refusal, Reply};

/// The most events of an account that its book tells.
pub const MOST_EVENTS: u64 = 1 << 63;

/// Counts what a reply tells, which is one event at most, in a book and in a share.
pub(crate) fn count<K: TicketIds>(
    tally: &Tally,
    book: &mut BookSeat,
    share: &mut Share<K>,
    reply: &Reply,
)
    requires of { (tally.now.id ≡ K.tally) × (book.old.tally ≡ K.tally) }
    requires within { book.old.account < MOST_ACCOUNTS }
    requires one { is_run (reply_of reply.now) ≡ false }
    requires room { book.old.events + events_by (reply_of reply.now) ≤ 2 ^ 63 }
    ensures book { book.new ≡ with_more book.old (events_by (reply_of reply.now)) (steps_by (reply_of reply.now)) }
    ensures share { Moved book.old.account (events_by (reply_of reply.now)) (steps_by (reply_of reply.now)) 0 0 share.old share.new }
{
    match reply {
        Reply::Loaded(_) | Reply::Opened(_) | Reply::Sent | Reply::Forgotten => {
            share.raise(tally, book, false)
        }
        Reply::Reduced => share.raise(tally, book, true),
        _ => {}
    }
}

/// Counts a reduction in a book and in a share, unless it was refused.
pub(crate) fn count_step<K: TicketIds>(
    tally: &Tally,
    book: &mut BookSeat,
    share: &mut Share<K>,
    refused: &Option<Refusal>,
)
    requires of { (tally.now.id ≡ K.tally) × (book.old.tally ≡ K.tally) }
    requires within { book.old.account < MOST_ACCOUNTS }
    requires room { book.old.events < 2 ^ 63 }
    ensures book { book.new ≡ with_more book.old (events_by (reduced_or refused.now)) (steps_by (reduced_or refused.now)) }
    ensures share { Moved book.old.account (events_by (reduced_or refused.now)) (steps_by (reduced_or refused.now)) 0 0 share.old share.new }
{
    if refused.is_none() {
        share.raise(tally, book, true);
    }
}

/// The past after a reply, if the book tells what it has and what the journal adds.
pub(crate) fn past_after(
    past: TotalsBeforeReset,
    book: &BookSeat,
    reply: &Reply,
) -> TotalsBeforeReset
    ensures { result ≡ ended past book.now (reply_of reply.now) }
{
    match reply {
        Reply::Reset => TotalsBeforeReset {
            events: book.events(),
            steps: book.steps(),
        },
        _ => past,
    }
}

/// Whether a book can't tell what an event is, if that is an entry.
pub(crate) fn is_full(book: &BookSeat, event: &Event) -> bool
    ensures full { result ≡ true → (is_entry (event_of event.now) ≡ true) × (2 ^ 63 ≤ book.now.events) }
    ensures room { result ≡ false → HasRoom book.now (event_of event.now) }
{
    is_entry(event) && book.events() >= MOST_EVENTS
}
