// The parts of a pool before a type names them, and after.

ghost use Rattle.std.specs.Prelude.{◌≡◌, ℕ, ◌+◌, ◌<◌, ◌≤◌, [], IfOk, OnOk, All, map, vec_len, vec_capacity};
ghost use Rattle.crossbeam_queue.specs.Passes.{view};
ghost use Rattle.kl1_tally.specs.declared.amounts.TheConstants.{MOST_ACCOUNTS};
ghost use Rattle.kl1_tally.specs.Numbers.{up_from};
ghost use Rattle.kl1_tally.specs.Seats.{new_book, new_share};
ghost use Rattle.kl1_pool_tickets.specs.Histories.{all_parts};
ghost use Rattle.kl1_pool_tickets.specs.Counts.{new_counts};
ghost use Rattle.kl1_pool_tickets.specs.Parts.{IsNewBook};

use crate::event_count::EventCount;
use crate::pool_shared::PoolShared;
use crate::reserve::Reserve;
use crate::share::Share;
use crate::ticket_history::{Cut, Queue, TicketHistory};
use crate::ticket_ids::TicketIds;
use crossbeam_queue::Pass;
use crossbeam_utils::CachePadded;
use kl1_tally::{BookSeat, MOST_ACCOUNTS, ShareSeat, Tally};
use std::alloc::{AllocError, Global};
use std::marker::{Model, PhantomData};
use std::sync::Mutex;
use std::sync::atomic::AtomicBool;

/// A tally and a queue of tickets with all their seats, which a type can then name. Contracts see which they are, and how many
/// accounts and shares there are.
#[derive(Drop)]
pub struct Parts {
    tally: Tally,
    queue: Queue,
    rest: Pass<u64, TicketHistory>,
    books: Vec<BookSeat>,
    seats: Vec<ShareSeat>,
}

impl Model for Parts {
    ghost use Rattle.std.specs.Prelude.{◌≡◌, ◌≤◌, [], All, map, vec_len};
    ghost use Rattle.crossbeam_queue.specs.Passes.{view as knows};
    ghost use Rattle.kl1_tally.specs.Numbers.{up_from};
    ghost use Rattle.kl1_tally.specs.Seats.{new_book, new_share};
    ghost use Rattle.kl1_tally.specs.declared.amounts.TheConstants.{MOST_ACCOUNTS};
    ghost use Rattle.kl1_pool_tickets.specs.Histories.{all_parts, history};
    ghost use Rattle.kl1_pool_tickets.specs.Parts.{PartsValue};

    ghost Value = { PartsValue };

    ghost view = { λ p. record { tally = p.tally.id; queue = p.queue.table.shared.table_id; accounts = p.tally.accounts; shares = p.tally.shares } };

    ghost invariant = { λ p. (p.rest.table_id ≡ p.queue.table.shared.table_id) × (p.rest.me.1 ≡ []) × (knows p.rest ≡ history all_parts [] []) × (p.books.items ≡ map (new_book p.tally.id) (up_from 0 p.tally.accounts)) × All (λ seat. seat ≡ new_share p.tally.id) p.seats.items × (vec_len p.books ≡ p.tally.accounts) × (vec_len p.seats ≡ p.tally.shares) × (p.tally.accounts ≤ MOST_ACCOUNTS) };
}

/// The parts of a pool that a type names: what its threads share besides the accounts, the book of each account in the order of
/// the accounts, and the shares.
#[derive(Drop)]
pub struct Opened<K: TicketIds> {
    pub common: PoolShared<K>,
    pub books: Vec<BookSeat>,
    pub shares: Vec<Share<K>>,
}

impl Parts {
    /// A tally and a queue for `accounts` accounts and `shares` shares.
    pub fn new(alloc: Global, accounts: usize, shares: usize) -> Result<Parts, AllocError>
        requires some { 0 < accounts }
        requires few { accounts ≤ MOST_ACCOUNTS }
        ensures { IfOk result (λ parts. (parts.accounts ≡ accounts) × (parts.shares ≡ shares)) }
    {
        let (tally, books, seats) = Tally::new(alloc, accounts, shares)?;
        let (queue, rest) = Queue::ruled(alloc, accounts)?;
        Ok(Parts {
            tally,
            queue,
            rest,
            books,
            seats,
        })
    }

    /// Opens these parts, with their names in the type `K`.
    pub fn open<K: TicketIds>(self, alloc: Global) -> Result<Opened<K>, AllocError>
        requires { (self.tally ≡ K.tally) × (self.queue ≡ K.queue) × (self.accounts ≡ K.accounts) × (self.shares ≡ K.shares) }
        ensures books { IfOk result (λ opened. opened.books.items ≡ map (new_book K.tally) (up_from 0 K.accounts)) }
        ensures new_books { IfOk result (λ opened. All (IsNewBook K.tally) opened.books.items) }
        ensures shares { IfOk result (λ opened. All (λ share. share ≡ new_counts) opened.shares.items) }
        ensures counts { IfOk result (λ opened. (vec_len opened.books ≡ K.accounts) × (vec_len opened.shares ≡ K.shares)) }
    {
        let Parts {
            tally,
            queue,
            mut rest,
            books,
            seats,
        } = self;
        let room_of_books = Vec::with_capacity(alloc, books.len())?;
        let room_of_seats = Vec::with_capacity(alloc, seats.len())?;
        let shares = shares_of::<K>(alloc, &queue, &mut rest, seats)?;
        let common = PoolShared {
            tally,
            queue,
            event_count: CachePadded::new(EventCount::new()),
            is_closed: AtomicBool::new(false),
            reserve: Mutex::new(reserve_of(rest, room_of_books, room_of_seats)),
        };
        Ok(Opened {
            common,
            books,
            shares,
        })
    }
}

/// A share for each seat, with a pass of one part that is cut off from `rest`.
fn shares_of<K: TicketIds>(
    alloc: Global,
    queue: &Queue,
    rest: &mut Pass<u64, TicketHistory>,
    mut seats: Vec<ShareSeat>,
) -> Result<Vec<Share<K>>, AllocError>
    requires queue { queue.now.table.shared.table_id ≡ K.queue }
    requires of { (rest.old.table_id ≡ K.queue) × (rest.old.me.1 ≡ []) }
    requires first { ((view rest.old).parts ≡ all_parts) × ((view rest.old).put ≡ []) × ((view rest.old).taken ≡ []) }
    requires at_zero { All (λ seat. seat ≡ new_share K.tally) seats.items }
    ensures of { OnOk result ((rest.new.table_id ≡ K.queue) × (rest.new.me.1 ≡ [])) }
    ensures rest { OnOk result (((view rest.new).parts + vec_len seats ≡ all_parts) × ((view rest.new).put ≡ []) × ((view rest.new).taken ≡ [])) }
    ensures at_zero { IfOk result (λ shares. All (λ share. share ≡ new_counts) shares.items) }
    ensures count { IfOk result (λ shares. vec_len shares ≡ vec_len seats) }
{
    let mut shares = Vec::with_capacity(alloc, seats.len())?;
    while let Some(seat) = seats.pop() {
        let pass = queue.another::<Cut>(rest);
        shares.push_reserved(share_of(seat, pass));
    }
    Ok(shares)
}

/// A share of a seat and a pass.
fn share_of<K: TicketIds>(seat: ShareSeat, pass: Pass<u64, TicketHistory>) -> Share<K>
    requires seat { seat ≡ new_share K.tally }
    requires of { (pass.table_id ≡ K.queue) × (pass.me.1 ≡ []) }
    requires knows { ((view pass).parts ≡ 1) × ((view pass).put ≡ []) × ((view pass).taken ≡ []) }
    ensures { result ≡ new_counts }
{
    Share {
        seat,
        pass,
        puts: [0; MOST_ACCOUNTS],
        takes: [0; MOST_ACCOUNTS],
        of: PhantomData,
    }
}

/// What is kept for the end.
fn reserve_of<K: TicketIds>(
    pass: Pass<u64, TicketHistory>,
    books: Vec<BookSeat>,
    seats: Vec<ShareSeat>,
) -> Reserve<K>
    requires of { (pass.table_id ≡ K.queue) × (pass.me.1 ≡ []) }
    requires parts { (view pass).parts + K.shares ≡ all_parts }
    requires idle { ((view pass).put ≡ []) × ((view pass).taken ≡ []) }
    requires books { (books.items ≡ []) × (K.accounts ≤ vec_capacity books) }
    requires seats { (seats.items ≡ []) × (K.shares ≤ vec_capacity seats) }
{
    Reserve {
        pass,
        books,
        seats,
        of: PhantomData,
    }
}
