// Where the leave to write to a connection is.

ghost use Rattle.std.specs.Prelude.{◌≡◌};
ghost use Rattle.kl1_host_journals.specs.Outgoings.{is_waiting_for_another, IsFreed, IsHandedOut};

use crate::held::Held;
use crate::history::Naming;
use crate::keeper::Keeper;
use crate::keeper_place::KeeperPlace;
use crate::leave::{Connecting, FreshConnection, SendPermit};
use std::sync::Wait;

/// Where the leave to write to a connection is.
#[derive(Drop)]
pub enum Outgoing<J: Naming, C: Connecting> {
    /// It is here: all that the connection may tell is on disk.
    Free(SendPermit<C>),
    /// It waits until all is on disk that was noted of an account.
    Waits(Held<J, C>),
    /// It is lost: what the connection would tell won't be on disk.
    Lost,
}

impl<J: Naming, C: Connecting> Outgoing<J, C> {
    /// That of a new connection.
    pub fn new(fresh: FreshConnection) -> Self
        requires { fresh.pen.book ≡ C.connection }
    {
        Outgoing::Free(SendPermit::new(fresh))
    }

    /// Whether it waits for another account.
    pub fn is_of_another(&self, account: usize) -> bool
        ensures { result ≡ is_waiting_for_another self.now account }
    {
        match self {
            Outgoing::Waits(held) => held.account() as usize != account,
            _ => false,
        }
    }

    /// Waits until the leave is here; `Lost` if it won't be. It rings for the account's scribe if not all is on disk yet.
    pub fn freed<W: Wait>(self, rt: &W, keepers: &[KeeperPlace<J>]) -> Outgoing<J, C>
        ensures { IsFreed self result }
    {
        match self {
            Outgoing::Free(permit) => Outgoing::Free(permit),
            Outgoing::Waits(held) => match keeper_of(keepers, held.account() as usize) {
                Some(keeper) => handed_out(rt, keeper, held),
                None => Outgoing::Lost,
            },
            Outgoing::Lost => Outgoing::Lost,
        }
    }
}

/// The keeper of an account, if it is there.
fn keeper_of<J: Naming>(keepers: &[KeeperPlace<J>], account: usize) -> Option<&Keeper<J>> {
    keepers.get(account)?.get()
}

/// A leave that waits, once all is on disk for which it does; `Lost` if that won't be.
fn handed_out<W: Wait, J: Naming, C: Connecting>(
    rt: &W,
    keeper: &Keeper<J>,
    held: Held<J, C>,
) -> Outgoing<J, C>
    ensures { IsHandedOut held result }
{
    if !keeper.on_disk().is_done(rt, &held) {
        keeper.bell().ring(rt);
    }
    match keeper.on_disk().wait_for(rt, &held) {
        Some(stored) => Outgoing::Free(held.hand_out(&stored)),
        None => Outgoing::Lost,
    }
}
