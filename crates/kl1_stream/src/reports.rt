// Messages at the end of report streams, and the end of these.

ghost use Rattle.std.specs.Prelude.{◌≡◌, ◌≤◌, IfOk, OnOk, OnErr};
ghost use Rattle.kl1_store.specs.Held.{IsIn};
ghost use Rattle.kl1_store.specs.Sound.{Grown};
ghost use Rattle.kl1_store.specs.Spending.{SpendsOnBindings};
ghost use Rattle.kl1_stream.specs.Reports.{ToldAs, ClosedAs};
ghost use Rattle.kl1_stream.specs.Spending.{SpendsOnMessage};

use crate::sending::{end, send};
use crate::told::Told;
use kl1_store::{Cell, Store};
use kl1_text::NameValue;
use std::alloc::AllocError;

/// Puts a message at the end of a report stream, if that can be: if the account has made its last report (`is_last`), a stream
/// that isn't broken breaks. If memory is refused, the store may have grown.
#[tactic(auto, using(crate::proofs::Tails::has_sent))]
pub fn append_report<N: NameValue>(
    store: &mut Store<N>,
    tail: Cell<N>,
    is_broken: bool,
    is_last: bool,
    message: Cell<N>,
) -> Result<Told, AllocError>
    requires tail { IsIn store.old.held tail }
    requires message { IsIn store.old.held message }
    ensures told { IfOk result (ToldAs N.built store.old.held store.new.held tail is_broken is_last message) }
    ensures grown { Grown store.old.held store.new.held }
    ensures spends { SpendsOnMessage store.old.held store.old.room store.new.held store.new.room }
    ensures hooks { store.new.hooks ≡ store.old.hooks }
    ensures hook_room { store.old.hook_room ≤ store.new.hook_room }
{
    if is_broken {
        return Ok(Told::Dropped);
    }
    if is_last {
        return Ok(Told::Broken);
    }
    // Only for the proof: what the store holds is formed.
    let _formed = store.mark();
    match store.walk(tail) {
        Cell::Variable(variable) => match send(store, variable, message)? {
            Some(next) => Ok(Told::Sent(next)),
            None => Ok(Told::Broken),
        },
        Cell::Integer(_number) => Ok(Told::Broken),
        Cell::Atom(_name) => Ok(Told::Broken),
        Cell::Structure(_structure) => Ok(Told::Broken),
    }
}

/// Ends a report stream, if its tail is an unbound variable: that becomes the empty list.
#[tactic(auto, using(crate::proofs::Tails::broken_ends))]
pub fn close_report<N: NameValue>(
    store: &mut Store<N>,
    tail: Cell<N>,
    is_broken: bool,
) -> Result<(), AllocError>
    requires { IsIn store.old.held tail }
    ensures closed { OnOk result (ClosedAs N.built store.old.held store.new.held tail is_broken) }
    ensures err { OnErr result (store.new.held ≡ store.old.held) }
    ensures grown { Grown store.old.held store.new.held }
    ensures spends { SpendsOnBindings store.old.held store.old.room store.new.held store.new.room }
    ensures hooks { store.new.hooks ≡ store.old.hooks }
    ensures hook_room { store.new.hook_room ≡ store.old.hook_room }
{
    if is_broken {
        return Ok(());
    }
    // Only for the proof: what the store holds is formed.
    let _formed = store.mark();
    match store.walk(tail) {
        Cell::Variable(variable) => end(store, variable),
        Cell::Integer(_number) => Ok(()),
        Cell::Atom(_name) => Ok(()),
        Cell::Structure(_structure) => Ok(()),
    }
}
