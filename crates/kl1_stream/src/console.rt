// Messages that the console puts on control streams.

ghost use Rattle.std.specs.Prelude.{◌≡◌, ◌≤◌, IfOk, OnErr, IsTrue};
ghost use Rattle.kl1_model.specs.Sending.{is_message};
ghost use Rattle.kl1_store.specs.Held.{IsIn};
ghost use Rattle.kl1_store.specs.Sound.{Grown};
ghost use Rattle.kl1_store.specs.Spending.{Spends};
ghost use Rattle.kl1_stream.specs.Messages.{IsMessage, PutAs};
ghost use Rattle.kl1_stream.specs.Spending.{SpendsOnControl};

use crate::sending::send;
use kl1_model::{BuiltIn, Message};
use kl1_store::{Cell, Store};
use kl1_text::NameValue;
use std::alloc::AllocError;

/// The term of a message.
fn message_cell<N: NameValue>(store: &mut Store<N>, message: Message) -> Result<Cell<N>, AllocError>
    requires { IsTrue (is_message message) }
    ensures message { IfOk result (IsMessage N.built store.old.held store.new.held message) }
    ensures grown { Grown store.old.held store.new.held }
    ensures spends { Spends store.old.room store.new.room 0 1 1 0 }
    ensures hooks { store.new.hooks ≡ store.old.hooks }
    ensures hook_room { store.new.hook_room ≡ store.old.hook_room }
{
    // Only for the proof: what the store holds is formed.
    let _formed = store.mark();
    match message {
        Message::Stop => Ok(Cell::Atom(N::of(BuiltIn::Stop))),
        Message::Start => Ok(Cell::Atom(N::of(BuiltIn::Start))),
        Message::Abort => Ok(Cell::Atom(N::of(BuiltIn::Abort))),
        Message::Allow(more) => {
            let name = N::of(BuiltIn::Allow);
            let structure = store.build_one(name, Cell::Integer(more as i64))?;
            Ok(Cell::Structure(structure))
        }
    }
}

/// Puts a message at the end of a control stream, and gives the number of the variable that is the stream's end then; nothing if
/// the stream's end is no variable. What `allow` adds is less than 2 to the power of 63. If memory is refused, the store may have
/// grown.
pub fn send_message<N: NameValue>(
    store: &mut Store<N>,
    tail: Cell<N>,
    message: Message,
) -> Result<Option<u32>, AllocError>
    requires tail { IsIn store.old.held tail }
    requires message { IsTrue (is_message message) }
    ensures put { IfOk result (PutAs N.built store.old.held store.new.held tail message) }
    ensures grown { Grown store.old.held store.new.held }
    ensures spends { SpendsOnControl store.old.held store.old.room store.new.held store.new.room }
    ensures hooks { store.new.hooks ≡ store.old.hooks }
    ensures hook_room { store.old.hook_room ≤ store.new.hook_room }
{
    // Only for the proof: what the store holds is formed.
    let _formed = store.mark();
    match store.walk(tail) {
        Cell::Variable(variable) => {
            let cell = message_cell(store, message)?;
            send(store, variable, cell)
        }
        Cell::Integer(_number) => Ok(None),
        Cell::Atom(_name) => Ok(None),
        Cell::Structure(_structure) => Ok(None),
    }
}
