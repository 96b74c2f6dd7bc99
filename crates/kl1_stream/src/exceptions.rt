// Exceptions as messages.

ghost use Rattle.std.specs.Prelude.{◌≡◌, ◌<◌, ◌≤◌, IfOk, IsOk, OnErr};
ghost use Rattle.kl1_store.specs.Held.{IsIn};
ghost use Rattle.kl1_store.specs.Sound.{Grown};
ghost use Rattle.kl1_store.specs.Spending.{Spends};
ghost use Rattle.kl1_stream.specs.Exceptions.{IsException, IsExceptionWith};

use kl1_model::BuiltIn;
use kl1_store::{Cell, Store};
use kl1_text::NameValue;
use std::alloc::AllocError;

/// The message that a goal met an exception of a kind.
pub fn exception_of<N: NameValue>(
    store: &mut Store<N>,
    kind: BuiltIn,
    goal: Cell<N>,
) -> Result<Cell<N>, AllocError>
    requires { IsIn store.old.held goal }
    ensures exception { IfOk result (IsException N.built store.old.held store.new.held kind goal) }
    ensures err { OnErr result (store.new.held ≡ store.old.held) }
    ensures grown { Grown store.old.held store.new.held }
    ensures room { 0 < store.old.room.structures → 2 ≤ store.old.room.arguments → IsOk result }
    ensures spends { Spends store.old.room store.new.room 0 1 2 0 }
    ensures hooks { store.new.hooks ≡ store.old.hooks }
    ensures hook_room { store.new.hook_room ≡ store.old.hook_room }
{
    // Only for the proof: what the store holds is formed.
    let _formed = store.mark();
    let name = N::of(BuiltIn::Exception);
    let structure = store.build_pair(name, Cell::Atom(N::of(kind)), goal)?;
    Ok(Cell::Structure(structure))
}

/// The message that a goal met an exception of a kind, with the cell for which a substitute waits.
pub fn exception_with<N: NameValue>(
    store: &mut Store<N>,
    kind: BuiltIn,
    goal: Cell<N>,
    new: Cell<N>,
) -> Result<Cell<N>, AllocError>
    requires goal { IsIn store.old.held goal }
    requires new { IsIn store.old.held new }
    ensures exception { IfOk result (IsExceptionWith N.built store.old.held store.new.held kind goal new) }
    ensures err { OnErr result (store.new.held ≡ store.old.held) }
    ensures grown { Grown store.old.held store.new.held }
    ensures hooks { store.new.hooks ≡ store.old.hooks }
    ensures hook_room { store.new.hook_room ≡ store.old.hook_room }
{
    // Only for the proof: what the store holds is formed.
    let _formed = store.mark();
    let name = N::of(BuiltIn::Exception);
    let structure = store.build_three(name, Cell::Atom(N::of(kind)), goal, new)?;
    Ok(Cell::Structure(structure))
}
