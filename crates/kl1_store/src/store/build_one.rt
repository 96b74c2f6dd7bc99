// Structures of one argument.

ghost use Rattle.std.specs.Prelude.{◌≡◌, ◌<◌, ◌≤◌, [], ◌∷◌, length, IfOk, OnErr, IsOk};
ghost use Rattle.kl1_store.specs.Held.{with_structure, IsIn};
ghost use Rattle.kl1_store.specs.Spending.{Spends};

use crate::cell::Cell;
use crate::store::Store;
use kl1_text::NameValue;
use std::alloc::AllocError;

impl<N: NameValue> Store<N> {
    /// A new structure of one argument: its number.
    pub fn build_one(&mut self, name: N, argument: Cell<N>) -> Result<u32, AllocError>
        requires { IsIn self.old.held argument }
        ensures ok { IfOk result (λ s. (s ≡ length self.old.held.structures) × (self.new.held ≡ with_structure self.old.held name (argument ∷ []))) }
        ensures err { OnErr result (self.new.held ≡ self.old.held) }
        ensures room { 0 < self.old.room.structures → 1 ≤ self.old.room.arguments → IsOk result }
        ensures spends { Spends self.old.room self.new.room 0 1 1 0 }
        ensures hooks { self.new.hooks ≡ self.old.hooks }
        ensures hook_room { self.new.hook_room ≡ self.old.hook_room }
    {
        let mut none = Vec::new(self.alloc);
        self.build_top(name, &mut none, argument, 1)
    }
}
