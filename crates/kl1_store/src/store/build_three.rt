// Structures of three arguments.

ghost use Rattle.std.specs.Prelude.{◌≡◌, [], ◌∷◌, length, IfOk, OnErr};
ghost use Rattle.kl1_store.specs.Held.{with_structure, AreIn};
ghost use Rattle.kl1_store.specs.Spending.{Spends};

use crate::cell::Cell;
use crate::store::Store;
use kl1_text::NameValue;
use std::alloc::AllocError;

impl<N: NameValue> Store<N> {
    /// A new structure of three arguments: its number.
    pub fn build_three(
        &mut self,
        name: N,
        first: Cell<N>,
        second: Cell<N>,
        third: Cell<N>,
    ) -> Result<u32, AllocError>
        requires { AreIn self.old.held (first ∷ second ∷ third ∷ []) }
        ensures ok { IfOk result (λ s. (s ≡ length self.old.held.structures) × (self.new.held ≡ with_structure self.old.held name (first ∷ second ∷ third ∷ []))) }
        ensures err { OnErr result (self.new.held ≡ self.old.held) }
        ensures spends { Spends self.old.room self.new.room 0 1 3 0 }
        ensures hooks { self.new.hooks ≡ self.old.hooks }
        ensures hook_room { self.new.hook_room ≡ self.old.hook_room }
    {
        let mut stack = Vec::new(self.alloc);
        stack.push(third)?;
        stack.push(second)?;
        stack.push(first)?;
        self.build_top(name, &mut stack, first, 3)
    }
}
