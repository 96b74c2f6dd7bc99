// Which variables are in a term.

ghost use Rattle.std.specs.Prelude.{◌≡◌, ◌++◌, ℕ, List, map, OnOk};
ghost use Rattle.kl1_model.specs.Term.{occurs};
ghost use Rattle.kl1_store.specs.Held.{IsIn};
ghost use Rattle.kl1_store.specs.Meaning.{term_of};

use crate::cell::Cell;
use crate::occurring::note_occurring;
use crate::store::Store;
use kl1_text::NameValue;
use std::alloc::AllocError;

impl<N: NameValue> Store<N> {
    /// Puts behind others, for each of these numbers, whether it is that of a variable in a term. The term is walked over once.
    pub fn note_occurring(
        &mut self,
        cell: Cell<N>,
        numbers: &[u64],
        found: &mut Vec<bool>,
    ) -> Result<(), AllocError>
        requires inside { IsIn self.old.held cell }
        ensures found { OnOk result ((f : N → List ℕ) → found.new.items ≡ found.old.items ++ map (λ (n : ℕ). occurs n (term_of f self.old.held cell)) numbers.now) }
        ensures same { self.new ≡ self.old }
    {
        note_occurring(
            &self.cells,
            &mut self.levels,
            &mut self.scratch.tasks,
            cell,
            numbers,
            found,
        )
    }
}
