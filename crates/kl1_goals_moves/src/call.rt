// Calls of users' goals.

ghost use Rattle.std.specs.Prelude.{◌≡◌};
ghost use Rattle.kl1_goals_moves.specs.Calls.{cell_of};

use kl1_store::Cell;
use kl1_text::NameValue;

/// A call of a user's goal: its module, its predicate's name and number of arguments, and the number of its structure; a
/// goal without arguments is an atom.
#[derive(Clone, Copy)]
pub struct Call<N> {
    pub module_name: N,
    pub name: N,
    pub count: usize,
    pub structure: Option<u32>,
}

impl<N: NameValue> Call<N> {
    /// The goal as a cell.
    pub fn cell(&self) -> Cell<N>
        ensures { result ≡ cell_of self.now }
    {
        match self.structure {
            None => Cell::Atom(self.name),
            Some(structure) => Cell::Structure(structure),
        }
    }
}
