// What stands at the top of a term.

ghost use Rattle.std.specs.Prelude.{◌≡◌, ℕ, List, bytes_eq};
ghost use Rattle.kl1_model.specs.Text.{text_of};
ghost use Rattle.kl1_text.specs.Reading.{Reads};
ghost use Rattle.kl1_store.specs.Held.{IsIn};
ghost use Rattle.kl1_store.specs.Meaning.{term_of};
ghost use Rattle.kl1_stream.specs.Tops.{HasTop, TopIn};

use kl1_model::BuiltIn;
use kl1_store::{Cell, Store};
use kl1_text::NameValue;

/// What stands at the top of a term: an unbound variable, an integer, an atom, the name of one argument or of two, or the name of
/// more arguments or none.
#[derive(Clone, Copy)]
pub(crate) enum Top<N> {
    Variable(u32),
    Integer(i64),
    Atom(N),
    One(N, Cell<N>),
    Two(N, Cell<N>, Cell<N>),
    Other,
}

/// What stands at the top of the term of a cell.
pub(crate) fn top_of<N: NameValue>(store: &Store<N>, cell: Cell<N>) -> Top<N>
    requires { IsIn store.now.held cell }
    ensures inside { TopIn store.now.held result }
    ensures top { (f : N → List ℕ) → HasTop f store.now.held (term_of f store.now.held cell) result }
{
    // Only for the proof: what the store holds is formed.
    let _ = store.mark();
    match store.walk(cell) {
        Cell::Variable(variable) => Top::Variable(variable),
        Cell::Integer(number) => Top::Integer(number),
        Cell::Atom(name) => Top::Atom(name),
        Cell::Structure(structure) => {
            let head = store.look(structure);
            if head.count == 1 {
                return Top::One(head.name, store.argument(structure, 0));
            }
            if head.count == 2 {
                return Top::Two(
                    head.name,
                    store.argument(structure, 0),
                    store.argument(structure, 1),
                );
            }
            Top::Other
        }
    }
}

/// Whether a name is that of a built-in.
#[inline]
pub(crate) fn is_built_in<N: NameValue>(name: N, built_in: BuiltIn) -> bool
    ensures { (f : N → List ℕ) → Reads N.built f → bytes_eq (f name) (text_of built_in) ≡ result }
{
    name.same(&N::of(built_in))
}
