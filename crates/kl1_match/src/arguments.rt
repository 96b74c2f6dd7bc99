// The cells that are still to be matched, in order: what is left of the arguments of structures within one another.

ghost use Rattle.std.specs.Prelude.{◌≡◌, ◌<◌, ℕ, List, [], ◌∷◌, ◌≤◌, IsTrue, false, length, vec_len, vec_capacity};
ghost use Rattle.kl1_store.specs.Held.{IsIn, arguments_of};
ghost use Rattle.kl1_store.specs.Meaning.{term_of, terms_of};
ghost use Rattle.kl1_match.specs.Verdicts.{arguments_of_goal};
ghost use Rattle.kl1_match.specs.Spans.{span_cells, cells_left, IsSpan, AreSpans};

use crate::span::Span;
use kl1_store::{Cell, Store};
use kl1_text::NameValue;

/// The arguments of a structure.
#[inline]
pub(crate) fn span_in<N: NameValue>(store: &Store<N>, structure: u32) -> Span
    requires { structure < length store.now.held.structures }
    ensures within { IsSpan store.now.held result }
    ensures cells { span_cells store.now.held result ≡ arguments_of store.now.held structure }
{
    let next = store.first_argument(structure);
    Span {
        next,
        end: next + store.look(structure).count,
    }
}

/// The arguments of a goal; one that is no structure has none.
#[inline]
pub(crate) fn span_of<N: NameValue>(store: &Store<N>, goal: Cell<N>) -> Span
    requires { IsIn store.now.held goal }
    ensures within { IsSpan store.now.held result }
    ensures means { (f : N → List ℕ) → terms_of f store.now.held (span_cells store.now.held result) ≡ arguments_of_goal (term_of f store.now.held goal) }
{
    // Only for the proof: what the store holds is formed.
    let _ = store.mark();
    match store.walk(goal) {
        Cell::Variable(_) => Span { next: 0, end: 0 },
        Cell::Integer(_) => Span { next: 0, end: 0 },
        Cell::Atom(_) => Span { next: 0, end: 0 },
        Cell::Structure(structure) => span_in(store, structure),
    }
}

/// Whether a cell is left; if one is, it is the next of `span` then.
#[inline]
pub(crate) fn is_left<N: NameValue>(
    store: &Store<N>,
    span: &mut Span,
    behind: &mut Vec<Span>,
) -> bool
    requires span { IsSpan store.now.held span.old }
    requires behind { AreSpans store.now.held behind.old.items }
    ensures span { IsSpan store.now.held span.new }
    ensures behind { AreSpans store.now.held behind.new.items }
    ensures same { cells_left store.now.held span.new behind.new.items ≡ cells_left store.now.held span.old behind.old.items }
    ensures some { IsTrue result → span.new.next < span.new.end }
    ensures capacity { vec_capacity behind.new ≡ vec_capacity behind.old }
    ensures len { vec_len behind.new ≤ vec_len behind.old }
    ensures none { result ≡ false → cells_left store.now.held span.new behind.new.items ≡ [] }
{
    while span.next >= span.end {
        let Some(outer) = behind.pop() else {
            return false;
        };
        *span = outer;
    }
    true
}

/// Takes the next cell of a span.
#[inline]
pub(crate) fn take_cell<N: NameValue>(store: &Store<N>, span: &mut Span) -> Cell<N>
    requires span { IsSpan store.now.held span.old }
    requires some { span.old.next < span.old.end }
    ensures span { IsSpan store.now.held span.new }
    ensures cells { span_cells store.now.held span.old ≡ result ∷ span_cells store.now.held span.new }
    ensures inside { IsIn store.now.held result }
{
    let place = span.next;
    span.next = place + 1;
    store.argument_at(place)
}
