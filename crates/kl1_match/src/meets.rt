// A pattern beside a term, one kind of instruction after another.

ghost use Rattle.std.specs.Prelude.{◌≡◌, ◌<◌, ◌≤◌, ◌+◌, List, length, IsTrue, vec_len, vec_capacity};
ghost use Rattle.kl1_store.specs.Held.{IsIn, IsWalked};
ghost use Rattle.kl1_clause.specs.declared.instruction.Instruction.TheVariants.{Variable};
ghost use Rattle.kl1_clause.specs.Instructions.{IsNamed};
ghost use Rattle.kl1_match.specs.declared.met.Met.TheVariants.{Agrees};
ghost use Rattle.kl1_match.specs.declared.span.Span.{Span};
ghost use Rattle.kl1_match.specs.Spans.{cells_left, IsSpan, AreSpans};
ghost use Rattle.kl1_match.specs.Matching.{WaitsAt, MetUnbound, IntegerMeets, AtomMeets, StructureMeets, MeetsFirst};

use crate::arguments::{span_in, take_cell};
use crate::met::Met;
use crate::name_in::name_at;
use crate::place::Place;
use crate::span::Span;
use kl1_clause::Instruction;
use kl1_store::{Cell, Store};
use kl1_text::NameValue;

#[inline]
fn meet_integer<N: NameValue>(store: &Store<N>, integer: i64, cell: Cell<N>) -> Met
    requires cell { IsIn store.now.held cell }
    requires walked { IsWalked store.now.held cell }
    ensures meets { IntegerMeets N.built store.now.held integer cell result }
    ensures waits { WaitsAt cell result }
{
    // Only for the proof: what the store holds is formed.
    let _ = store.mark();
    match cell {
        Cell::Variable(variable) => Met::Waits(variable),
        Cell::Integer(other) => {
            if integer == other {
                return Met::Agrees;
            }
            Met::Clashes
        }
        Cell::Atom(_) => Met::Clashes,
        Cell::Structure(_) => Met::Clashes,
    }
}

#[inline]
fn meet_atom<N: NameValue>(store: &Store<N>, name: N, cell: Cell<N>) -> Met
    requires cell { IsIn store.now.held cell }
    requires walked { IsWalked store.now.held cell }
    ensures meets { AtomMeets N.built store.now.held name cell result }
    ensures waits { WaitsAt cell result }
{
    // Only for the proof: what the store holds is formed.
    let _ = store.mark();
    match cell {
        Cell::Variable(variable) => Met::Waits(variable),
        Cell::Integer(_) => Met::Clashes,
        Cell::Atom(other) => {
            if name.same(&other) {
                return Met::Agrees;
            }
            Met::Clashes
        }
        Cell::Structure(_) => Met::Clashes,
    }
}

#[inline]
fn meet_structure<N: NameValue>(
    store: &Store<N>,
    name: N,
    count: u32,
    cell: Cell<N>,
    span: &mut Span,
    behind: &mut Vec<Span>,
) -> Met
    requires cell { IsIn store.now.held cell }
    requires walked { IsWalked store.now.held cell }
    requires span { IsSpan store.now.held span.old }
    requires behind { AreSpans store.now.held behind.old.items }
    requires room { vec_len behind.old < vec_capacity behind.old }
    ensures meets { StructureMeets N.built store.now.held name count cell (cells_left store.now.held span.old behind.old.items) (cells_left store.now.held span.new behind.new.items) result }
    ensures span { IsSpan store.now.held span.new }
    ensures behind { AreSpans store.now.held behind.new.items }
    ensures behind_capacity { vec_capacity behind.new ≡ vec_capacity behind.old }
    ensures behind_len { vec_len behind.new ≤ vec_len behind.old + 1 }
    ensures waits { WaitsAt cell result }
{
    // Only for the proof: what the store holds is formed.
    let _ = store.mark();
    match cell {
        Cell::Variable(variable) => Met::Waits(variable),
        Cell::Integer(_) => Met::Clashes,
        Cell::Atom(_) => Met::Clashes,
        Cell::Structure(structure) => {
            let head = store.look(structure);
            if head.count != count {
                return Met::Clashes;
            }
            if !name.same(&head.name) {
                return Met::Clashes;
            }
            behind.push_reserved(*span);
            *span = span_in(store, structure);
            Met::Agrees
        }
    }
}

/// Takes the next cell of a span as the place of a variable, and keeps it if places are kept; there is room for it then.
#[inline(always)]
pub(crate) fn take_place<N: NameValue, const KEEP: bool>(
    store: &Store<N>,
    variable: u64,
    span: &mut Span,
    places: &mut Vec<Place<N>>,
)
    requires span { IsSpan store.now.held span.old }
    requires some { span.old.next < span.old.end }
    requires room { IsTrue KEEP → vec_len places.old < vec_capacity places.old }
    ensures takes { (names : List N) (behind : List Span) → MeetsFirst N.built store.now.held names (Variable variable) KEEP (cells_left store.now.held span.old behind) (cells_left store.now.held span.new behind) places.old.items places.new.items Agrees }
    ensures span { IsSpan store.now.held span.new }
    ensures capacity { vec_capacity places.new ≡ vec_capacity places.old }
    ensures len { vec_len places.new ≤ vec_len places.old + 1 }
{
    let cell = take_cell(store, span);
    if KEEP {
        places.push_reserved(Place { variable, cell });
        return;
    }
}

/// What comes of a pattern that begins with an instruction beside the next cell of `span`, which is taken. If they may agree,
/// a structure's arguments are to be matched next, before what was left, and a variable of the pattern takes the cell as its
/// place. There is room in `behind`, and in `places` if places are kept.
#[inline(always)]
pub(crate) fn meet<N: NameValue, const KEEP: bool>(
    store: &Store<N>,
    names: &[N],
    instruction: Instruction,
    span: &mut Span,
    behind: &mut Vec<Span>,
    places: &mut Vec<Place<N>>,
) -> Met
    requires named { IsNamed (length names.now) instruction }
    requires span { IsSpan store.now.held span.old }
    requires some { span.old.next < span.old.end }
    requires behind { AreSpans store.now.held behind.old.items }
    requires behind_room { vec_len behind.old < vec_capacity behind.old }
    requires room { IsTrue KEEP → vec_len places.old < vec_capacity places.old }
    ensures meets { MeetsFirst N.built store.now.held names.now instruction KEEP (cells_left store.now.held span.old behind.old.items) (cells_left store.now.held span.new behind.new.items) places.old.items places.new.items result }
    ensures span { IsSpan store.now.held span.new }
    ensures behind { AreSpans store.now.held behind.new.items }
    ensures unbound { MetUnbound store.now.held result }
    ensures behind_capacity { vec_capacity behind.new ≡ vec_capacity behind.old }
    ensures behind_len { vec_len behind.new ≤ vec_len behind.old + 1 }
    ensures capacity { vec_capacity places.new ≡ vec_capacity places.old }
    ensures len { vec_len places.new ≤ vec_len places.old + 1 }
{
    match instruction {
        Instruction::Variable(variable) => {
            take_place::<_, KEEP>(store, variable, span, places);
            Met::Agrees
        }
        Instruction::Integer(integer) => {
            let cell = take_cell(store, span);
            meet_integer(store, integer, store.walk(cell))
        }
        Instruction::Atom(name) => {
            let name = name_at(names, name);
            let cell = take_cell(store, span);
            meet_atom(store, name, store.walk(cell))
        }
        Instruction::Structure(name, count) => {
            let name = name_at(names, name);
            let cell = take_cell(store, span);
            meet_structure(store, name, count, store.walk(cell), span, behind)
        }
    }
}
