// The spans of a module's predicates, by name and number of arguments.

ghost use Rattle.std.specs.Prelude.{◌≡◌, ℕ, List, ◌+◌, ◌^◌, ◌<◌, ◌≤◌, [], length, map, Some, None, IfOk, IfErr, IfSome, IsTrue, MatchOption, slice_index_or, vec_len, vec_capacity};
ghost use Rattle.kl1_text.specs.Reading.{Reads};
ghost use Rattle.kl1_text.specs.declared.cell_name.CellName.{CellName};
ghost use Rattle.kl1_clause.specs.Instructions.{IsPlaced, text_in};
ghost use Rattle.kl1_codes.specs.Numbered.{built, own_names};
ghost use Rattle.kl1_codes.specs.Indexes.{key_by, span_at, end_by, IsKeyOf, IsIndexed, IsAt, IsGap, IsInOrder, HasPut};

use crate::span::Span;
use kl1_clause::{Code, CompiledClause, Name};
use kl1_text::{CellName, NameValue};

/// How many keys are compared one by one, before the others are searched by halves: to compare a key with each of these costs
/// less than to search among them.
const FEW: usize = 8;

/// What a predicate is found by: the number of its name and its number of arguments.
pub(crate) type Key = (u64, usize);

/// The spans of predicates, each after its key, in the order of the keys.
pub(crate) type Index = Vec<(Key, Span)>;

/// The key of a predicate.
pub(crate) fn key_by(name: CellName, count: usize) -> Key
    ensures { result ≡ key_by name count }
{
    (name.number, count)
}

/// The number of a code's name, if these are the numbers of its list.
fn number_in(row: &[CellName], name: Name) -> CellName
    requires { IsPlaced (length row.now) name }
    ensures { (f : CellName → List ℕ) → Reads built f → f result ≡ text_in (map f row.now) name }
{
    match name {
        Name::Language(built_in) => CellName::of(built_in),
        Name::Place(place) => row[place as usize],
    }
}

/// The key of a clause's predicate, if these are the numbers of its code.
fn key_of(row: &[CellName], clause: &CompiledClause) -> Key
    requires { IsPlaced (length row.now) clause.now.name }
    ensures { IsKeyOf row.now clause.now result }
{
    key_by(number_in(row, clause.name), clause.count)
}

/// Where the span of a key stands, or where it would go.
fn search(index: &[(Key, Span)], key: Key) -> Result<usize, usize>
    requires { IsInOrder index.now }
    ensures found { IfOk result (IsAt index.now key) }
    ensures absent { IfErr result (IsGap index.now key) }
{
    index.binary_search_by_key(&key, |row| row.0)
}

/// The span of a key, or nothing if it has none.
fn span_of(index: &[(Key, Span)], key: Key) -> Option<Span>
    requires { IsInOrder index.now }
    ensures { result ≡ span_at index.now key }
{
    match search(index, key) {
        Err(_) => None,
        Ok(place) => Some(index[place].1),
    }
}

/// Whether a key stands at a place.
#[inline(always)]
fn is_at(index: &[(Key, Span)], key: Key, place: usize) -> bool
    requires { place < length index.now }
    ensures { IsTrue result → IsAt index.now key place }
{
    let other = index[place].0;
    other.0 == key.0 && other.1 == key.1
}

/// The span of a key, if it stands at this place.
#[inline(always)]
pub(crate) fn span_on(index: &[(Key, Span)], key: Key, place: usize) -> Option<Span>
    requires { IsInOrder index.now }
    ensures { IfSome result (λ span. span_at index.now key ≡ Some span) }
{
    if place < index.len() && is_at(index, key, place) {
        return Some(index[place].1);
    }
    None
}

/// Where the span of a key stands, or nothing if it has none. The first few keys are compared one by one.
pub(crate) fn place_near(index: &[(Key, Span)], key: Key) -> Option<usize>
    requires { IsInOrder index.now }
    ensures { MatchOption result (span_at index.now key ≡ None) (IsAt index.now key) }
{
    for place in 0..FEW.min(index.len()) {
        if is_at(index, key, place) {
            return Some(place);
        }
    }
    match search(index, key) {
        Err(_) => None,
        Ok(place) => Some(place),
    }
}

/// Puts a span under a key. A span that stands there already gives way to it.
fn put_span(index: &mut Index, key: Key, span: Span)
    requires order { IsInOrder index.old.items }
    requires room { vec_len index.old < vec_capacity index.old }
    ensures puts { HasPut index.old.items index.new.items key span }
    ensures order { IsInOrder index.new.items }
    ensures len { vec_len index.new ≤ vec_len index.old + 1 }
    ensures room { vec_capacity index.old ≤ vec_capacity index.new }
{
    match search(index, key) {
        Ok(place) => index[place] = (key, span),
        Err(place) => match index.insert(place, (key, span)) {
            Ok(_) => {}
            Err(_) => unreachable!(),
        },
    }
}

/// Where the run of a predicate's clauses ends that begins at a place, by the span that the index has of what comes after it.
fn end_of(after: Option<Span>, start: usize) -> usize
    requires { start + 1 < 2 ^ 64 }
    ensures { result ≡ end_by start after }
{
    match after {
        None => start + 1,
        Some(span) => {
            if span.start == start + 1 {
                span.end
            } else {
                start + 1
            }
        }
    }
}

/// Puts the span of each predicate of a module into an empty index that has room for one of each clause.
pub(crate) fn put_spans(index: &mut Index, code: &Code, row: &[CellName])
    requires empty { index.old.items ≡ [] }
    requires room { length code.now.clauses ≤ vec_capacity index.old }
    requires named { length row.now ≡ length (own_names code.now) }
    ensures { IsIndexed code.now row.now index.new.items (vec_capacity index.new) }
{
    let clauses = code.clauses();
    let mut start = clauses.len();
    while 0 < start {
        start -= 1;
        let key = key_of(row, &clauses[start]);
        let end = end_of(span_of(index, key), start);
        put_span(index, key, Span { start, end });
    }
}
