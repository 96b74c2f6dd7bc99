// The clauses of one predicate.

ghost use Rattle.std.specs.Prelude.{◌≡◌, ◌==◌, length};
ghost use Rattle.kl1_model.specs.Module.{is_of};
ghost use Rattle.kl1_clause.specs.Instructions.{text_in, IsPlaced};
ghost use Rattle.kl1_clause.specs.Clauses.{clause_in, IsCompiled};
ghost use Rattle.kl1_clause.specs.Predicates.{clauses_in, AreWhole, from_first, front_run};

use crate::compiled_clause::CompiledClause;
use crate::name::Name;
use kl1_text::AtomText;

/// The clauses of one predicate, in order, and the names of their code as an account has them.
#[derive(Clone, Copy)]
pub struct Predicate<'a, N> {
    pub names: &'a [N],
    pub clauses: &'a [CompiledClause],
}

/// The first clause of a predicate, with those after it.
pub(crate) fn from_first<'a>(
    texts: &[AtomText],
    clauses: &'a [CompiledClause],
    name: &AtomText,
    count: usize,
) -> &'a [CompiledClause]
    requires { AreWhole texts.now clauses.now }
    ensures whole { AreWhole texts.now result.now }
    ensures value { clauses_in texts.now result.now ≡ from_first (is_of name.now count) (clauses_in texts.now clauses.now) }
{
    let mut left = clauses;
    while let [first, rest @ ..] = left {
        if is_of(texts, first, name, count) {
            return left;
        }
        left = rest;
    }
    left
}

/// The clauses up to the first that is not of a predicate.
pub(crate) fn front_run<'a>(
    texts: &[AtomText],
    clauses: &'a [CompiledClause],
    name: &AtomText,
    count: usize,
) -> &'a [CompiledClause]
    requires { AreWhole texts.now clauses.now }
    ensures whole { AreWhole texts.now result.now }
    ensures value { clauses_in texts.now result.now ≡ front_run (is_of name.now count) (clauses_in texts.now clauses.now) }
{
    let mut place = 0;
    while place < clauses.len() {
        if !is_of(texts, &clauses[place], name, count) {
            break;
        }
        place += 1;
    }
    &clauses[..place]
}

/// Whether a clause is one of a predicate.
fn is_of(texts: &[AtomText], clause: &CompiledClause, name: &AtomText, count: usize) -> bool
    requires { IsCompiled texts.now clause.now (clause_in texts.now clause.now) }
    ensures { result ≡ is_of name.now count (clause_in texts.now clause.now) }
{
    has_count(clause, count) && text_of(texts, clause.name).is(name)
}

/// Whether a clause has `count` patterns.
fn has_count(clause: &CompiledClause, count: usize) -> bool
    ensures { result ≡ (clause.now.count == count) }
{
    clause.count == count
}

/// The text of a name.
fn text_of(texts: &[AtomText], name: Name) -> AtomText
    requires { IsPlaced (length texts.now) name }
    ensures { result ≡ text_in texts.now name }
{
    match name {
        Name::Language(built_in) => AtomText::of_built_in(built_in),
        Name::Place(place) => texts[place as usize],
    }
}
