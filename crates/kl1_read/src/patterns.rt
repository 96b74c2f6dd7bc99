// The patterns and the tests of a clause.

ghost use Rattle.std.specs.Prelude.{◌≡◌, [], IsTrue, IfOk};
ghost use Rattle.kl1_model.specs.Term.{terms_of};
ghost use Rattle.kl1_model.specs.Meaning.{deepest, are_narrow, highest_in};
ghost use Rattle.kl1_model.specs.Module.{each_of};
ghost use Rattle.kl1_read.specs.Statements.{given, fit_as, fit_patterns, fit_test_upto, is_fit_name};

use crate::piece::Piece;
use crate::reserved::{may_name_atom, may_name_structure};
use crate::role::Role;
use crate::test_kinds::is_test;
use kl1_model::limits::{MOST_ARGUMENTS, MOST_DEPTH};
use kl1_term::{Term, highest_among};
use kl1_text::AtomText;
use std::alloc::{AllocError, Global};

/// Puts the patterns of a head of this name and these arguments. Answers whether it may stand there: its name may be a head's,
/// and a text can write it.
pub(crate) fn put_patterns(
    alloc: Global,
    name: &AtomText,
    arguments: &mut Vec<Piece>,
    patterns: &mut Vec<Term>,
) -> Result<bool, AllocError>
    requires { patterns.old.items ≡ [] }
    ensures { IfOk result (λ r. given r patterns.new.items ≡ fit_patterns name.now arguments.old.items) }
{
    if is_fit(name, arguments.as_slice()) {
        put_terms(alloc, Role::Pattern, arguments, patterns)
    } else {
        Ok(false)
    }
}

/// Puts the tests of a guard after a head of these patterns. Answers whether each is a test whose variables are the head's: those
/// have the numbers from 1 on.
pub(crate) fn put_tests(
    alloc: Global,
    patterns: &[Term],
    pieces: &mut Vec<Piece>,
    tests: &mut Vec<Term>,
) -> Result<bool, AllocError>
    requires { tests.old.items ≡ [] }
    ensures { IfOk result (λ r. given r tests.new.items ≡ each_of (fit_test_upto (highest_in (terms_of patterns.now))) pieces.old.items) }
{
    put_terms(alloc, Role::Test(highest_among(patterns)), pieces, tests)
}

/// Puts what terms are where they stand. Answers whether each may stand there. The terms that are read are taken one by one, and
/// the row they were in is given back.
fn put_terms(
    alloc: Global,
    role: Role,
    pieces: &mut Vec<Piece>,
    terms: &mut Vec<Term>,
) -> Result<bool, AllocError>
    requires { terms.old.items ≡ [] }
    ensures { IfOk result (λ r. given r terms.new.items ≡ each_of (fit_as role) pieces.old.items) }
{
    while let Some(piece) = pieces.pop() {
        match term_as(alloc, role, piece)? {
            None => return Ok(false),
            Some(term) => terms.push(term)?,
        }
    }
    terms.reverse();
    *pieces = Vec::new(alloc);
    Ok(true)
}

/// The term itself, if it may stand there.
fn term_as(alloc: Global, role: Role, piece: Piece) -> Result<Option<Term>, AllocError>
    ensures { IfOk result (λ term. term ≡ fit_as role piece) }
{
    // Only for the proof: a text can write it.
    piece.is_written();
    let term = piece.into_term(alloc)?;
    let stands = match role {
        Role::Pattern => true,
        Role::Test(most) => is_test(&term) && term.highest() <= most,
    };
    Ok(if stands { Some(term) } else { None })
}

/// Whether a name may be the head of these arguments, and a text can write it with them.
fn is_fit(name: &AtomText, arguments: &[Piece]) -> bool
    ensures { result ≡ is_fit_name name.now arguments.now }
{
    name.shows_text();
    if arguments.len() == 0 {
        return may_name_atom(name);
    }
    if !may_name_structure(name, arguments.len()) {
        return false;
    }
    if arguments.len() > MOST_ARGUMENTS {
        return false;
    }
    deepest(arguments) < MOST_DEPTH
}

/// How deep the deepest of terms is, 0 if there is none.
fn deepest(pieces: &[Piece]) -> u64
    ensures value { result ≡ deepest (terms_of pieces.now) }
    ensures narrow { IsTrue (are_narrow (terms_of pieces.now)) }
{
    let mut most = 0;
    for piece in pieces {
        // Only for the proof: a text can write it.
        piece.is_written();
        most = most.max(piece.depth());
    }
    most
}
