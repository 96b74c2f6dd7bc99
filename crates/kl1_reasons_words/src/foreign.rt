// Operators and words of other languages.

use crate::finding::{Finding, Say, found_at, known};
use kl1_reasons_items::dropped;
use std::alloc::{AllocError, Global};

/// Operators of other languages, each before those that it begins with, with what may help.
const OPERATORS: [(&[u8], &[u8]); 15] = [
    (b"-->", b"write the clauses"),
    (
        b"=/=",
        b"unequal terms are X \\= Y, unequal numbers X =\\= Y",
    ),
    (
        b"/*",
        b"a comment begins with % and runs to the end of its line",
    ),
    (b"==", b"a test is X = Y, of numbers X =:= Y"),
    (
        b"!=",
        b"unequal terms are X \\= Y, unequal numbers X =\\= Y",
    ),
    (
        b"<>",
        b"unequal terms are X \\= Y, unequal numbers X =\\= Y",
    ),
    (b"<=", b"at most is X =< Y"),
    (b"=>", b"at least is X >= Y"),
    (
        b"->",
        b"write a clause for each case: the guard is the condition",
    ),
    (b"<-", b"a clause is p(X) :- tests | goals."),
    (b"**", b"multiply"),
    (b"//", b"X / Y rounds towards zero; a comment begins with %"),
    (b"&&", b"tests and goals are parted by commas"),
    (
        b"||",
        b"write a clause for each case, and otherwise. between them",
    ),
    (b"::", b"a goal is module:predicate(..)"),
];

/// Words that are operators in other languages, with what may help.
const WORDS: [(&[u8], &[u8]); 6] = [
    (b"is", b"X := E computes"),
    (
        b"rem",
        b"mod has the sign of the left side, as rem in Prolog",
    ),
    (b"div", b"X / Y rounds towards zero"),
    (b"xor", b""),
    (b"and", b"tests and goals are parted by commas"),
    (
        b"or",
        b"write a clause for each case, and otherwise. between them",
    ),
];

/// What is told of an operator of another language that stands at a place of a text.
pub(crate) fn operator_finding(
    alloc: Global,
    text: &[u8],
    at: usize,
) -> Result<Option<Finding>, AllocError> {
    let rest = dropped(text, at);
    for (operator, hint) in &OPERATORS {
        if rest.starts_with(operator) {
            return Ok(Some(told_of(alloc, at, operator, hint)?));
        }
    }
    Ok(None)
}

/// What is told of a word that stands between two terms, if it is an operator in another language.
pub(crate) fn word_finding(
    alloc: Global,
    at: usize,
    word: &[u8],
) -> Result<Option<Finding>, AllocError> {
    for (operator, hint) in &WORDS {
        if word == *operator {
            return Ok(Some(told_of(alloc, at, operator, hint)?));
        }
    }
    Ok(None)
}

/// What is told of an operator that the language hasn't.
fn told_of(alloc: Global, at: usize, operator: &[u8], hint: &[u8]) -> Result<Finding, AllocError> {
    match operator {
        b"/*" => known(alloc, at, b"no comments of this form", hint),
        b"-->" => known(alloc, at, b"no grammar rules -->", hint),
        _ => {
            let why = [Say::Text(b"no operator "), Say::Text(operator)];
            if hint.is_empty() {
                found_at(alloc, at, &why, &[])
            } else {
                found_at(alloc, at, &why, &[Say::Text(hint)])
            }
        }
    }
}
