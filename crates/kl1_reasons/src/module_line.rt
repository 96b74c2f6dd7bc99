// Why an item is no line of a module.

use kl1_model::Sign;
use kl1_reasons_items::{Kind, Token, dropped};
use kl1_reasons_words::{Finding, Say, Step, alien_finding, found_at, known};
use std::alloc::{AllocError, Global};

/// The bytes with which a file begins that is marked as UTF-8.
const BYTE_ORDER_MARK: [u8; 3] = [0xef, 0xbb, 0xbf];

/// Why the first item of a text is no line of a module, as its tokens show it.
pub(crate) fn module_line_finding(alloc: Global, text: &[u8], tokens: &[Token]) -> Step {
    match tokens {
        [] => Ok(None),
        [neck, word, others @ ..]
            if neck.is(Sign::Neck)
                && matches!(word.kind, Kind::Name)
                && word.bytes(text) == b"module".as_slice() => {
            name_finding(alloc, text, word, others)
        }
        [first, ..] => Ok(Some(no_line(alloc, text, first)?)),
    }
}

/// What is told of a text that doesn't begin with the line of a module.
fn no_line(alloc: Global, text: &[u8], first: &Token) -> Result<Finding, AllocError> {
    let rest = dropped(text, first.start);
    if rest.starts_with(&BYTE_ORDER_MARK) {
        return known(
            alloc,
            first.start,
            b"the first item must be :- module NAME.",
            b"the file begins with a byte order mark: save it as plain ASCII",
        );
    }
    if matches!(first.kind, Kind::Alien) && !rest.starts_with(b"#") {
        return alien_finding(alloc, text, first);
    }
    let is_bare = matches!(first.kind, Kind::Name) && first.bytes(text) == b"module".as_slice();
    let hint: &[u8] = if is_bare {
        b"write :- before module"
    } else {
        b""
    };
    known(
        alloc,
        first.start,
        b"the first item must be :- module NAME.",
        hint,
    )
}

/// Why what stands after `:- module` names none.
fn name_finding(alloc: Global, text: &[u8], word: &Token, others: &[Token]) -> Step {
    match others {
        [] => Ok(Some(known(alloc, word.end, b"the name of the module is missing", b"")?)),
        [name, rest @ ..] => match name.kind {
            Kind::Variable => Ok(Some(found_at(
                alloc,
                name.start,
                &[
                    Say::Text(b"a module is named by a name, and "),
                    Say::Text(name.bytes(text)),
                    Say::Text(b" is a variable"),
                ],
                &[Say::Text(b"begin it with a small letter, or put it in quotes")],
            )?)),
            Kind::Name | Kind::Quoted => rest_finding(alloc, text, name, rest),
            Kind::Alien => Ok(Some(alien_finding(alloc, text, name)?)),
            _ => Ok(Some(no_more(alloc, name.start)?)),
        },
    }
}

/// Why the line of a module whose name is given isn't one.
fn rest_finding(alloc: Global, text: &[u8], name: &Token, rest: &[Token]) -> Step {
    match rest {
        [] => Ok(Some(known(
            alloc,
            name.end,
            b"the dot that ends the line of the module is missing",
            b"",
        )?)),
        [first, ..] => {
            if !matches!(first.kind, Kind::End) {
                return Ok(Some(no_more(alloc, first.start)?));
            }
            if name.name(text) == b"shoen".as_slice() {
                return Ok(Some(known(alloc, name.start, b"no module may be named shoen", b"")?));
            }
            Ok(None)
        }
    }
}

/// What is told of what stands in the line of a module and may not.
fn no_more(alloc: Global, at: usize) -> Result<Finding, AllocError> {
    known(
        alloc,
        at,
        b"the module line is :- module NAME. and no more",
        b"there are no lists of exports: all predicates can be called as NAME:p(..)",
    )
}
