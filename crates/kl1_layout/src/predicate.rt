// Which predicate an item belongs to.

use crate::piece::{Kind, Piece};
use kl1_model::Sign;
use kl1_read::Spelled;

/// How deep brackets are after a token.
fn depth_after(depth: usize, token: &Spelled) -> usize {
    match token {
        Spelled::Sign(Sign::Open) | Spelled::Sign(Sign::OpenList) => depth.saturating_add(1),
        Spelled::Sign(Sign::Close) | Spelled::Sign(Sign::CloseList) => depth.saturating_sub(1),
        _ => depth,
    }
}

/// The number of arguments that stand in front in parentheses.
fn arity_in(pieces: &[Piece]) -> usize {
    let mut depth: usize = 0;
    let mut commas: usize = 0;
    for piece in pieces {
        if let Kind::Token(token) = &piece.kind {
            if depth == 1 && matches!(token, Spelled::Sign(Sign::Comma)) {
                commas = commas.saturating_add(1);
            }
            let before = depth;
            depth = depth_after(depth, token);
            if depth == 0 {
                return commas.saturating_add(before);
            }
        }
    }
    commas
}

/// Whether an item begins here with a name, as a clause does and the line of a module doesn't.
pub(crate) fn is_clause(pieces: &[Piece]) -> bool {
    match pieces {
        [] => false,
        [first, _others @ ..] => matches!(&first.kind, Kind::Token(Spelled::Name(_, _, _))),
    }
}

/// Whether an item begins here that is `otherwise`.
pub(crate) fn is_otherwise(pieces: &[Piece]) -> bool {
    match pieces {
        [first, second, _others @ ..] => {
            first.bytes.as_slice() == b"otherwise".as_slice()
                && matches!(&second.kind, Kind::Token(Spelled::End))
        }
        _ => false,
    }
}

/// Whether the items that begin here have heads of the same name with the same number of arguments.
pub(crate) fn is_same_predicate(one: &[Piece], other: &[Piece]) -> bool {
    match (one, other) {
        ([first, others @ ..], [first_2, others_2 @ ..]) => {
            first.bytes.as_slice() == first_2.bytes.as_slice()
                && arity_in(others) == arity_in(others_2)
        }
        _ => false,
    }
}
