// An expression in what was opened.

ghost use Rattle.std.specs.Prelude.{◌≡◌, ◌++◌, ◌∷◌, [], map, length, List, IfOk};
ghost use Rattle.kl1_model.specs.Term.{Term as TermSpec};
ghost use Rattle.kl1_read.specs.Views.{numbered_token};
ghost use Rattle.kl1_read.specs.Joins.{Closes, ClosedLess, closed_then};
ghost use Rattle.kl1_read.specs.Meanings.{Going, Dooms, fit, after_elements};
ghost use Rattle.kl1_read.specs.declared.opened.Opened.TheVariants.{Arguments, Elements, Tail};

use crate::mark::{Mark, behind_mark};
use crate::numbered::Numbered;
use crate::opened::Opened;
use crate::piece::Piece;
use crate::spelling::Spelling;
use kl1_text::AtomText;
use std::alloc::{AllocError, Global};

/// What was opened, after an expression in it.
#[derive(Drop)]
pub(crate) enum Closed<'a> {
    /// It isn't closed rightly, or no text can write it.
    Bad,
    /// Another expression is in it.
    More(Opened<'a>, &'a [Numbered]),
    /// It is closed: a primary.
    Whole(Piece, &'a [Numbered]),
}

/// Puts an expression into what was opened.
pub(crate) fn close<'a>(
    alloc: Global,
    opened: Opened<'a>,
    piece: Piece,
    tokens: &'a [Numbered],
) -> Result<Closed<'a>, AllocError>
    ensures value { IfOk result (Closes opened.entry piece (map numbered_token tokens.now)) }
    ensures less { IfOk result (ClosedLess (length tokens.now)) }
{
    match opened {
        Opened::Group => match behind_mark(Mark::Close, tokens) {
            None => Ok(Closed::Bad),
            Some(behind) => Ok(Closed::Whole(piece, behind)),
        },
        Opened::Arguments(name, arguments) => close_arguments(
            alloc, name, arguments, piece, tokens,
        ),
        Opened::Elements(elements) => close_elements(alloc, elements, piece, tokens),
        Opened::Tail(elements) => close_tail(elements, piece, tokens),
    }
}

/// Puts an expression after arguments, and closes them if no comma follows.
fn close_arguments<'a>(
    alloc: Global,
    name: &'a Spelling,
    arguments: Vec<Piece>,
    piece: Piece,
    tokens: &'a [Numbered],
) -> Result<Closed<'a>, AllocError>
    ensures value { IfOk result (Closes (Arguments name.entry arguments) piece (map numbered_token tokens.now)) }
    ensures less { IfOk result (ClosedLess (length tokens.now)) }
{
    let mut arguments = arguments;
    arguments.push(piece)?;
    match behind_mark(Mark::Comma, tokens) {
        Some(behind) => Ok(Closed::More(Opened::Arguments(name, arguments), behind)),
        None => match behind_mark(Mark::Close, tokens) {
            None => Ok(Closed::Bad),
            Some(behind) => match Piece::structure(alloc, name.name(), arguments)? {
                None => Ok(Closed::Bad),
                Some(whole) => Ok(Closed::Whole(whole, behind)),
            },
        },
    }
}

/// Puts an expression after elements, and goes on to what follows them if no comma does.
fn close_elements<'a>(
    alloc: Global,
    elements: Vec<Piece>,
    piece: Piece,
    tokens: &'a [Numbered],
) -> Result<Closed<'a>, AllocError>
    ensures value { IfOk result (Closes (Elements elements) piece (map numbered_token tokens.now)) }
    ensures less { IfOk result (ClosedLess (length tokens.now)) }
{
    let mut elements = elements;
    elements.push(piece)?;
    match behind_mark(Mark::Comma, tokens) {
        Some(behind) => Ok(Closed::More(Opened::Elements(elements), behind)),
        None => end_elements(alloc, elements, tokens),
    }
}

/// Closes a list after its elements, or goes on to its tail.
fn end_elements<'a>(
    alloc: Global,
    elements: Vec<Piece>,
    tokens: &'a [Numbered],
) -> Result<Closed<'a>, AllocError>
    ensures value { IfOk result (λ c. (k : Going) → Dooms k → fit (closed_then c k) ≡ fit (after_elements k elements.items (map numbered_token tokens.now))) }
    ensures less { IfOk result (ClosedLess (length tokens.now)) }
{
    match behind_mark(Mark::Bar, tokens) {
        Some(behind) => {
            let mut elements = elements;
            elements.shrink_to_fit();
            Ok(Closed::More(Opened::Tail(elements), behind))
        }
        None => match behind_mark(Mark::CloseList, tokens) {
            None => Ok(Closed::Bad),
            Some(behind) => {
                let nil = Piece::atom(alloc, AtomText::of(b"[]"))?;
                match Piece::cells(elements, nil)? {
                    None => Ok(Closed::Bad),
                    Some(whole) => Ok(Closed::Whole(whole, behind)),
                }
            }
        },
    }
}

/// Closes a list after its tail.
fn close_tail<'a>(
    elements: Vec<Piece>,
    piece: Piece,
    tokens: &'a [Numbered],
) -> Result<Closed<'a>, AllocError>
    ensures value { IfOk result (Closes (Tail elements) piece (map numbered_token tokens.now)) }
    ensures less { IfOk result (ClosedLess (length tokens.now)) }
{
    match behind_mark(Mark::CloseList, tokens) {
        None => Ok(Closed::Bad),
        Some(behind) => match Piece::cells(elements, piece)? {
            None => Ok(Closed::Bad),
            Some(whole) => Ok(Closed::Whole(whole, behind)),
        },
    }
}
