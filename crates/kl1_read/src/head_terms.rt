// The head of a clause as terms.

ghost use Rattle.std.specs.Prelude.{◌≡◌, ℕ, List, [], map, IfOk};
ghost use Rattle.kl1_read.specs.Views.{numbered_token};
ghost use Rattle.kl1_read.specs.Statements.{heading_view, heading_read, arguments_read};

use crate::clause_terms::put_series;
use crate::mark::{Mark, behind_mark};
use crate::numbered::Numbered;
use crate::piece::Piece;
use kl1_text::AtomText;
use std::alloc::{AllocError, Global};

/// Reads the name and the arguments of a head; gives what is after it. None if no head is there, or no text can write
/// one of its arguments.
pub(crate) fn read_head<'a>(
    alloc: Global,
    tokens: &'a [Numbered],
    name: &mut AtomText,
    arguments: &mut Vec<Piece>,
) -> Result<Option<&'a [Numbered]>, AllocError>
    requires { arguments.old.items ≡ [] }
    ensures { IfOk result (λ r. heading_view r name.new arguments.new.items ≡ heading_read (map numbered_token tokens.now)) }
{
    match tokens {
        [] => Ok(None),
        [first, rest @ ..] => {
            if let Numbered::Name(_quotes, applied, text) = first {
                *name = text.name();
                if *applied {
                    read_arguments(alloc, rest, arguments)
                } else {
                    Ok(Some(rest))
                }
            } else {
                Ok(None)
            }
        }
    }
}

/// Reads arguments in parentheses.
fn read_arguments<'a>(
    alloc: Global,
    tokens: &'a [Numbered],
    arguments: &mut Vec<Piece>,
) -> Result<Option<&'a [Numbered]>, AllocError>
    ensures { IfOk result (λ r. (p : List ℕ) → heading_view r p arguments.new.items ≡ arguments_read p (map numbered_token tokens.now)) }
{
    match behind_mark(Mark::Open, tokens) {
        None => Ok(None),
        Some(inside) => match put_series(alloc, inside, arguments) {
            Ok(Some(rest)) => Ok(behind_mark(Mark::Close, rest)),
            other => other,
        },
    }
}
