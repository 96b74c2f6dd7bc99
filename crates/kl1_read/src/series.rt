// Expressions that are parted by commas.

ghost use Rattle.std.specs.Prelude.{◌≡◌, map, IfOk};
ghost use Rattle.kl1_read.specs.Views.{numbered_token};
ghost use Rattle.kl1_read.specs.Meanings.{fit, series_read};
ghost use Rattle.kl1_read.specs.Series.{series_view};

use crate::left::Left;
use crate::numbered::Numbered;
use crate::piece::Piece;
use crate::state::{State, Step, one_step};
use std::alloc::{AllocError, Global};

/// The terms of expressions that are parted by commas, with what is after them; none if no expressions are there, or
/// no text can write one of them.
pub(crate) fn read_series<'a>(
    alloc: Global,
    tokens: &'a [Numbered],
) -> Result<Option<(Vec<Piece>, &'a [Numbered])>, AllocError>
    ensures { IfOk result (λ r. series_view r ≡ fit (series_read (map numbered_token tokens.now))) }
{
    let mut frames = Vec::new(alloc);
    let mut done = Vec::new(alloc);
    let mut left = Left::none();
    let mut state = State {
        read: None,
        rest: tokens,
    };
    'tokens: loop {
        match one_step(alloc, &mut frames, &mut done, &mut left, state)? {
            Step::Bad => return Ok(None),
            Step::On(next) => state = next,
            Step::Finished(rest) => return Ok(Some((done, rest))),
        }
    }
}
