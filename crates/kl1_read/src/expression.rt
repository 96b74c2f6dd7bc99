// One expression.

ghost use Rattle.std.specs.Prelude.{◌≡◌, map, option_map, option_and_then, IfOk};
ghost use Rattle.kl1_model.specs.reader.Reader.{expression_tree};
ghost use Rattle.kl1_model.specs.Meaning.{expression_term};
ghost use Rattle.kl1_read.specs.Views.{numbered_token};
ghost use Rattle.kl1_read.specs.Pieces.{writable};
ghost use Rattle.kl1_read.specs.Series.{single, series_view};

use crate::numbered::Numbered;
use crate::piece::Piece;
use crate::series::read_series;
use std::alloc::{AllocError, Global};

/// The term of tokens that are one expression, if a text can write it.
pub(crate) fn read_expression(
    alloc: Global,
    tokens: &[Numbered],
) -> Result<Option<Piece>, AllocError>
    ensures { IfOk result (λ r. r ≡ option_and_then writable (option_map expression_term (expression_tree (map numbered_token tokens.now)))) }
{
    let series = read_series(alloc, tokens)?;
    Ok(lone_term(series))
}

/// The term that was read, if it is one and nothing is after it.
fn lone_term(series: Option<(Vec<Piece>, &[Numbered])>) -> Option<Piece>
    ensures { result ≡ single (series_view series.entry) }
{
    match series {
        None => None,
        Some((terms, rest)) => {
            let mut terms = terms;
            if rest.len() == 0 && terms.len() == 1 {
                terms.pop()
            } else {
                None
            }
        }
    }
}
