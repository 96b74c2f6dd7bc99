// Whether the same is written in two texts.

ghost use Rattle.std.specs.Prelude.{◌≡◌, map, IsTrue};
ghost use Rattle.kl1_layout.specs.Pieces.{written_piece};

use crate::piece::Piece;

/// Whether two rows of pieces are the same.
pub(crate) fn is_same_row(one: &[Piece], other: &[Piece]) -> bool
    ensures { IsTrue result → map written_piece one.now ≡ map written_piece other.now }
{
    let mut rest = one;
    let mut left = other;
    while let [first, others @ ..] = rest {
        let [head, tail @ ..] = left else {
            return false;
        };
        if !first.is_same(head) {
            return false;
        }
        rest = others;
        left = tail;
    }
    left.is_empty()
}
