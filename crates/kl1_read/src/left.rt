// What stands to the left of a primary in its expression.

ghost use Rattle.std.specs.Prelude.{◌≡◌, ◌↔◌, IsTrue};
ghost use Rattle.kl1_read.specs.Waits.{no_left};

use crate::piece::Piece;
use kl1_model::BuiltIn;

/// What stands to the left of the primary that is being read, in its expression: what was read of each level, with the name
/// of what stands after it.
#[derive(Drop)]
pub(crate) struct Left {
    /// The sum before a relation.
    pub(crate) relation: Option<(BuiltIn, Piece)>,
    /// What was read of a sum, before an operator.
    pub(crate) sum: Option<(BuiltIn, Piece)>,
    /// What was read of a product, before an operator.
    pub(crate) product: Option<(BuiltIn, Piece)>,
    /// The primary before a colon.
    pub(crate) colon: Option<Piece>,
}

impl Left {
    /// Nothing.
    pub(crate) fn none() -> Self
        ensures { result ≡ no_left }
    {
        Left {
            relation: None,
            sum: None,
            product: None,
            colon: None,
        }
    }

    /// Whether nothing stands there.
    pub(crate) fn is_empty(&self) -> bool
        ensures { IsTrue result ↔ (self.now ≡ no_left) }
    {
        self.relation.is_none()
            && self.sum.is_none()
            && self.product.is_none()
            && self.colon.is_none()
    }
}
