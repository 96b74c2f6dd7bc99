// Names beside built-in ones.

ghost use Rattle.std.specs.Prelude.{◌≡◌, ℕ, List, bytes_eq};
ghost use Rattle.kl1_model.specs.Text.{text_of};
ghost use Rattle.kl1_text.specs.Reading.{Reads};

use kl1_model::BuiltIn;
use kl1_text::NameValue;

/// Whether a name is that of a built-in.
pub(crate) fn is_built_in<N: NameValue>(name: N, built_in: BuiltIn) -> bool
    ensures { (f : N → List ℕ) → Reads N.built f → bytes_eq (f name) (text_of built_in) ≡ result }
{
    name.same(&N::of(built_in))
}
