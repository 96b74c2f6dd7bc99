// The names of a code as those of an account.

ghost use Rattle.std.specs.Prelude.{◌≡◌, ℕ, List, length, map};
ghost use Rattle.kl1_text.specs.Reading.{Reads};
ghost use Rattle.kl1_clause.specs.Instructions.{IsPlaced, text_in};
ghost use Rattle.kl1_match.specs.TestTerms.{name_of};

use kl1_clause::Name;
use kl1_text::NameValue;

/// The name that a code's name is, if the names of its list are these.
pub fn name_at<N: NameValue>(names: &[N], name: Name) -> N
    requires { IsPlaced (length names.now) name }
    ensures reads { (f : N → List ℕ) → Reads N.built f → f result ≡ text_in (map f names.now) name }
    ensures is { result ≡ name_of N.built names.now name }
{
    match name {
        Name::Language(built_in) => N::of(built_in),
        Name::Place(place) => names[place as usize],
    }
}
