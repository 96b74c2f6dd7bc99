// What tests come to.

ghost use Rattle.std.specs.Prelude.{◌≡◌, ℕ};
ghost use Rattle.kl1_model.specs.Answer.{known};
ghost use Rattle.kl1_match_guard.specs.Outcomes.{outcome_of, IsKnown};

/// What a test comes to: it holds; it doesn't, and never will; or it waits for this variable.
#[derive(Clone, Copy)]
pub enum Outcome<V> {
    Agrees,
    Clashes,
    Waits(V),
}

/// The outcome of a test that is known.
#[inline]
pub(crate) fn decide<V>(holds: bool) -> Outcome<V>
    ensures value { (number : V → ℕ) → outcome_of number result ≡ known holds }
    ensures known { IsKnown result }
{
    if holds {
        return Outcome::Agrees;
    }
    Outcome::Clashes
}
