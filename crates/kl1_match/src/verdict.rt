// What a clause says to a goal.

ghost use Rattle.std.specs.Prelude.{◌≡◌};
ghost use Rattle.kl1_match.specs.Verdicts.{is_rejection};

/// What a clause says to a goal.
#[derive(Clone, Copy)]
pub enum Verdict {
    /// The goal may commit to the clause.
    Accepts,
    /// The goal can never commit to it.
    Rejects,
    /// The goal waits for some of its variables.
    Suspends,
}

/// Whether a verdict rejects.
#[inline]
pub fn is_rejection(verdict: Verdict) -> bool
    ensures { result ≡ is_rejection verdict }
{
    match verdict {
        Verdict::Accepts => false,
        Verdict::Rejects => true,
        Verdict::Suspends => false,
    }
}
