// Lines of the log that would come often.

ghost use Rattle.std.specs.Prelude.{◌≡◌};
ghost use Rattle.kl1_host_front.specs.Paces.{is_due, told_of, pace_after, no_pace};

/// After how many milliseconds a line is told again that would come often.
pub const TOLD_AGAIN_AFTER: u64 = 1_000;

/// The lines that were left out and are counted: more count as that.
pub const MOST_LEFT_OUT: u64 = 1_000_000_000;

/// When a line was told last, and how many like it were left out since.
#[derive(Clone, Copy)]
pub struct Pace {
    /// When it was told last, in milliseconds; `None` if it never was.
    pub last: Option<u64>,
    /// How many were left out since, at most `MOST_LEFT_OUT`.
    pub left_out: u64,
}

/// Whether a line is told at `now`, which was told last at `last`.
fn is_due(last: Option<u64>, now: u64) -> bool
    ensures { result ≡ is_due last now }
{
    match last {
        None => true,
        Some(last) => now.saturating_sub(last) >= TOLD_AGAIN_AFTER,
    }
}

impl Pace {
    /// No line was told.
    pub fn new() -> Self
        ensures { result ≡ no_pace }
    {
        Pace {
            last: None,
            left_out: 0,
        }
    }

    /// Takes in that a line could be told at `now`, in milliseconds: how many like it were left out since it was told last; `None` if it is
    /// to be left out too.
    pub fn told(&mut self, now: u64) -> Option<u64>
        ensures told { result ≡ told_of self.old now }
        ensures pace { self.new ≡ pace_after self.old now }
    {
        if is_due(self.last, now) {
            let left_out = self.left_out;
            *self = Pace {
                last: Some(now),
                left_out: 0,
            };
            return Some(left_out);
        }
        if self.left_out < MOST_LEFT_OUT {
            self.left_out += 1;
        }
        None
    }
}
