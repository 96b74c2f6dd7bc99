// The limit to which a run came.

use kl1_lines::put_decimal;
use kl1_user_events::{Usage, Used};
use std::alloc::AllocError;

/// What is limited, and what an account has of it.
#[derive(Clone, Copy)]
struct Limited {
    name: &'static [u8],
    used: Used,
}

impl Limited {
    /// How much more there may be.
    fn left(&self) -> u64 {
        self.used.most.saturating_sub(self.used.count)
    }

    /// This, or what has this name if less is left of that.
    fn or_less(self, name: &'static [u8], used: Used) -> Self {
        let other = Limited { name, used };
        if other.left() < self.left() {
            other
        } else {
            self
        }
    }
}

/// What the least is left of.
fn nearest(usage: &Usage) -> Limited {
    let goals = Limited {
        name: b"goals alive",
        used: usage.goals,
    };
    goals
        .or_less(b"shoens", usage.shoens)
        .or_less(b"names", usage.names)
        .or_less(b"variables", usage.variables)
        .or_less(b"structures", usage.structures)
        .or_less(b"reports", usage.reports)
}

/// Puts the line of the limit that an account was next to after the bytes.
pub(crate) fn put_limit(
    usage: &Usage,
    program: &[u8],
    out: &mut Vec<u8>,
) -> Result<(), AllocError> {
    let Limited { name, used } = nearest(usage);
    out.extend_from_slice(program)?;
    out.extend_from_slice(b": a limit was met: ")?;
    put_decimal(out, used.count)?;
    out.extend_from_slice(b" of ")?;
    put_decimal(out, used.most)?;
    out.push(b' ')?;
    out.extend_from_slice(name)?;
    out.push(b'\n')?;
    Ok(())
}
