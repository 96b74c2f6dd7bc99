// A text with sums.

ghost use Rattle.std.specs.Prelude.{◌≡◌, ◌∷◌, ◌++◌, OnOk, IfOk};
ghost use Rattle.kl1_model_server.specs.Command.{written_line};
ghost use Rattle.kl1_model_server.specs.JournalText.{lines_of};
ghost use Rattle.kl1_sums.specs.Sums.{sum_after, summed_text};
ghost use Rattle.kl1_sums.specs.SumValues.{digits_of};

use crate::sum::Sum;
use kl1_journal_entries::next_line;
use std::alloc::{AllocError, Global};

/// Lines with their sums, each with its line feed, and the sum of the last of them.
#[derive(Drop)]
pub struct Summed {
    pub bytes: Vec<u8>,
    pub last: Sum,
}

/// Puts a line after its sum.
fn put_line(out: &mut Vec<u8>, sum: &Sum, line: &[u8]) -> Result<(), AllocError>
    ensures { OnOk result (out.new.items ≡ out.old.items ++ written_line (digits_of sum.now ++ 32 ∷ line.now)) }
{
    out.extend_from_slice(sum.as_slice())?;
    out.extend_from_slice(b" ")?;
    out.extend_from_slice(line)?;
    out.extend_from_slice(b"\n")
}

/// The whole lines of a text with their sums, after a line with the sum `prev`. What is after the last line feed is dropped.
pub fn with_sums(alloc: Global, prev: Sum, text: &[u8]) -> Result<Summed, AllocError>
    ensures bytes { IfOk result (λ s. s.bytes.items ≡ summed_text (digits_of prev) text.now) }
    ensures last { IfOk result (λ s. digits_of s.last ≡ sum_after (digits_of prev) (lines_of text.now).whole) }
{
    let mut bytes = Vec::new(alloc);
    let mut last = prev;
    let mut rest = text;
    while let Some((line, after)) = next_line(rest) {
        last = last.then(line);
        put_line(&mut bytes, &last, line)?;
        rest = after;
    }
    Ok(Summed { bytes, last })
}
