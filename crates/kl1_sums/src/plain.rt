// A text without its sums.

ghost use Rattle.std.specs.Prelude.{◌≡◌, ◌≤◌, ◌++◌, [], is_some, length, drop, OnOk, IfOk, IfSome};
ghost use Rattle.kl1_model_server.specs.Command.{written_line, written_lines};
ghost use Rattle.kl1_model_server.specs.JournalText.{lines_of};
ghost use Rattle.kl1_sums.specs.Sums.{sum_of, plain_line, plain_from, emptied, have_sums, plain_text, last_sum, is_spoilt};
ghost use Rattle.kl1_sums.specs.SumValues.{digits_of};

use crate::sum::Sum;
use kl1_journal_entries::next_line;
use std::alloc::{AllocError, Global};

/// How many bytes stand before a line: its sum, and a space.
const BEFORE: usize = 17;

/// What is after the sum of a line and its space.
fn behind_sum(line: &[u8]) -> &[u8]
    requires { 17 ≤ length line.now }
    ensures { result.now ≡ drop 17 line.now }
{
    &line[BEFORE..]
}

/// The line that stands in a file as `line`, after one with the sum `prev`, with its sum, if that is right.
#[tactic(auto, using(crate::proofs::Rightness::short_line, crate::proofs::Rightness::other_space))]
fn right_line<'a>(prev: &Sum, line: &'a [u8]) -> Option<(Sum, &'a [u8])>
    ensures right { is_some result ≡ is_some (plain_line (digits_of prev.now) line.now) }
    ensures line { IfSome result (λ p. p.1.now ≡ drop 17 line.now) }
    ensures sum { IfSome result (λ p. digits_of p.0 ≡ sum_of (digits_of prev.now) (drop 17 line.now)) }
{
    if line.len() < BEFORE {
        return None;
    }
    let plain = behind_sum(line);
    if line[BEFORE - 1] != b' ' {
        return None;
    }
    let sum = prev.then(plain);
    if sum.as_slice() == &line[..BEFORE - 1] {
        return Some((sum, plain));
    }
    None
}

/// Whether a text is one of lines with sums: the first has its sum.
fn has_sums(text: &[u8]) -> bool
    ensures { result ≡ have_sums (lines_of text.now).whole }
{
    match next_line(text) {
        None => false,
        Some((line, _)) => right_line(&Sum::none(), line).is_some(),
    }
}

/// Puts a line with its line feed.
fn put_line(out: &mut Vec<u8>, line: &[u8]) -> Result<(), AllocError>
    ensures { OnOk result (out.new.items ≡ out.old.items ++ written_line line.now) }
{
    out.extend_from_slice(line)?;
    out.extend_from_slice(b"\n")
}

/// Puts an empty line for each of a text, and what is after its last line feed.
fn put_empty(out: &mut Vec<u8>, text: &[u8]) -> Result<(), AllocError>
    ensures { OnOk result (out.new.items ≡ (out.old.items ++ written_lines (emptied (lines_of text.now).whole)) ++ (lines_of text.now).rest) }
{
    let mut rest = text;
    while let Some((_, after)) = next_line(rest) {
        out.extend_from_slice(b"\n")?;
        rest = after;
    }
    out.extend_from_slice(rest)
}

/// Puts a text of lines with sums without these.
fn put_plain(out: &mut Vec<u8>, text: &[u8]) -> Result<(), AllocError>
    ensures { OnOk result (out.new.items ≡ (out.old.items ++ written_lines (plain_from [] (lines_of text.now).whole)) ++ (lines_of text.now).rest) }
{
    let mut sum = Sum::none();
    let mut rest = text;
    while let Some((line, after)) = next_line(rest) {
        let Some((next, plain)) = right_line(&sum, line) else {
            return put_empty(out, rest);
        };
        put_line(out, plain)?;
        sum = next;
        rest = after;
    }
    out.extend_from_slice(rest)
}

/// A text with sums or without as one without, with the same number of lines. From the first line on whose sum isn't right each is an empty
/// one, which is no line of a journal; what is after the last line feed stays.
#[tactic(auto, using(crate::proofs::SumTexts::text_stays))]
pub fn plain_text(alloc: Global, text: &[u8]) -> Result<Vec<u8>, AllocError>
    ensures { IfOk result (λ plain. plain.items ≡ plain_text text.now) }
{
    if !has_sums(text) {
        return Vec::from_slice(alloc, text);
    }
    let mut plain = Vec::new(alloc);
    put_plain(&mut plain, text)?;
    Ok(plain)
}

/// The sum of the last whole line of a text of lines with sums; none if there is no whole line.
pub fn last_sum(text: &[u8]) -> Sum
    ensures { digits_of result ≡ last_sum text.now }
{
    let mut last = Sum::none();
    let mut rest = text;
    while let Some((line, after)) = next_line(rest) {
        last = Sum::before(line);
        rest = after;
    }
    last
}

/// What is after the last line feed of a text.
fn rest_of(text: &[u8]) -> &[u8]
    ensures { result.now ≡ (lines_of text.now).rest }
{
    let mut rest = text;
    while let Some((_, after)) = next_line(rest) {
        rest = after;
    }
    rest
}

/// Whether what is after the last line feed of a text is a line with its sum and one byte more: then that byte was a line feed. What a crash
/// leaves of a line is a front of it.
pub fn is_spoilt(text: &[u8]) -> bool
    ensures { result ≡ is_spoilt text.now }
{
    let rest = rest_of(text);
    right_line(&last_sum(text), &rest[..rest.len().saturating_sub(1)]).is_some()
}
