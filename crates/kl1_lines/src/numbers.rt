// The numbers of a line.

ghost use Rattle.std.specs.Prelude.{◌≡◌};
ghost use Rattle.std.specs.List.{list_all};
ghost use Rattle.kl1_model.specs.Line.{number_in, up_to, only_number};
ghost use Rattle.kl1_model.specs.Record.{source_bytes_in};
ghost use Rattle.kl1_model.specs.Token.{is_digit};

use crate::lines::is_blank_line;
use crate::words::{is_same, split_word};
use kl1_model::limits::{MOST_COMMAND_BYTES, MOST_DIGITS, MOST_SOURCE_BYTES, NUMBER_LIMIT};
use kl1_text::decimal_up_to;

#[tactic(auto, using(crate::proofs::Digits::digits_write))]
/// The number that a word is: digits, at least one and not too many, of a value below the limit of numbers.
pub fn number_in(word: &[u8]) -> Option<u64>
    ensures { result ≡ number_in word.now }
{
    if word.is_empty() || word.len() > MOST_DIGITS {
        return None;
    }
    if are_digits(word) {
        decimal_up_to(NUMBER_LIMIT - 1, word)
    } else {
        None
    }
}

/// Whether a byte is a decimal digit.
fn is_digit(byte: u8) -> bool
    ensures { result ≡ is_digit byte }
{
    b'0' <= byte && byte <= b'9'
}

/// Whether bytes are decimal digits alone.
fn are_digits(bytes: &[u8]) -> bool
    ensures { result ≡ list_all is_digit bytes.now }
{
    bytes.iter().all(|byte| is_digit(*byte))
}

/// The one number that a line has.
pub fn only_number(line: &[u8]) -> Option<u64>
    ensures { result ≡ only_number line.now }
{
    let (word, behind) = split_word(line);
    if is_blank_line(behind) {
        number_in(word)
    } else {
        None
    }
}

/// A number, if it is at most `most`.
pub fn up_to(most: u64, number: Option<u64>) -> Option<u64>
    ensures { result ≡ up_to most number }
{
    match number {
        None => None,
        Some(n) => if n <= most { Some(n) } else { None },
    }
}

/// How many bytes the source has that follows a line, if the line is a good load.
pub fn source_bytes_in(line: &[u8]) -> Option<u64>
    ensures { result ≡ source_bytes_in line.now }
{
    if line.len() > MOST_COMMAND_BYTES {
        return None;
    }
    let (word, rest) = split_word(line);
    if is_same(word, b"load") {
        up_to(MOST_SOURCE_BYTES as u64, only_number(rest))
    } else {
        None
    }
}
