// The first line of a reply.

use kl1_lines::{is_same, number_in, only_number, split_word};

/// The number of the refusal of a source that is no module.
const BAD_SOURCE: u64 = 2;

/// Whether a reply is a refusal, by its first line.
pub fn is_refusal(line: &[u8]) -> bool {
    let (word, _) = split_word(line);
    is_same(word, b"-")
}

/// The number of a refusal, if a reply is one, by its first line.
pub fn refusal_in(line: &[u8]) -> Option<u64> {
    if !is_refusal(line) {
        return None;
    }
    let (_, rest) = split_word(line);
    let (number, _) = split_word(rest);
    number_in(number)
}

/// Whether a reply is the refusal of a source that is no module.
pub fn is_bad_source(line: &[u8]) -> bool {
    match refusal_in(line) {
        Some(number) => number == BAD_SOURCE,
        None => false,
    }
}

/// How many lines come after the first one of a reply that lists lines; `None` if it lists none.
pub fn count_in(line: &[u8]) -> Option<u64> {
    let (word, rest) = split_word(line);
    if is_same(word, b"+") {
        only_number(rest)
    } else {
        None
    }
}

/// Whether a shoen has ended, by the reply to a question for its status.
pub fn has_ended(line: &[u8]) -> bool {
    let (_, rest) = split_word(line);
    let (state, _) = split_word(rest);
    is_same(state, b"terminated") || is_same(state, b"aborted")
}

/// Whether a wait for a shoen is over, by the reply to a question for its status: the shoen has ended, or the question is refused.
pub(crate) fn is_over(line: &[u8]) -> bool {
    is_refusal(line) || has_ended(line)
}

/// Whether no step was done, by the reply to a run: it is refused, or did none.
pub(crate) fn is_still(line: &[u8]) -> bool {
    let (_, rest) = split_word(line);
    let (count, _) = split_word(rest);
    is_refusal(line) || is_same(count, b"0")
}

/// Whether a reply to a logout is a farewell.
pub(crate) fn is_bye(line: &[u8]) -> bool {
    line.starts_with(b"+ bye")
}
