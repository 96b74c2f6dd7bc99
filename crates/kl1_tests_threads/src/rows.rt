// The form of rows.

use crate::report::Text;

/// The number that digits write in base 10, at most the greatest of 64 bits: 0 of none. Each byte below `0` counts as that digit.
pub fn number_of(digits: &[u8]) -> u64 {
    let mut number: u64 = 0;
    for digit in digits {
        let digit = u64::from(digit.saturating_sub(b'0'));
        number = number.saturating_mul(10).saturating_add(digit);
    }
    number
}

/// A text up to the first `mark`, and what stands after that: the whole and nothing, if it has none.
pub fn cut(text: &[u8], mark: u8) -> (&[u8], &[u8]) {
    for place in 0..text.len() {
        if text[place] == mark {
            return (&text[..place], &text[place + 1..]);
        }
    }
    (text, b"")
}

/// Puts a part, with a line feed for each `\n` and the number of the time for each `&`.
fn put_part(whole: &mut Text, part: &[u8], time: u64) {
    let mut left = part;
    for _ in 0..part.len() {
        match left {
            [] => return,
            [b'\\', b'n', rest @ ..] => {
                whole.put(b"\n");
                left = rest;
            }
            [b'&', rest @ ..] => {
                whole.put_number(time);
                left = rest;
            }
            [byte, rest @ ..] => {
                whole.put(&[*byte]);
                left = rest;
            }
        }
    }
}

/// Puts what a text of a row stands for: `\n` for a line feed, and `{COUNT PART}` for the part COUNT times, in which `&` stands for the
/// number of the time, from 0; elsewhere that is 0.
pub fn put_decoded(whole: &mut Text, text: &[u8]) {
    let mut left = text;
    for _ in 0..text.len() {
        let (plain, rest) = cut(left, b'{');
        put_part(whole, plain, 0);
        if rest.is_empty() {
            return;
        }
        let (inside, behind) = cut(rest, b'}');
        let (count, part) = cut(inside, b' ');
        for time in 0..number_of(count) {
            put_part(whole, part, time);
        }
        left = behind;
    }
}
