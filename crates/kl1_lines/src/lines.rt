// Lines, and the name in front of one.

ghost use Rattle.std.specs.Prelude.{◌≡◌, ◌+◌, ◌<◌, ◌≤◌, length, take, drop, false, IfSome, IsNone};
ghost use Rattle.kl1_model.specs.Line.{is_blank_line, without_return, line_in, behind_feed, before_space, behind_space};
ghost use Rattle.kl1_lines.specs.Places.{place_of, has_byte, IsSplit};

use crate::words::without_blanks;

/// The place of the first such byte, or how many bytes there are.
fn place_of(byte: u8, text: &[u8]) -> usize
    ensures value { result ≡ place_of byte text.now }
    ensures within { result ≤ length text.now }
{
    let mut place = 0;
    let mut rest = text;
    while let [first, others @ ..] = rest {
        if *first == byte {
            return place;
        }
        place += 1;
        rest = others;
    }
    place
}

/// What is after the byte at a place, nothing if none is there.
fn behind_place(text: &[u8], place: usize) -> &[u8]
    ensures { result.now ≡ drop (place + 1) text.now }
{
    if place < text.len() {
        &text[place + 1..]
    } else {
        &[]
    }
}

/// A line without a carriage return at its end.
pub fn without_return(line: &[u8]) -> &[u8]
    ensures { result.now ≡ without_return line.now }
{
    if line.is_empty() {
        return line;
    }
    let last = line.len() - 1;
    if line[last] == b'\r' {
        &line[..last]
    } else {
        line
    }
}

/// The bytes before the first line feed of a text, and those after it; `None` if there is no line feed.
#[tactic(auto, using(crate::proofs::Splits::split_nowhere))]
pub fn split_feed(text: &[u8]) -> Option<(&[u8], &[u8])>
    ensures none { IsNone result → has_byte 10 text.now ≡ false }
    ensures some { IfSome result (λ r. IsSplit text.now r.0.now r.1.now) }
{
    let place = place_of(b'\n', text);
    if place < text.len() {
        Some((&text[..place], behind_place(text, place)))
    } else {
        None
    }
}

/// The line in front of a text, without its end, and what is after that.
pub fn split_line(text: &[u8]) -> (&[u8], &[u8])
    ensures line { result.0.now ≡ line_in text.now }
    ensures behind { result.1.now ≡ behind_feed text.now }
    ensures within { length result.1.now ≤ length text.now }
    ensures less { 0 < length text.now → length result.1.now < length text.now }
{
    let place = place_of(b'\n', text);
    (without_return(&text[..place]), behind_place(text, place))
}

/// The bytes before the first space of a line, and those after it.
pub fn split_name(line: &[u8]) -> (&[u8], &[u8])
    ensures name { result.0.now ≡ before_space line.now }
    ensures behind { result.1.now ≡ behind_space line.now }
{
    let place = place_of(b' ', line);
    (&line[..place], behind_place(line, place))
}

/// Whether a line has blanks alone.
pub fn is_blank_line(line: &[u8]) -> bool
    ensures { result ≡ is_blank_line line.now }
{
    without_blanks(line).is_empty()
}
