// The words of a line.

ghost use Rattle.std.specs.Prelude.{◌≡◌, ◌+◌, ◌<◌, ◌≤◌, bytes_eq, length, false};
ghost use Rattle.kl1_model.specs.Line.{is_space, word_in, behind_word_in, is_blank_line};
ghost use Rattle.kl1_lines.specs.Places.{blank_place, BeginsWord};

/// Whether a byte parts the words of a line.
fn is_space(byte: u8) -> bool
    ensures { result ≡ is_space byte }
{
    byte == b' ' || byte == b'\t'
}

/// A line without the blanks in front.
pub(crate) fn without_blanks(line: &[u8]) -> &[u8]
    ensures word { word_in result.now ≡ word_in line.now }
    ensures behind { behind_word_in result.now ≡ behind_word_in line.now }
    ensures begins { BeginsWord result.now }
    ensures blank { is_blank_line result.now ≡ is_blank_line line.now }
{
    let mut rest = line;
    while let [first, others @ ..] = rest {
        if !is_space(*first) {
            return rest;
        }
        rest = others;
    }
    rest
}

/// The place of the first blank, or how many bytes there are.
fn blank_place(line: &[u8]) -> usize
    ensures value { result ≡ blank_place line.now }
    ensures within { result ≤ length line.now }
{
    let mut place = 0;
    let mut rest = line;
    while let [first, others @ ..] = rest {
        if is_space(*first) {
            return place;
        }
        place += 1;
        rest = others;
    }
    place
}

/// The first word of a line, and what is after it.
pub fn split_word(line: &[u8]) -> (&[u8], &[u8])
    ensures word { result.0.now ≡ word_in line.now }
    ensures behind { result.1.now ≡ behind_word_in line.now }
    ensures less { is_blank_line line.now ≡ false → length result.1.now < length line.now }
{
    let begun = without_blanks(line);
    let place = blank_place(begun);
    (&begun[..place], &begun[place..])
}

/// Whether two texts are the same.
pub fn is_same(text: &[u8], other: &[u8]) -> bool
    ensures { result ≡ bytes_eq text.now other.now }
{
    text == other
}
