// Places of a text.

ghost use Rattle.std.specs.Prelude.{◌≡◌, ◌+◌, ◌≤◌, length, take};
ghost use Rattle.kl1_reasons_items.specs.Places.{first_place, place_behind, place_of};
ghost use Rattle.kl1_reasons_items.specs.Places.{HasLine};

/// A place of a text: its line, and its column in bytes, both from 1.
#[derive(Clone, Copy)]
pub struct Place {
    pub line: u64,
    pub column: u64,
}

/// The place of the byte before which `at` others stand.
pub fn place_of(text: &[u8], at: usize) -> Place
    ensures { result ≡ place_of text.now at }
{
    place_behind(taken(text, at))
}

/// The place of what follows the bytes of a text.
fn place_behind(text: &[u8]) -> Place
    ensures { result ≡ place_behind first_place text.now }
{
    let mut place = Place { line: 1, column: 1 };
    let mut rest = text;
    while let [first, others @ ..] = rest {
        place = if *first == b'\n' {
            Place {
                line: place.line + 1,
                column: 1,
            }
        } else {
            Place {
                line: place.line,
                column: place.column + 1,
            }
        };
        rest = others;
    }
    place
}

/// How many bytes stand before a line of a text.
pub fn line_start(text: &[u8], line: u64) -> usize
    requires { HasLine text.now line }
    ensures starts { (place_of text.now result).line ≡ line }
    ensures within { result ≤ length text.now }
{
    let mut here = 1;
    let mut at = 0;
    while at < text.len() && here < line {
        if text[at] == b'\n' {
            here += 1;
        }
        at += 1;
    }
    at
}

/// The first `count` bytes.
pub fn taken(bytes: &[u8], count: usize) -> &[u8]
    ensures { result.now ≡ take count bytes.now }
{
    if count < bytes.len() {
        &bytes[..count]
    } else {
        bytes
    }
}
