// The lines of names in a journal's text.

ghost use Rattle.std.specs.Prelude.{◌≡◌, ◌<◌, length, IsNone, IfSome};
ghost use Rattle.kl1_model.specs.declared.limits.TheConstants.{MOST_NAME_BYTES};
ghost use Rattle.kl1_model_server.specs.JournalText.{unquoted, name_by, name_line, name_in};

use crate::text::is_joined;
use kl1_lines::split_name;
use kl1_model::limits::MOST_NAME_BYTES;
use kl1_text::{AtomText, ShortBytes};

/// What stands between quotes, as it would be without its doubled quotes, and without the quote at the end; `None` if that is too long for
/// a name.
fn unquoted(bytes: &[u8]) -> Option<ShortBytes>
    ensures some { IfSome result (λ out. out ≡ unquoted bytes.now) }
    ensures none { IsNone result → MOST_NAME_BYTES < length (unquoted bytes.now) }
{
    let mut out = ShortBytes::new();
    let mut rest = bytes;
    while let [first, _second, others @ ..] = rest {
        if out.len() >= MOST_NAME_BYTES {
            return None;
        }
        out.push(*first);
        rest = if *first == b'\'' { others } else { &rest[1..] };
    }
    Some(out)
}

/// Bytes, if they are few enough for a name.
fn copied(bytes: &[u8]) -> Option<ShortBytes>
    ensures some { IfSome result (λ out. out ≡ bytes.now) }
    ensures none { IsNone result → MOST_NAME_BYTES < length bytes.now }
{
    if bytes.len() > MOST_NAME_BYTES {
        return None;
    }
    let mut out = ShortBytes::new();
    let mut rest = bytes;
    while let [first, others @ ..] = rest {
        out.push(*first);
        rest = others;
    }
    Some(out)
}

/// The bytes of the name that a printed atom may be; `None` if they are too many for a name.
fn name_by(printed: &[u8]) -> Option<ShortBytes>
    ensures some { IfSome result (λ out. out ≡ name_by printed.now) }
    ensures none { IsNone result → MOST_NAME_BYTES < length (name_by printed.now) }
{
    match printed {
        [b'\'', rest @ ..] => unquoted(rest),
        _ => copied(printed),
    }
}

/// The name that a line of a journal's text has, if it is a line of a name.
pub fn name_of(line: &[u8]) -> Option<AtomText>
    ensures { result ≡ name_in line.now }
{
    let (_, printed) = split_name(line);
    let bytes = name_by(printed)?;
    let name = AtomText::read(bytes.as_slice())?;
    if is_joined(line, b"name ", name.printed_as_atom().as_slice()) {
        Some(name)
    } else {
        None
    }
}
