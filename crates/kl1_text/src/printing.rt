// Names and numbers as they are printed.

ghost use Rattle.std.specs.Prelude.{◌≡◌, ◌+◌, ◌*◌, ◌≤◌, ◌++◌, length, OnOk, OnErr};
ghost use Rattle.std.specs.Fmt.{signed_decimal};
ghost use Rattle.std.specs.List.{list_all};
ghost use Rattle.kl1_model.specs.Name.{is_bare, quoted, is_small_letter, is_word_byte, name_text, atom_text};
ghost use Rattle.kl1_model.specs.declared.limits.TheConstants.{MOST_NAME_BYTES};

use crate::atom_text::AtomText;
use crate::short_bytes::ShortBytes;
use itoa::Buffer;
use std::alloc::AllocError;

/// Puts a number in decimal after the bytes.
pub fn put_int(out: &mut Vec<u8>, number: i64) -> Result<(), AllocError>
    ensures ok { OnOk result (out.new.items ≡ out.old.items ++ signed_decimal number) }
    ensures err { OnErr result (out.new.items ≡ out.old.items) }
{
    let mut buffer = Buffer::new();
    out.extend_from_slice(buffer.format(number).as_bytes())
}

/// Puts the name of a structure, as it is printed, after the bytes.
pub fn put_name(out: &mut Vec<u8>, name: &AtomText) -> Result<(), AllocError>
    ensures ok { OnOk result (out.new.items ≡ out.old.items ++ name_text name.now) }
    ensures err { OnErr result (out.new.items ≡ out.old.items) }
{
    let mut text = ShortBytes::new();
    name.unpack(&mut text);
    if is_bare(text.as_slice()) {
        return out.extend_from_slice(text.as_slice());
    }
    out.extend_from_slice(quoted(text.as_slice()).as_slice())
}

/// Puts an atom, as it is printed, after the bytes.
pub fn put_atom(out: &mut Vec<u8>, name: &AtomText) -> Result<(), AllocError>
    ensures ok { OnOk result (out.new.items ≡ out.old.items ++ atom_text name.now) }
    ensures err { OnErr result (out.new.items ≡ out.old.items) }
{
    let mut bytes = ShortBytes::new();
    name.unpack(&mut bytes);
    if bytes.as_slice() == b"[]".as_slice() {
        return out.extend_from_slice(bytes.as_slice());
    }
    if is_bare(bytes.as_slice()) {
        return out.extend_from_slice(bytes.as_slice());
    }
    out.extend_from_slice(quoted(bytes.as_slice()).as_slice())
}

/// Whether a byte is a small letter.
fn is_small_letter(byte: u8) -> bool
    ensures { result ≡ is_small_letter byte }
{
    b'a' <= byte && byte <= b'z'
}

/// Whether a byte may stand after the first of a bare name.
fn is_word_byte(byte: u8) -> bool
    ensures { result ≡ is_word_byte byte }
{
    is_small_letter(byte)
        || (b'A' <= byte && byte <= b'Z')
        || (b'0' <= byte && byte <= b'9')
        || byte == b'_'
}

/// Whether a name needs no quotes.
pub(crate) fn is_bare(bytes: &[u8]) -> bool
    ensures { result ≡ is_bare bytes.now }
{
    match bytes {
        [] => false,
        [first, rest @ ..] => is_small_letter(*first) && are_word_bytes(rest),
    }
}

/// Whether each byte may stand after the first of a bare name.
fn are_word_bytes(bytes: &[u8]) -> bool
    ensures { result ≡ list_all is_word_byte bytes.now }
{
    bytes.iter().all(|byte| is_word_byte(*byte))
}

/// A name in quotes.
pub(crate) fn quoted(bytes: &[u8]) -> ShortBytes
    requires { length bytes.now ≤ MOST_NAME_BYTES }
    ensures { result ≡ quoted bytes.now }
{
    let mut out = ShortBytes::new();
    out.push(b'\'');
    out.put_doubled(bytes);
    out.push(b'\'');
    out
}
