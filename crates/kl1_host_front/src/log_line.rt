// Lines of the log.

ghost use Rattle.std.specs.Prelude.{◌≡◌, ◌<◌, ◌++◌, map, OnOk};
ghost use Rattle.std.specs.List.{list_all};
ghost use Rattle.kl1_host_front.specs.LogLines.{is_plain_byte, is_plain, digit_of, written_byte, written_bytes, written_value, written_field, written_line, field_view};

use std::alloc::AllocError;

/// Whether a byte may stand in a value without quotes.
fn is_plain_byte(byte: u8) -> bool
    ensures { result ≡ is_plain_byte byte }
{
    byte.is_ascii_graphic() && byte != b'"' && byte != b'=' && byte != b'\\'
}

/// Whether a value needs no quotes.
fn is_plain(value: &[u8]) -> bool
    ensures { result ≡ is_plain value.now }
{
    match value {
        [] => false,
        [_, ..] => are_plain_bytes(value),
    }
}

/// Whether each byte may stand in a value without quotes.
fn are_plain_bytes(bytes: &[u8]) -> bool
    ensures { result ≡ list_all is_plain_byte bytes.now }
{
    bytes.iter().all(|byte| is_plain_byte(*byte))
}

/// The hexadecimal digit of a number below 16.
fn digit_of(number: u8) -> u8
    requires { number < 16 }
    ensures { result ≡ digit_of number }
{
    if number < 10 {
        b'0' + number
    } else {
        b'a' + (number - 10)
    }
}

/// Puts a byte of a value in quotes after others.
fn put_byte(out: &mut Vec<u8>, byte: u8) -> Result<(), AllocError>
    ensures { OnOk result (out.new.items ≡ out.old.items ++ written_byte byte) }
{
    if byte == b'"' || byte == b'\\' {
        return out.extend_from_slice(&[b'\\', byte]);
    }
    if 32 <= byte && byte <= 126 {
        return out.extend_from_slice(&[byte]);
    }
    out.extend_from_slice(&[b'\\', b'x', digit_of(byte / 16), digit_of(byte % 16)])
}

/// Puts a value after others: as it is if it is plain, or else in quotes.
fn put_value(out: &mut Vec<u8>, value: &[u8]) -> Result<(), AllocError>
    ensures { OnOk result (out.new.items ≡ out.old.items ++ written_value value.now) }
{
    if is_plain(value) {
        return out.extend_from_slice(value);
    }
    out.extend_from_slice(b"\"")?;
    put_quoted(out, value)?;
    out.extend_from_slice(b"\"")
}

/// Puts the bytes of a value in quotes after others.
fn put_quoted(out: &mut Vec<u8>, value: &[u8]) -> Result<(), AllocError>
    ensures { OnOk result (out.new.items ≡ out.old.items ++ written_bytes value.now) }
{
    let mut rest = value;
    while let [first, others @ ..] = rest {
        put_byte(out, *first)?;
        rest = others;
    }
    Ok(())
}

/// A field of a line of the log.
#[derive(Clone, Copy)]
pub struct Field<'a> {
    /// Its name, which needs no quotes.
    pub name: &'a [u8],
    /// What it is, any bytes.
    pub value: &'a [u8],
}

/// Puts a field after others.
fn put_field(out: &mut Vec<u8>, field: Field<'_>) -> Result<(), AllocError>
    ensures { OnOk result (out.new.items ≡ out.old.items ++ written_field (field_view field.entry)) }
{
    out.extend_from_slice(field.name)?;
    out.extend_from_slice(b"=")?;
    put_value(out, field.value)
}

/// Puts a line of the log after others: its fields, parted by spaces.
pub fn put_line(out: &mut Vec<u8>, fields: &[Field<'_>]) -> Result<(), AllocError>
    ensures { OnOk result (out.new.items ≡ out.old.items ++ written_line (map field_view fields.now)) }
{
    let mut rest = fields;
    while let [first, others @ ..] = rest {
        put_field(out, *first)?;
        if !others.is_empty() {
            out.extend_from_slice(b" ")?;
        }
        rest = others;
    }
    out.extend_from_slice(b"\n")
}
