// The lines in which reasons are told.

ghost use Rattle.std.specs.Prelude.{◌≡◌, ◌++◌, OnOk, decimal};
ghost use Rattle.kl1_reasons.specs.Told.{hint_lines, lines_of, lines_of_each};

use crate::reason::Reason;
use itoa::Buffer;
use std::alloc::AllocError;

/// Puts the lines of a reason of this severity, in the file of this name, after the bytes. After an `Err` some of them may be there.
pub fn put_reason(
    out: &mut Vec<u8>,
    name: &[u8],
    severity: &[u8],
    reason: &Reason,
) -> Result<(), AllocError>
    ensures { OnOk result (out.new.items ≡ out.old.items ++ lines_of name.now severity.now reason.now) }
{
    out.extend_from_slice(name)?;
    out.extend_from_slice(b":")?;
    put_number(out, reason.place.line)?;
    out.extend_from_slice(b":")?;
    put_number(out, reason.place.column)?;
    out.extend_from_slice(b": ")?;
    out.extend_from_slice(severity)?;
    out.extend_from_slice(b": ")?;
    out.extend_from_slice(reason.words.why.as_slice())?;
    out.extend_from_slice(b"\n")?;
    put_hints(out, reason.words.hints.as_slice())
}

/// Puts the lines of reasons of this severity, in the file of this name, after the bytes. After an `Err` some of them may be there.
pub(crate) fn put_each(
    name: &[u8],
    severity: &[u8],
    reasons: &[Reason],
    out: &mut Vec<u8>,
) -> Result<(), AllocError>
    ensures { OnOk result (out.new.items ≡ out.old.items ++ lines_of_each name.now severity.now reasons.now) }
{
    let mut rest = reasons;
    while let [first, others @ ..] = rest {
        put_reason(out, name, severity, first)?;
        rest = others;
    }
    Ok(())
}

/// Puts a number in decimal after the bytes.
fn put_number(out: &mut Vec<u8>, number: u64) -> Result<(), AllocError>
    ensures { OnOk result (out.new.items ≡ out.old.items ++ decimal number) }
{
    let mut buffer = Buffer::new();
    out.extend_from_slice(buffer.format(number).as_bytes())
}

/// Puts a line for each hint after the bytes. After an `Err` some of them may be there.
fn put_hints(out: &mut Vec<u8>, hints: &[Vec<u8>]) -> Result<(), AllocError>
    ensures { OnOk result (out.new.items ≡ out.old.items ++ hint_lines hints.now) }
{
    let mut rest = hints;
    while let [first, others @ ..] = rest {
        out.extend_from_slice(b"    hint: ")?;
        out.extend_from_slice(first.as_slice())?;
        out.extend_from_slice(b"\n")?;
        rest = others;
    }
    Ok(())
}
