// What is told of a host that runs.

ghost use Rattle.std.specs.Prelude.{◌≡◌, ◌++◌, map, OnOk};
ghost use Rattle.kl1_host_front.specs.StatusLines.{number_view, number_words, numbers_words, host_lines, account_line, state_of};

use kl1_lines::put_decimal;
use std::alloc::AllocError;

/// A number with its name.
#[derive(Clone, Copy)]
pub struct Number<'a> {
    pub name: &'a [u8],
    pub number: u64,
}

/// Puts a name, a space and a number after others.
fn put_number(out: &mut Vec<u8>, number: Number<'_>) -> Result<(), AllocError>
    ensures { OnOk result (out.new.items ≡ out.old.items ++ number_words (number_view number.entry)) }
{
    out.extend_from_slice(number.name)?;
    out.extend_from_slice(b" ")?;
    put_decimal(out, number.number)
}

/// Puts a line for each number of a host after others.
pub fn put_host(out: &mut Vec<u8>, numbers: &[Number<'_>]) -> Result<(), AllocError>
    ensures { OnOk result (out.new.items ≡ out.old.items ++ host_lines (map number_view numbers.now)) }
{
    let mut rest = numbers;
    while let [first, others @ ..] = rest {
        put_number(out, *first)?;
        out.extend_from_slice(b"\n")?;
        rest = others;
    }
    Ok(())
}

/// The end of an account's line.
fn state_of(is_stopped: bool) -> &'static [u8]
    ensures { result.now ≡ state_of is_stopped }
{
    if is_stopped {
        b" stopped\n"
    } else {
        b" runs\n"
    }
}

/// Puts numbers, each with a space in front, after others.
fn put_numbers(out: &mut Vec<u8>, numbers: &[Number<'_>]) -> Result<(), AllocError>
    ensures { OnOk result (out.new.items ≡ out.old.items ++ numbers_words (map number_view numbers.now)) }
{
    let mut rest = numbers;
    while let [first, others @ ..] = rest {
        out.extend_from_slice(b" ")?;
        put_number(out, *first)?;
        rest = others;
    }
    Ok(())
}

/// Puts the line of an account after others: its name, its numbers, and whether it is stopped, since its journal can't be written.
pub fn put_account_status(
    out: &mut Vec<u8>,
    name: &[u8],
    numbers: &[Number<'_>],
    is_stopped: bool,
) -> Result<(), AllocError>
    ensures { OnOk result (out.new.items ≡ out.old.items ++ account_line name.now (map number_view numbers.now) is_stopped) }
{
    out.extend_from_slice(b"account ")?;
    out.extend_from_slice(name)?;
    put_numbers(out, numbers)?;
    out.extend_from_slice(state_of(is_stopped))
}
