// Sizes and durations in words.

ghost use Rattle.std.specs.Prelude.{◌≡◌, ◌≤◌, length, IfSome};
ghost use Rattle.kl1_model.specs.Token.{behind_digits};
ghost use Rattle.kl1_host_front.specs.Quantities.{byte_unit, time_unit, without_space, amount, size_in, duration_in};
ghost use Rattle.kl1_host_front.specs.declared.quantities.TheConstants.{MOST_BYTES, MOST_MILLISECONDS};

use kl1_lines::is_same;
use kl1_text::decimal_up_to;

/// The most bytes that a size says: 2^50.
pub const MOST_BYTES: u64 = 1_125_899_906_842_624;

/// The most milliseconds that a duration says: a year of 366 days.
pub const MOST_MILLISECONDS: u64 = 31_622_400_000;

/// A number of bytes in words, as `256 MB`.
#[tactic(auto, using(crate::proofs::Digits::digits_are))]
pub fn size_in(text: &[u8]) -> Option<u64>
    ensures value { result ≡ size_in text.now }
    ensures most { IfSome result (λ n. n ≤ MOST_BYTES) }
{
    let behind = behind_digits(text);
    let digits = &text[..text.len() - behind.len()];
    amount(byte_unit(without_space(behind)), MOST_BYTES, digits)
}

/// A time in words, as `100ms`, in milliseconds.
#[tactic(auto, using(crate::proofs::Digits::digits_are))]
pub fn duration_in(text: &[u8]) -> Option<u64>
    ensures value { result ≡ duration_in text.now }
    ensures most { IfSome result (λ n. n ≤ MOST_MILLISECONDS) }
{
    let behind = behind_digits(text);
    let digits = &text[..text.len() - behind.len()];
    amount(time_unit(without_space(behind)), MOST_MILLISECONDS, digits)
}

/// What is after the digits in front.
fn behind_digits(text: &[u8]) -> &[u8]
    ensures value { result.now ≡ behind_digits text.now }
    ensures within { length result.now ≤ length text.now }
{
    let mut rest = text;
    while let [first, others @ ..] = rest {
        if !first.is_ascii_digit() {
            return rest;
        }
        rest = others;
    }
    rest
}

/// A text without one space in front.
fn without_space(text: &[u8]) -> &[u8]
    ensures { result.now ≡ without_space text.now }
{
    match text {
        [b' ', rest @ ..] => rest,
        _ => text,
    }
}

/// So many of a unit, if digits say how many and it is at most `most`.
#[tactic(auto, using(crate::proofs::Digits::too_many))]
fn amount(unit: Option<u64>, most: u64, digits: &[u8]) -> Option<u64>
    requires { IfSome unit (λ u. 1 ≤ u) }
    ensures value { result ≡ amount unit most digits.now }
    ensures most { IfSome result (λ n. n ≤ most) }
{
    if digits.is_empty() {
        return None;
    }
    let unit = unit?;
    let count = decimal_up_to(most, digits)?;
    let all = count.checked_mul(unit)?;
    if all <= most { Some(all) } else { None }
}

/// How many bytes a unit of this name is.
fn byte_unit(name: &[u8]) -> Option<u64>
    ensures value { result ≡ byte_unit name.now }
    ensures some { IfSome result (λ u. 1 ≤ u) }
{
    if is_same(name, b"B") {
        Some(1)
    } else if is_same(name, b"KB") {
        Some(1_000)
    } else if is_same(name, b"MB") {
        Some(1_000_000)
    } else if is_same(name, b"GB") {
        Some(1_000_000_000)
    } else if is_same(name, b"KiB") {
        Some(1_024)
    } else if is_same(name, b"MiB") {
        Some(1_048_576)
    } else if is_same(name, b"GiB") {
        Some(1_073_741_824)
    } else {
        None
    }
}

/// How many milliseconds a unit of this name is.
fn time_unit(name: &[u8]) -> Option<u64>
    ensures value { result ≡ time_unit name.now }
    ensures some { IfSome result (λ u. 1 ≤ u) }
{
    if is_same(name, b"ms") {
        Some(1)
    } else if is_same(name, b"s") {
        Some(1_000)
    } else if is_same(name, b"m") {
        Some(60_000)
    } else if is_same(name, b"h") {
        Some(3_600_000)
    } else if is_same(name, b"d") {
        Some(86_400_000)
    } else {
        None
    }
}
