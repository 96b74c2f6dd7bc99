// Variables by the numbers that an answer tells.

ghost use Rattle.std.specs.Prelude.{◌≡◌, ◌∷◌, [], ◌++◌, false, codes, bytes_eq, decimal, drop, length, map, List, ℕ, MatchOption, IfOk, OnOk};
ghost use Rattle.kl1_model.specs.Token.{Token};
ghost use Rattle.kl1_model.specs.Telling.{is_told, told_from};
ghost use Rattle.kl1_read.specs.Spellings.{Finds};
ghost use Rattle.kl1_read.specs.Tellings.{Tells, IsTold};
ghost use Rattle.kl1_read.specs.Views.{kept_token, numbered_token};

use crate::kept::Kept;
use crate::numbered::Numbered;
use crate::numbering::number_of;
use crate::spelling::Spelling;
use itoa::Buffer;
use kl1_model::limits::FIRST_UNTOLD;
use kl1_text::{AtomText, decimal_up_to};
use std::alloc::{AllocError, Global};
use std::collections::HashMap;

/// What is after the first byte.
fn behind_first(bytes: &[u8]) -> &[u8]
    ensures { result.now ≡ drop 1 bytes.now }
{
    match bytes {
        [] => bytes,
        [_, rest @ ..] => rest,
    }
}

/// Whether bytes are `_` and a number in decimal.
fn is_underscored(bytes: &[u8], number: u64) -> bool
    ensures { result ≡ bytes_eq bytes.now (codes "_" ++ decimal number) }
{
    let [first, digits @ ..] = bytes else {
        return false;
    };
    if *first != b'_' {
        return false;
    }
    digits == Buffer::new().format(number).as_bytes()
}

/// The number that a variable tells: n, if it is written `_n`, with n from 1 below 2^62 and without leading zeros.
fn told_by(text: &AtomText) -> Option<u64>
    ensures { MatchOption result (is_told text.now ≡ false) (Tells text.now) }
{
    let bytes = text.unpacked();
    let Some(number) = decimal_up_to(FIRST_UNTOLD - 1, behind_first(bytes.as_slice())) else {
        return None;
    };
    if number == 0 {
        return None;
    }
    if !is_underscored(bytes.as_slice(), number) {
        return None;
    }
    Some(number)
}

/// The number of a variable as it is told; one that isn't joins those seen if it is new, and they have the numbers from 2^62 on.
fn told_number(
    numbers: &mut HashMap<AtomText, u64>,
    seen: &mut Vec<AtomText>,
    text: AtomText,
) -> Result<u64, AllocError>
    requires { Finds numbers.old seen.old.items }
    ensures { IfOk result (IsTold numbers.new seen.old.items seen.new.items text) }
{
    if let Some(number) = told_by(&text) {
        return Ok(number);
    }
    let number = number_of(numbers, seen, text)?;
    Ok(FIRST_UNTOLD + (number - 1))
}

/// A token with the number of its variable as it is told.
fn tell_token(
    alloc: Global,
    numbers: &mut HashMap<AtomText, u64>,
    seen: &mut Vec<AtomText>,
    token: &Kept,
) -> Result<Numbered, AllocError>
    requires { Finds numbers.old seen.old.items }
    ensures finds { OnOk result (Finds numbers.new seen.new.items) }
    ensures token { IfOk result (λ r. (ts : List (Token (List ℕ))) → numbered_token r ∷ told_from seen.new.items ts ≡ told_from seen.old.items (kept_token token.now ∷ ts)) }
{
    match token {
        Kept::Name(quotes, applied, text) => {
            let text = Spelling::of(alloc, text.name())?;
            Ok(Numbered::Name(*quotes, *applied, text))
        }
        Kept::Variable(text) => {
            let number = told_number(numbers, seen, text.name())?;
            Ok(Numbered::Variable(number))
        }
        Kept::Digits(number) => Ok(Numbered::Digits(*number)),
        Kept::Minus(digit) => Ok(Numbered::Minus(*digit)),
        Kept::Sign(sign) => Ok(Numbered::Sign(*sign)),
        Kept::End => Ok(Numbered::End),
    }
}

/// The tokens of an answer with the numbers of their variables as they are told.
pub(crate) fn told_tokens(alloc: Global, tokens: &[Kept]) -> Result<Vec<Numbered>, AllocError>
    ensures { IfOk result (λ ts. map numbered_token ts.items ≡ told_from [] (map kept_token tokens.now)) }
{
    let mut out = Vec::with_capacity(alloc, tokens.len())?;
    let mut numbers = HashMap::new(alloc);
    let mut seen = Vec::new(alloc);
    let mut rest = tokens;
    while let [first, others @ ..] = rest {
        let token = tell_token(alloc, &mut numbers, &mut seen, first)?;
        out.push_reserved(token);
        rest = others;
    }
    Ok(out)
}
