// Numbers for variables.

ghost use Rattle.std.specs.Prelude.{◌≡◌, ◌∷◌, [], ◌++◌, suc, bytes_eq, codes, length, map, List, ℕ, Some, IsTrue, IfOk, OnOk};
ghost use Rattle.std.specs.HashMap.{get, Updates};
ghost use Rattle.kl1_model.specs.Text.{is_text};
ghost use Rattle.kl1_model.specs.Token.{Token};
ghost use Rattle.kl1_model.specs.Numbering.{variable_number, seen_after, numbered_from, numbered_tokens};
ghost use Rattle.kl1_read.specs.Spellings.{Finds, IsBehind, IsNumbered};
ghost use Rattle.kl1_read.specs.Views.{kept_token, numbered_token};

use crate::kept::Kept;
use crate::numbered::Numbered;
use crate::spelling::Spelling;
use kl1_text::AtomText;
use std::alloc::{AllocError, Global};
use std::collections::HashMap;

/// Puts a spelling after those seen; gives its number.
fn put(seen: &mut Vec<AtomText>, text: AtomText) -> Result<u64, AllocError>
    ensures { IfOk result (IsBehind seen.old.items seen.new.items text) }
{
    let number = seen.len() as u64 + 1;
    seen.push(text)?;
    Ok(number)
}

/// Whether a spelling is that of another variable each time.
fn is_another(text: &AtomText) -> bool
    ensures { result ≡ bytes_eq text.now (codes "_") }
{
    text.is(&AtomText::of(b"_"))
}

/// The number of a variable, which joins those seen if it is new: `_` is another one each time.
pub(crate) fn number_of(
    numbers: &mut HashMap<AtomText, u64>,
    seen: &mut Vec<AtomText>,
    text: AtomText,
) -> Result<u64, AllocError>
    requires { Finds numbers.old seen.old.items }
    ensures { IfOk result (IsNumbered numbers.new seen.old.items seen.new.items text) }
{
    if is_another(&text) {
        return put(seen, text);
    }
    if let Some(number) = numbers.get(&text) {
        return Ok(*number);
    }
    numbers.insert(text, seen.len() as u64 + 1)?;
    put(seen, text)
}

/// A token with a number for its variable.
fn number_token(
    alloc: Global,
    numbers: &mut HashMap<AtomText, u64>,
    seen: &mut Vec<AtomText>,
    token: &Kept,
) -> Result<Numbered, AllocError>
    requires { Finds numbers.old seen.old.items }
    ensures finds { OnOk result (Finds numbers.new seen.new.items) }
    ensures token { IfOk result (λ r. (ts : List (Token (List ℕ))) → numbered_token r ∷ numbered_from seen.new.items ts ≡ numbered_from seen.old.items (kept_token token.now ∷ ts)) }
{
    match token {
        Kept::Name(quotes, applied, text) => {
            let text = Spelling::of(alloc, text.name())?;
            Ok(Numbered::Name(*quotes, *applied, text))
        }
        Kept::Variable(text) => {
            let number = number_of(numbers, seen, text.name())?;
            Ok(Numbered::Variable(number))
        }
        Kept::Digits(number) => Ok(Numbered::Digits(*number)),
        Kept::Minus(digit) => Ok(Numbered::Minus(*digit)),
        Kept::Sign(sign) => Ok(Numbered::Sign(*sign)),
        Kept::End => Ok(Numbered::End),
    }
}

/// The tokens of an item with numbers for their variables, from 1 by first occurrence.
pub(crate) fn numbered_tokens(alloc: Global, tokens: &[Kept]) -> Result<Vec<Numbered>, AllocError>
    ensures { IfOk result (λ ts. map numbered_token ts.items ≡ numbered_tokens (map kept_token tokens.now)) }
{
    let mut out = Vec::with_capacity(alloc, tokens.len())?;
    let mut numbers = HashMap::new(alloc);
    let mut seen = Vec::new(alloc);
    let mut rest = tokens;
    while let [first, others @ ..] = rest {
        let token = number_token(alloc, &mut numbers, &mut seen, first)?;
        out.push_reserved(token);
        rest = others;
    }
    Ok(out)
}
