// What may stand between two terms.

ghost use Rattle.std.specs.Prelude.{◌≡◌, ◌∷◌, Bool, List, map, option_map, length, IfSome, ◌<◌};
ghost use Rattle.kl1_model.specs.Token.{name_token, minus_token, sign_token};
ghost use Rattle.kl1_model.specs.Grammar as grammar;
ghost use Rattle.kl1_read.specs.declared.infix.Level.TheVariants as level;
ghost use Rattle.kl1_read.specs.Views.{numbered_token};
ghost use Rattle.kl1_read.specs.Infixes.{infix_in_front, infix_view};

use crate::numbered::Numbered;
use crate::spelling::Spelling;
use kl1_model::{BuiltIn, Sign};
use kl1_text::AtomText;

/// How tightly a name binds that stands between two terms, the loosest first.
#[derive(Clone, Copy)]
pub(crate) enum Level {
    /// Relations, between two sums.
    Relations,
    /// `+` and `-`, before a product.
    Sums,
    /// `*`, `/` and `mod`, before a part.
    Products,
}

/// The name of a level in front of tokens, with what is after it.
pub(crate) fn infix_in_front(level: Level, tokens: &[Numbered]) -> Option<(BuiltIn, &[Numbered])>
    ensures value { infix_view result ≡ infix_in_front level (map numbered_token tokens.now) }
    ensures less { IfSome result (λ r. length r.1.now < length tokens.now) }
{
    match tokens {
        [] => None,
        [first, rest @ ..] => match infix_of(level, first) {
            None => None,
            Some(name) => Some((name, rest)),
        },
    }
}

/// The name of a level that a token is.
fn infix_of(level: Level, token: &Numbered) -> Option<BuiltIn>
    ensures { (ts : List grammar.Numbered) → option_map (λ name. (name, ts)) result ≡ infix_in_front level (numbered_token token.now ∷ ts) }
{
    match token {
        Numbered::Name(quotes, _applied, text) => infix_of_name(level, *quotes, text),
        Numbered::Variable(_number) => None,
        Numbered::Digits(_number) => None,
        Numbered::Minus(_digit) => infix_of_minus(level),
        Numbered::Sign(sign) => infix_of_sign(level, *sign),
        Numbered::End => None,
    }
}

/// The name of a level that a name is: `mod` is one if it doesn't stand in quotes.
fn infix_of_name(level: Level, quotes: bool, text: &Spelling) -> Option<BuiltIn>
    ensures { (applied : Bool) (ts : List grammar.Numbered) → option_map (λ name. (name, ts)) result ≡ infix_in_front level (name_token text.now quotes applied ∷ ts) }
{
    match level {
        Level::Relations => None,
        Level::Sums => None,
        Level::Products => {
            if !quotes && text.name().is(&AtomText::of(b"mod")) {
                Some(BuiltIn::Modulo)
            } else {
                None
            }
        }
    }
}

/// The name of a level that `-` is.
fn infix_of_minus(level: Level) -> Option<BuiltIn>
    ensures { (digit : Bool) (ts : List grammar.Numbered) → option_map (λ name. (name, ts)) result ≡ infix_in_front level (minus_token digit ∷ ts) }
{
    match level {
        Level::Relations => None,
        Level::Sums => Some(BuiltIn::Minus),
        Level::Products => None,
    }
}

/// The name of a level that a sign is.
fn infix_of_sign(level: Level, sign: Sign) -> Option<BuiltIn>
    ensures { (ts : List grammar.Numbered) → option_map (λ name. (name, ts)) result ≡ infix_in_front level (sign_token sign ∷ ts) }
{
    match level {
        Level::Relations => relation_of(sign),
        Level::Sums => adding_of(sign),
        Level::Products => multiplying_of(sign),
    }
}

/// The relation of a sign.
fn relation_of(sign: Sign) -> Option<BuiltIn>
    ensures { (ts : List grammar.Numbered) → option_map (λ name. (name, ts)) result ≡ infix_in_front level.Relations (sign_token sign ∷ ts) }
{
    match sign {
        Sign::Equals => Some(BuiltIn::Equal),
        Sign::Differs => Some(BuiltIn::NotEqual),
        Sign::Becomes => Some(BuiltIn::Assign),
        Sign::Under => Some(BuiltIn::Less),
        Sign::Over => Some(BuiltIn::Greater),
        Sign::NotOver => Some(BuiltIn::AtMost),
        Sign::NotUnder => Some(BuiltIn::AtLeast),
        Sign::SameValue => Some(BuiltIn::SameNumber),
        Sign::OtherValue => Some(BuiltIn::OtherNumber),
        _ => None,
    }
}

/// The operator of sums that a sign is.
fn adding_of(sign: Sign) -> Option<BuiltIn>
    ensures { (ts : List grammar.Numbered) → option_map (λ name. (name, ts)) result ≡ infix_in_front level.Sums (sign_token sign ∷ ts) }
{
    match sign {
        Sign::Plus => Some(BuiltIn::Plus),
        _ => None,
    }
}

/// The operator of products that a sign is.
fn multiplying_of(sign: Sign) -> Option<BuiltIn>
    ensures { (ts : List grammar.Numbered) → option_map (λ name. (name, ts)) result ≡ infix_in_front level.Products (sign_token sign ∷ ts) }
{
    match sign {
        Sign::Star => Some(BuiltIn::Times),
        Sign::Slash => Some(BuiltIn::Divide),
        _ => None,
    }
}
