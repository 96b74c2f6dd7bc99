// Signs that part what is read.

ghost use Rattle.std.specs.Prelude.{◌≡◌, ◌↔◌, IsTrue, map, option_map, length, IfSome, ◌<◌};
ghost use Rattle.kl1_model.specs.Token.{sign_token};
ghost use Rattle.kl1_read.specs.Views.{numbered_token};
ghost use Rattle.kl1_read.specs.Marks.{sign_of, behind_mark};

use crate::numbered::Numbered;
use kl1_model::Sign;

/// A sign that parts what is read.
#[derive(Clone, Copy)]
pub(crate) enum Mark {
    Comma,
    Open,
    Close,
    CloseList,
    Bar,
    Colon,
    Neck,
    At,
}

/// The sign of a mark.
fn sign_of(mark: Mark) -> Sign
    ensures { result ≡ sign_of mark }
{
    match mark {
        Mark::Comma => Sign::Comma,
        Mark::Open => Sign::Open,
        Mark::Close => Sign::Close,
        Mark::CloseList => Sign::CloseList,
        Mark::Bar => Sign::Bar,
        Mark::Colon => Sign::Colon,
        Mark::Neck => Sign::Neck,
        Mark::At => Sign::At,
    }
}

/// Whether a token is this sign.
pub(crate) fn is_sign(token: &Numbered, sign: Sign) -> bool
    ensures { IsTrue result ↔ (numbered_token token.now ≡ sign_token sign) }
{
    match token {
        Numbered::Name(_quotes, _applied, _text) => false,
        Numbered::Variable(_number) => false,
        Numbered::Digits(_number) => false,
        Numbered::Minus(_digit) => false,
        Numbered::Sign(other) => *other == sign,
        Numbered::End => false,
    }
}

/// What is after a mark in front.
pub(crate) fn behind_mark(mark: Mark, tokens: &[Numbered]) -> Option<&[Numbered]>
    ensures value { option_map (λ rest. map numbered_token rest.now) result ≡ behind_mark mark (map numbered_token tokens.now) }
    ensures less { IfSome result (λ rest. length rest.now < length tokens.now) }
{
    match tokens {
        [] => None,
        [first, rest @ ..] => {
            if is_sign(first, sign_of(mark)) {
                Some(rest)
            } else {
                None
            }
        }
    }
}
