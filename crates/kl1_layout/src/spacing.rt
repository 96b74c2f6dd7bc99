// Where blanks stand between tokens.

use kl1_model::Sign;
use kl1_read::Spelled;

/// Whether a token is an operator: a sign that is no bracket, comma or bar.
fn is_operator(token: &Spelled) -> bool {
    match token {
        Spelled::Minus(_digit) => true,
        Spelled::Sign(sign) => match sign {
            Sign::Comma | Sign::Bar | Sign::Open | Sign::Close | Sign::OpenList | Sign::CloseList =>
                false,
            _ => true,
        },
        _ => false,
    }
}

/// Whether a term can end with a token.
fn ends_term(token: &Spelled) -> bool {
    match token {
        Spelled::Name(_, _, _) | Spelled::Variable(_) | Spelled::Digits(_) => true,
        Spelled::Sign(Sign::Close) | Spelled::Sign(Sign::CloseList) => true,
        _ => false,
    }
}

/// Whether a blank stands between two tokens of which one at least is an operator.
fn is_blank_at_operator(last: &Spelled, next: &Spelled, is_tight: bool) -> bool {
    match (last, next) {
        (Spelled::Sign(Sign::Neck), _) | (_, Spelled::Sign(Sign::Neck)) => true,
        _ if is_operator(last) && is_operator(next) => true,
        (Spelled::Sign(Sign::Colon), _) | (_, Spelled::Sign(Sign::Colon)) => false,
        (Spelled::Sign(Sign::At), _) | (_, Spelled::Sign(Sign::At)) => false,
        (_, Spelled::Minus(true)) => false,
        (Spelled::Minus(false), _) | (_, Spelled::Minus(false)) => true,
        _ => !is_tight,
    }
}

/// Whether a blank stands between two tokens on one line, which stand outside of all brackets or not, and in brackets in which
/// operators have no blanks or not. Without one they would stay the same tokens.
pub(crate) fn is_blank_between(
    last: &Spelled,
    next: &Spelled,
    is_outside: bool,
    is_tight: bool,
) -> bool {
    match (last, next) {
        (_, Spelled::End)
        | (_, Spelled::Sign(Sign::Comma))
        | (_, Spelled::Sign(Sign::Close))
        | (_, Spelled::Sign(Sign::CloseList))
        | (Spelled::Sign(Sign::Open), _)
        | (Spelled::Sign(Sign::OpenList), _)
        | (Spelled::Minus(true), _) => false,
        (Spelled::Sign(Sign::Comma), _)
        | (Spelled::Sign(Sign::Bar), _)
        | (_, Spelled::Sign(Sign::Bar)) => is_outside,
        (Spelled::Name(_text, _quotes, true), Spelled::Sign(Sign::Open)) => false,
        _ if is_operator(last) || is_operator(next) => is_blank_at_operator(last, next, is_tight),
        _ => ends_term(last),
    }
}
