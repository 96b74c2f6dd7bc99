// The line of a module.

ghost use Rattle.std.specs.Prelude.{◌≡◌, ◌∷◌, [], map};
ghost use Rattle.kl1_model.specs.declared.sign.Sign.TheVariants.{Neck};
ghost use Rattle.kl1_model.specs.Module.{named_module};
ghost use Rattle.kl1_model.specs.Token.{sign_token};
ghost use Rattle.kl1_read.specs.Views.{kept_token};

use crate::kept::Kept;
use kl1_model::Sign;
use kl1_text::AtomText;

/// The name in the line of a module, if these are its tokens.
pub(crate) fn named_module(tokens: &[Kept]) -> Option<AtomText>
    ensures { result ≡ named_module (map kept_token tokens.now) }
{
    match tokens {
        [] => None,
        [first, rest @ ..] => {
            if let Kept::Sign(sign) = first {
                behind_sign(*sign, rest)
            } else {
                None
            }
        }
    }
}

/// The name in the line of a module, if these are its tokens after a sign.
#[tactic(auto, using(crate::proofs::ModuleLines::other_sign))]
fn behind_sign(sign: Sign, tokens: &[Kept]) -> Option<AtomText>
    ensures { result ≡ named_module (sign_token sign ∷ map kept_token tokens.now) }
{
    if sign == Sign::Neck && tokens.len() == 2 {
        named(&tokens[0], &tokens[1])
    } else {
        None
    }
}

/// The name in the line of a module, if these are its two tokens after the neck.
fn named(word: &Kept, name: &Kept) -> Option<AtomText>
    ensures { result ≡ named_module (sign_token Neck ∷ kept_token word.now ∷ kept_token name.now ∷ []) }
{
    if let Kept::Name(_quotes, _applied, word) = word {
        if let Kept::Name(_quotes, _applied, name) = name {
            let name = name.name();
            if word.name().is(&AtomText::of(b"module")) && !name.is(&AtomText::of(b"shoen")) {
                return Some(name);
            }
        }
    }
    None
}
