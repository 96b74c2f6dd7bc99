// Signs in front of a text.

ghost use Rattle.std.specs.Prelude.{◌≡◌};
ghost use Rattle.kl1_model.specs.Token.{sign_at, spelling_of};

use kl1_model::Sign;

/// The signs, each before those that it begins with.
const SIGNS: [Sign; 21] = [
    Sign::Neck,
    Sign::Becomes,
    Sign::SameValue,
    Sign::OtherValue,
    Sign::NotOver,
    Sign::Differs,
    Sign::NotUnder,
    Sign::Colon,
    Sign::Equals,
    Sign::Under,
    Sign::Over,
    Sign::Plus,
    Sign::Star,
    Sign::Slash,
    Sign::At,
    Sign::Bar,
    Sign::Comma,
    Sign::Open,
    Sign::Close,
    Sign::OpenList,
    Sign::CloseList,
];

/// The bytes of a sign.
pub(crate) fn spelling_of(sign: Sign) -> &'static [u8]
    ensures { result.now ≡ spelling_of sign }
{
    match sign {
        Sign::Neck => b":-",
        Sign::Becomes => b":=",
        Sign::SameValue => b"=:=",
        Sign::OtherValue => b"=\\=",
        Sign::NotOver => b"=<",
        Sign::Differs => b"\\=",
        Sign::NotUnder => b">=",
        Sign::Colon => b":",
        Sign::Equals => b"=",
        Sign::Under => b"<",
        Sign::Over => b">",
        Sign::Plus => b"+",
        Sign::Star => b"*",
        Sign::Slash => b"/",
        Sign::At => b"@",
        Sign::Bar => b"|",
        Sign::Comma => b",",
        Sign::Open => b"(",
        Sign::Close => b")",
        Sign::OpenList => b"[",
        Sign::CloseList => b"]",
    }
}

/// The longest sign in front of a text.
pub(crate) fn sign_at(bytes: &[u8]) -> Option<Sign>
    ensures { result ≡ sign_at bytes.now }
{
    let mut rest = SIGNS.as_slice();
    while let [first, others @ ..] = rest {
        if bytes.starts_with(spelling_of(*first)) {
            return Some(*first);
        }
        rest = others;
    }
    None
}
