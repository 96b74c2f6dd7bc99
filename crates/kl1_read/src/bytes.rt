// What single bytes may be.

ghost use Rattle.std.specs.Prelude.{◌≡◌, ◌==◌};
ghost use Rattle.kl1_model.specs.Text.{is_name_byte};
ghost use Rattle.kl1_model.specs.Name.{is_small_letter, is_word_byte};
ghost use Rattle.kl1_model.specs.Token.{is_variable_start, is_digit, is_blank, is_source_byte, first_is};

/// Whether a byte may stand in a name.
pub(crate) fn is_name_byte(byte: u8) -> bool
    ensures { result ≡ is_name_byte byte }
{
    32 <= byte && byte <= 126
}

/// Whether a byte is a small letter.
pub(crate) fn is_small_letter(byte: u8) -> bool
    ensures { result ≡ is_small_letter byte }
{
    b'a' <= byte && byte <= b'z'
}

/// Whether a byte may stand after the first of a bare name.
pub(crate) fn is_word_byte(byte: u8) -> bool
    ensures { result ≡ is_word_byte byte }
{
    is_small_letter(byte)
        || (b'A' <= byte && byte <= b'Z')
        || (b'0' <= byte && byte <= b'9')
        || byte == b'_'
}

/// Whether a variable begins with this byte.
pub(crate) fn is_variable_start(byte: u8) -> bool
    ensures { result ≡ is_variable_start byte }
{
    (b'A' <= byte && byte <= b'Z') || byte == b'_'
}

/// Whether a byte is a digit.
pub(crate) fn is_digit(byte: u8) -> bool
    ensures { result ≡ is_digit byte }
{
    b'0' <= byte && byte <= b'9'
}

/// Whether a byte is a space, a tab, a line feed or a carriage return.
pub(crate) fn is_blank(byte: u8) -> bool
    ensures { result ≡ is_blank byte }
{
    byte == b' ' || byte == b'\t' || byte == b'\n' || byte == b'\r'
}

/// Whether a text may hold this byte.
pub(crate) fn is_source_byte(byte: u8) -> bool
    ensures { result ≡ is_source_byte byte }
{
    is_name_byte(byte) || is_blank(byte)
}

/// Whether a `(` stands in front.
pub(crate) fn is_open_next(bytes: &[u8]) -> bool
    ensures { result ≡ first_is (λ b. b == 40) bytes.now }
{
    match bytes {
        [] => false,
        [first, _rest @ ..] => *first == b'(',
    }
}

/// Whether a digit stands in front.
pub(crate) fn is_digit_next(bytes: &[u8]) -> bool
    ensures { result ≡ first_is is_digit bytes.now }
{
    match bytes {
        [] => false,
        [first, _rest @ ..] => is_digit(*first),
    }
}
