// How bytes lie in words.

ghost use Rattle.std.specs.Prelude.{◌≡◌, ◌^◌, ◌<◌, ◌≤◌, drop, IsTrue};
ghost use Rattle.std.specs.List.{list_all};
ghost use Rattle.kl1_model.specs.Text.{is_name_byte, is_text};
ghost use Rattle.kl1_text.specs.Words.{name_words, number_of, words_of};

use kl1_model::limits::MOST_NAME_BYTES;

/// The words that hold a name: eight bytes each, so many that a zero byte is left after the longest name.
pub const WORDS: usize = MOST_NAME_BYTES / 8 + 1;

/// The least word of eight bytes of which the highest isn't zero: 256 ^ 7. A name ends in the first of its words that is less.
pub const FULL_WORD: u64 = 1 << 56;

/// Whether a byte may stand in a name.
fn is_name_byte(byte: u8) -> bool
    ensures { result ≡ is_name_byte byte }
{
    32 <= byte && byte <= 126
}

/// Whether bytes are a name.
pub(crate) fn is_text(bytes: &[u8]) -> bool
    ensures { result ≡ is_text bytes.now }
{
    bytes.len() <= MOST_NAME_BYTES && are_name_bytes(bytes)
}

/// Whether each byte may stand in a name.
fn are_name_bytes(bytes: &[u8]) -> bool
    ensures { result ≡ list_all is_name_byte bytes.now }
{
    bytes.iter().all(|byte| is_name_byte(*byte))
}

/// The words that hold the bytes of a name.
pub(crate) fn words_of(bytes: &[u8]) -> [u64; WORDS]
    requires { IsTrue (list_all is_name_byte bytes.now) }
    ensures { result ≡ words_of name_words bytes.now }
{
    let mut words = [0u64; WORDS];
    let mut rest = bytes;
    for word in 0..WORDS {
        if rest.is_empty() {
            return words;
        }
        words[word] = number_of(rest, 8);
        rest = behind(rest);
    }
    words
}

/// At most `count` bytes as a number, the first in the lowest place.
fn number_of(bytes: &[u8], count: usize) -> u64
    requires names { IsTrue (list_all is_name_byte bytes.now) }
    requires few { count ≤ 8 }
    ensures value { result ≡ number_of count bytes.now }
    ensures below { result < 256 ^ count }
{
    if count == 0 {
        return 0;
    }
    match bytes {
        [] => 0,
        [first, rest @ ..] => u64::from(*first) + 256 * number_of(rest, count - 1),
    }
}

/// The bytes after the first eight.
fn behind(bytes: &[u8]) -> &[u8]
    requires { IsTrue (list_all is_name_byte bytes.now) }
    ensures value { result.now ≡ drop 8 bytes.now }
    ensures names { IsTrue (list_all is_name_byte result.now) }
{
    if bytes.len() < 8 { &[] } else { &bytes[8..] }
}
