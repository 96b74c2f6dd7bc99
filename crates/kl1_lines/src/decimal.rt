// Numbers in decimal, and lines that end with one.

ghost use Rattle.std.specs.Prelude.{◌≡◌, ◌+◌, ◌≤◌, ◌++◌, ◌∷◌, [], length, decimal, OnOk, OnErr};
ghost use Rattle.kl1_text.specs.declared.short_bytes.TheConstants.{MOST_SHORT_BYTES};

use itoa::Buffer;
use kl1_text::ShortBytes;
use std::alloc::AllocError;

/// Puts a number in decimal after the bytes. After an `Err` they are as they were.
pub fn put_decimal(out: &mut Vec<u8>, number: u64) -> Result<(), AllocError>
    ensures ok { OnOk result (out.new.items ≡ out.old.items ++ decimal number) }
    ensures err { OnErr result (out.new.items ≡ out.old.items) }
{
    let mut buffer = Buffer::new();
    out.extend_from_slice(buffer.format(number).as_bytes())
}

/// Puts bytes after others.
fn put_short(out: &mut ShortBytes, bytes: &[u8])
    requires { length out.old + length bytes.now ≤ MOST_SHORT_BYTES }
    ensures { out.new ≡ out.old ++ bytes.now }
{
    let mut rest = bytes;
    while let [first, others @ ..] = rest {
        out.push(*first);
        rest = others;
    }
}

/// A line of words, with its end.
pub fn short_line(words: &[u8]) -> ShortBytes
    requires { length words.now ≤ 64 }
    ensures { result ≡ words.now ++ 10 ∷ [] }
{
    let mut line = ShortBytes::new();
    put_short(&mut line, words);
    put_short(&mut line, b"\n");
    line
}

/// A line of words and a number, with its end.
pub fn number_line(words: &[u8], number: u64) -> ShortBytes
    requires { length words.now ≤ 64 }
    ensures { result ≡ (words.now ++ decimal number) ++ 10 ∷ [] }
{
    let mut line = ShortBytes::new();
    put_short(&mut line, words);
    put_short(&mut line, Buffer::new().format(number).as_bytes());
    put_short(&mut line, b"\n");
    line
}
