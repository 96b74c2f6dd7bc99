// A row of bytes that takes no memory.

ghost use Rattle.std.specs.Prelude.{◌≡◌, ℕ, ◌+◌, ◌*◌, ◌<◌, ◌≤◌, List, [], ◌∷◌, ◌++◌, length, take};
ghost use Rattle.kl1_model.specs.Name.{doubled};
ghost use Rattle.kl1_text.specs.Words.{bytes_in};
ghost use Rattle.kl1_text.specs.declared.short_bytes.TheConstants.{MOST_SHORT_BYTES};

use kl1_model::limits::MOST_NAME_BYTES;
use std::marker::Model;

/// The most bytes in a row: those of the longest name in quotes, each byte of it twice.
pub const MOST_SHORT_BYTES: usize = 2 * MOST_NAME_BYTES + 2;

/// A few bytes, held in the value itself.
#[derive(Drop)]
pub struct ShortBytes {
    bytes: [u8; MOST_SHORT_BYTES],
    length: usize,
}

impl Model for ShortBytes {
    ghost use Rattle.std.specs.Prelude.{ℕ, ◌≤◌, List, take};
    ghost use Rattle.kl1_text.specs.declared.short_bytes.TheConstants.{MOST_SHORT_BYTES};

    ghost Value = { List ℕ };

    ghost view = { λ s. take s.length s.bytes };

    ghost invariant = { λ s. s.length ≤ MOST_SHORT_BYTES };
}

impl ShortBytes {
    /// No bytes.
    pub fn new() -> Self
        ensures { result ≡ [] }
    {
        ShortBytes {
            bytes: [0; MOST_SHORT_BYTES],
            length: 0,
        }
    }

    /// How many bytes there are.
    pub fn len(&self) -> usize
        ensures value { result ≡ length self.now }
        ensures short { result ≤ MOST_SHORT_BYTES }
    {
        let ShortBytes { length, .. } = self;
        *length
    }

    /// The bytes.
    pub fn as_slice(&self) -> &[u8]
        ensures { result.now ≡ self.now }
    {
        &self.bytes[..self.length]
    }

    /// Puts a byte after the others.
    pub fn push(&mut self, byte: u8)
        requires { length self.old < MOST_SHORT_BYTES }
        ensures { self.new ≡ self.old ++ byte ∷ [] }
    {
        self.bytes[self.length] = byte;
        self.length += 1;
    }

    /// Puts bytes of `number` after the others: `count` of them, or up to the first zero.
    pub(crate) fn put_number(&mut self, number: u64, count: usize)
        requires { length self.old + count ≤ MOST_SHORT_BYTES }
        ensures value { self.new ≡ self.old ++ bytes_in count number }
        ensures more { length self.new ≤ length self.old + count }
    {
        if count == 0 || number % 256 == 0 {
            return;
        }
        self.push((number % 256) as u8);
        self.put_number(number / 256, count - 1);
    }

    /// Puts bytes after the others, each quote twice.
    pub(crate) fn put_doubled(&mut self, bytes: &[u8])
        requires { length self.old + 2 * length bytes.now ≤ MOST_SHORT_BYTES }
        ensures value { self.new ≡ self.old ++ doubled bytes.now }
        ensures more { length self.new ≤ length self.old + 2 * length bytes.now }
    {
        match bytes {
            [] => (),
            [first, rest @ ..] => {
                if *first == b'\'' {
                    self.push(*first);
                }
                self.push(*first);
                self.put_doubled(rest);
            }
        }
    }
}
