// Who is let in by the sum of a key.

ghost use Rattle.std.specs.Prelude.{◌≡◌, length};
ghost use Rattle.kl1_session.specs.Views.{entries_view};
ghost use Rattle.kl1_host_front.specs.Sums.{sum_of, opened_by_sum};

use kl1_session::{Door, Key, find};
use sha2::{Digest, Sha256};

/// The sum of a key, as the file of accounts has it: SHA-256 in hexadecimal digits, with small letters.
pub fn sum_of(key: &[u8]) -> [u8; 64]
    ensures { result ≡ sum_of key.now }
{
    let mut sum = [0u8; 64];
    let _ = hex::encode_to_slice(Sha256::digest(key), &mut sum);
    sum
}

/// Accounts as their file has them: a name lets in with the key whose sum stands beside it. Sums are compared whole.
#[derive(Clone, Copy)]
pub struct HashedKeys<'a> {
    /// The names with the sums.
    pub keys: &'a [Key],
}

impl Door for HashedKeys<'_> {
    ghost accounts = { λ k. length k.keys.now };

    ghost opens = { λ k. opened_by_sum (entries_view k.keys.now) };

    fn open(&mut self, name: &[u8], key: &[u8]) -> Option<usize> {
        find(self.keys, name, sum_of(key).as_slice())
    }
}
