// The sum of a line and of all before it.

ghost use Rattle.std.specs.Prelude.{◌≡◌, ◌++◌, [], take};
ghost use Rattle.sha2.specs.Sha256.{sha256};
ghost use Rattle.hex.specs.Hex.{encode_lower};
ghost use Rattle.kl1_sums.specs.Sums.{sum_of, digits_before};
ghost use Rattle.kl1_sums.specs.SumValues.{digits_of};

use sha2::{Digest, Sha256};

/// How many digits a sum has.
const DIGITS: usize = 16;

/// The sum of a line and of all before it: 16 hexadecimal digits with small letters; or none, that of no line.
#[derive(Clone, Copy)]
pub struct Sum {
    digits: Option<[u8; DIGITS]>,
}

impl Sum {
    /// The sum before the first line.
    pub fn none() -> Self
        ensures { digits_of result ≡ [] }
    {
        Sum { digits: None }
    }

    /// Its digits.
    pub fn as_slice(&self) -> &[u8]
        ensures { result.now ≡ digits_of self.now }
    {
        match &self.digits {
            None => &[],
            Some(digits) => digits.as_slice(),
        }
    }

    /// The digits before a line of a file; none if it has no 16 bytes.
    pub(crate) fn before(line: &[u8]) -> Self
        ensures { digits_of result ≡ digits_before line.now }
    {
        if line.len() < DIGITS {
            return Sum::none();
        }
        let mut digits = [0u8; DIGITS];
        digits.copy_from_slice(&line[..DIGITS]);
        Sum {
            digits: Some(digits),
        }
    }

    /// The sum of these bytes after all that this one is the sum of.
    #[tactic(auto, using(crate::proofs::Digits::sum_is))]
    pub fn then(&self, bytes: &[u8]) -> Self
        ensures { digits_of result ≡ sum_of (digits_of self.now) bytes.now }
    {
        let digest = digest_of(self.as_slice(), bytes);
        Sum {
            digits: Some(first_digits(&digest)),
        }
    }
}

/// The digest of two pieces, one after the other.
fn digest_of(first: &[u8], second: &[u8]) -> [u8; 32]
    ensures { result ≡ sha256 (first.now ++ second.now) }
{
    let mut hasher = Sha256::new();
    hasher.update(first);
    hasher.update(second);
    hasher.finalize()
}

/// The first digits of a digest.
fn first_digits(digest: &[u8; 32]) -> [u8; DIGITS]
    ensures { result ≡ encode_lower (take 8 digest.now) }
{
    let mut digits = [0u8; DIGITS];
    let _ = hex::encode_to_slice(&digest[..DIGITS / 2], &mut digits);
    digits
}
