// Whose key is right.

ghost use Rattle.std.specs.Prelude.{◌≡◌, ◌<◌, bytes_eq, length, IfSome};
ghost use Rattle.kl1_session.specs.Files.{found};
ghost use Rattle.kl1_session.specs.Views.{entries_view};

use crate::key::Key;

/// Whether two keys are the same. If they have as many bytes as one another, each byte is looked at.
pub fn is_same_key(given: &[u8], key: &[u8]) -> bool
    ensures { result ≡ bytes_eq given.now key.now }
{
    if given.len() != key.len() {
        return false;
    }
    let mut same = true;
    for i in 0..given.len() {
        same = same & (given[i] == key[i]);
    }
    same
}

/// The number of the account of this name, from 0; `None` if there is none, or if this isn't its key.
pub fn find(keys: &[Key], name: &[u8], key: &[u8]) -> Option<usize>
    ensures value { result ≡ found (entries_view keys.now) name.now key.now }
    ensures within { IfSome result (λ n. n < length keys.now) }
{
    let mut number: usize = 0;
    let mut rest = keys;
    while let [first, others @ ..] = rest {
        if first.name.as_slice() == name {
            return if is_same_key(first.key.as_slice(), key) {
                Some(number)
            } else {
                None
            };
        }
        number += 1;
        rest = others;
    }
    None
}
