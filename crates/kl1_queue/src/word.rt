// Bits of one word of a list.

ghost use Rattle.std.specs.Prelude.{◌≡◌, ◌*◌, ◌/◌, ◌<◌, ◌≤◌, ℕ, true, false, length, max, OnOk, OnErr};
ghost use Rattle.kl1_queue.specs.Bits.{bit_of, word_of, IsSetAt, IsClearedAt, IsLeast};

use std::alloc::AllocError;

/// Whether a bit is set.
#[inline]
pub(crate) fn has_bit(words: &Vec<u64>, place: usize) -> bool
    requires { place < 64 * length words.now.items }
    ensures yes { result ≡ true → bit_of words.now.items place ≡ 1 }
    ensures no { result ≡ false → bit_of words.now.items place ≡ 0 }
{
    (words[place / 64] >> (place % 64)) % 2 == 1
}

/// Sets a bit.
#[inline]
pub(crate) fn set_bit(words: &mut Vec<u64>, place: usize)
    requires { place < 64 * length words.old.items }
    ensures { IsSetAt words.old.items words.new.items place }
{
    words[place / 64] |= 1 << (place % 64);
}

/// Clears a bit, and gives what is left of its word.
#[inline]
pub(crate) fn clear_bit(words: &mut Vec<u64>, place: usize) -> u64
    requires { place < 64 * length words.old.items }
    ensures cleared { IsClearedAt words.old.items words.new.items place }
    ensures left { result ≡ word_of words.new.items (place / 64) }
{
    let left = words[place / 64] & !(1 << (place % 64));
    words[place / 64] = left;
    left
}

/// The least bit that is set, which is in the word `at`.
#[inline]
pub(crate) fn lowest(words: &Vec<u64>, at: usize) -> usize
    requires at { at < length words.now.items }
    requires some { 0 < word_of words.now.items at }
    requires least { (j : ℕ) → j < at → word_of words.now.items j ≡ 0 }
    requires size { length words.now.items ≤ 262144 }
    ensures { IsLeast words.now.items result }
{
    64 * at + words[at].trailing_zeros() as usize
}

/// Appends words that are 0 until there are at least `count`.
pub(crate) fn pad(words: &mut Vec<u64>, count: usize) -> Result<(), AllocError>
    ensures ok { OnOk result (count ≤ length words.new.items) }
    ensures most { length words.new.items ≤ max count (length words.old.items) }
    ensures more { length words.old.items ≤ length words.new.items }
    ensures same { (m : ℕ) → word_of words.new.items m ≡ word_of words.old.items m }
    ensures err { OnErr result (words.new.items ≡ words.old.items) }
{
    if count <= words.len() {
        return Ok(());
    }
    let from = words.len();
    words.reserve(count - from)?;
    for at in from..count {
        words.push_reserved(0);
    }
    Ok(())
}
