// Numbers that commands may have, and what keeps to limits.

ghost use Rattle.std.specs.Prelude.{◌≡◌, ◌+◌, ◌&&◌, nat_le};
ghost use Rattle.kl1_model.specs.Event.{is_number};

use kl1_model::limits::NUMBER_LIMIT;

/// Whether a command may have this number: it is below 2^63.
pub fn is_number(number: u64) -> bool
    ensures { result ≡ is_number number }
{
    number < NUMBER_LIMIT
}

/// Whether a command may have these two numbers.
pub fn are_numbers(one: u64, other: u64) -> bool
    ensures { result ≡ (is_number one && is_number other) }
{
    is_number(one) && is_number(other)
}

/// Whether `count` and `more` together are at most `most`.
pub fn is_within(count: u64, more: u64, most: u64) -> bool
    ensures { result ≡ nat_le (count + more) most }
{
    count <= most && more <= most - count
}
