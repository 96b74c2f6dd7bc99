// What the clock shows; times of one, two and four threads, and ratios as they are told.

use crate::report::Text;
use std::rt::Clock;
use std::time::Instant;

/// What the clock shows; nothing if it can't be read.
pub fn moment<R: Clock>(rt: &R) -> Option<Instant> {
    Instant::now(rt).ok()
}

/// The nanoseconds since a moment; 0 if the clock can't be read.
pub fn nanoseconds_since<R: Clock>(rt: &R, start: Option<Instant>) -> u128 {
    match start {
        None => 0,
        Some(start) => match start.elapsed(rt) {
            Ok(time) => time.as_nanos(),
            Err(_unread) => 0,
        },
    }
}

/// A number, or the greatest of 64 bits if it is more.
pub fn small(number: u128) -> u64 {
    number.min(0xffff_ffff_ffff_ffff) as u64
}

/// Nanoseconds that one, two and four threads take, each with all the work; and whether they came to what is right.
#[derive(Clone, Copy)]
pub struct Times {
    pub one: u128,
    pub two: u128,
    pub four: u128,
    pub is_right: bool,
}

impl Times {
    /// The less of each.
    pub fn least(self, other: Times) -> Times {
        Times {
            one: self.one.min(other.one),
            two: self.two.min(other.two),
            four: self.four.min(other.four),
            is_right: self.is_right & other.is_right,
        }
    }
}

/// Whether numbers are all this one.
pub fn are_all(numbers: &[u64], wanted: u64) -> bool {
    for number in numbers {
        if *number != wanted {
            return false;
        }
    }
    true
}

/// Puts a text, and a time as a ratio to another, in hundredths.
pub fn put_ratio(out: &mut Text, before: &[u8], time: u128, of: u128) {
    let hundredths = small(time.saturating_mul(100) / of.max(1));
    out.put(before);
    out.put_number(hundredths / 100);
    out.put(b".");
    out.put_number(hundredths % 100 / 10);
    out.put_number(hundredths % 10);
}

/// Puts whether something is so, between two texts.
pub fn put_whether(out: &mut Text, before: &[u8], is_so: bool, after: &[u8]) {
    out.put(before);
    out.put(if is_so { b"true" } else { b"false" });
    out.put(after);
}
