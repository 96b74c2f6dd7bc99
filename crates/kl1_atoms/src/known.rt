// A name that is known, with its number.

use kl1_text::{AtomNo, AtomText};

/// A name that isn't built in, and its number in the table, from 64.
#[derive(Clone, Copy)]
pub struct Known {
    pub text: AtomText,
    pub number: AtomNo,
}
