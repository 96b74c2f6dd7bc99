// How accounts of a row are made.

use kl1_pool::Rules;

/// The rules that accounts keep to, and the most bytes that each may take; and how many are there from the beginning, if there are so many.
#[derive(Clone, Copy)]
pub struct Setup {
    pub rules: Rules,
    pub most_bytes: u64,
    pub named: usize,
}

/// Accounts by the third rules, which may take any number of bytes.
pub const BY_THREE: Setup = Setup {
    rules: Rules::Three,
    most_bytes: u64::MAX,
    named: 16,
};

/// Accounts by the fourth rules, which may take `most_bytes` bytes each.
pub fn by_four(most_bytes: u64) -> Setup {
    Setup {
        rules: Rules::Four,
        most_bytes,
        named: 16,
    }
}

/// The first account by the fourth rules; others are still to come.
pub const FIRST_BY_FOUR: Setup = Setup {
    rules: Rules::Four,
    most_bytes: u64::MAX,
    named: 1,
};
