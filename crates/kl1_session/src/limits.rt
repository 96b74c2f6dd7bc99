// The numbers of a file of accounts.

/// The most bytes of a file of accounts.
pub const MOST_FILE_BYTES: usize = 4_096;

/// The most bytes of a key.
pub const MOST_KEY_BYTES: usize = 64;
