// The limits of what is read from a browser.

/// The most bytes of a request's head.
pub const MOST_HEAD_BYTES: usize = 16_384;

/// The most fields of a request's head.
pub const MOST_FIELDS: usize = 64;

/// The most bytes of a request's body.
pub const MOST_BODY_BYTES: u64 = 1_048_576;

/// The most bytes of the body of a request that isn't let in to an account: of a login.
pub const MOST_STRANGER_BYTES: u64 = 4_096;

/// The most sessions that are open at once.
pub const MOST_SESSIONS: usize = 128;

/// The bytes of a session's name and of its token, each: 24 bytes of randomness in base64.
pub const SECRET_BYTES: usize = 32;

/// The bytes of a mark, by which the key of an account is known.
pub const MARK_BYTES: usize = 64;

/// The shoens of a page.
pub const SHOENS_A_PAGE: usize = 200;

/// The most goals that are shown of those that wait.
pub const MOST_WAITING: usize = 50;
