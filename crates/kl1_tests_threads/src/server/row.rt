// The conversation.

use kl1_session::Key;
use std::alloc::{AllocError, Global};

/// What is sent.
pub const LINES: &[u8] =
    b"quiet\nlogin alice bad\nlogin alice k1\r\nlogin alice k1\nquiet\nlogout\nquiet\n";

/// What comes back.
pub const REPLIES: &[u8] = b"- 11 login\n- 11 login\n+ welcome alice\n- 11 login\n+ yes\n+ bye\n";

/// The account with its key.
pub fn alice(alloc: Global) -> Result<Key, AllocError> {
    Ok(Key {
        name: Vec::from_slice(alloc, b"alice")?,
        key: Vec::from_slice(alloc, b"k1")?,
    })
}
