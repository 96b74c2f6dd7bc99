//! What the requests of browsers say: their heads, who is let in to what, and the bytes of answers.
#![tactic(auto)]

mod answer;
mod ask;
mod body;
mod book;
mod door;
mod field;
mod head;
pub mod limits;
mod login_keys;
mod refusal;
mod session;
mod status;

pub use answer::{Answer, Content, Cookie, put_answer};
pub use ask::{Ask, Method};
pub use body::body_bytes;
pub use book::{BookChange, BookStep, SessionBook, SessionTest};
pub use door::{Allowed, Site, authorize, is_secure, mark_at};
pub use field::{Field, value_of};
pub use head::{Head, Reading, read_head};
pub use login_keys::LoginKeys;
pub use refusal::{Refusal, status_of, words_of};
pub use session::WebSession;
pub use status::Status;
