//! What a client says to a server and shows of its replies, over any streams and for anyone who gives the commands.
#![tactic(auto)]

mod caller;
mod connection;
mod conversation;
mod fault;
mod line_reader;
mod listing;
mod reply;
mod reply_writer;
mod request;
mod saving;
mod summary;
mod turn_end;
mod user_command;
mod watching;

pub use caller::Caller;
pub use connection::Connection;
pub use conversation::talk;
pub use fault::Fault;
pub use kl1_lines::{DeviceFailed, FailureCounter, Sink, Source};
pub use kl1_model::limits::MOST_SOURCE_BYTES;
pub use line_reader::{LineReader, MOST_LINE_BYTES};
pub use reply::{count_in, has_ended, is_bad_source, is_refusal, refusal_in};
pub use reply_writer::ReplyWriter;
pub use request::{Page, Request};
pub use summary::{ALL_WELL, BAD_WORDS, REFUSED, STOOD_STILL, TROUBLE, TalkSummary, status_of};
pub use turn_end::TurnEnd;
pub use user_command::{UserCommand, command_in};
