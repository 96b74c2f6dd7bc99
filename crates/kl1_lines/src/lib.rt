//! The bytes of scripts: records, lines, words and numbers, and the streams that give and take them.
#![tactic(auto)]

mod answering;
mod decimal;
mod failure_counter;
mod input;
mod lines;
mod numbers;
mod output;
mod record;
mod replies;
mod script_fault;
mod sink;
mod source;
mod words;

pub use answering::{answer_all, finish_with};
pub use decimal::{number_line, put_decimal, short_line};
pub use failure_counter::{DeviceFailed, FailureCounter};
pub use input::read_all;
pub use lines::{is_blank_line, split_feed, split_line, split_name, without_return};
pub use numbers::{number_in, only_number, source_bytes_in, up_to};
pub use output::{finish, pass_on, write_all};
pub use record::{NextRecord, Record, Request, next_record};
pub use replies::{NextReply, Replies};
pub use script_fault::ScriptFault;
pub use sink::Sink;
pub use source::Source;
pub use words::{is_same, split_word};
