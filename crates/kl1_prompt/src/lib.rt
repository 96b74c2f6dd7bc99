//! The lines of a prompt: what each asks for, what it does to an account, and what is told of it.
#![tactic(auto)]

mod asked;
mod deeds;
mod help;
mod line;
mod news;
mod parsed;
mod replies;
mod tables;
mod traced;

pub use deeds::{Plan, do_line, load_all, reload};
pub use help::{put_help, put_unknown};
pub use line::{Line, Table};
pub use news::{News, Stand, put_news};
pub use parsed::parse_line;
pub use replies::put_answer;
pub use tables::{put_table, put_waits};
pub use traced::trace_steps;
