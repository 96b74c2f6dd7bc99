//! The work of a program that tries modules: sources are loaded, a goal is run, and what came of it is written.
#![tactic(auto)]

mod answers;
mod asked;
mod checked;
mod ending;
mod exceptions;
mod faults;
mod journal;
mod loads;
mod reports;
mod runs;
mod script;
mod shell;
mod source_file;
mod starts;
mod stop;
mod wanted;
mod watch;
mod works;

pub use answers::{Answers, answers_of};
pub use checked::{fault_in, put_checked};
pub use ending::Ending;
pub use faults::{put_fault, words_of};
pub use journal::put_journal;
pub use kl1_command::{Host, UnbookedHost};
pub use kl1_lines::{DeviceFailed, FailureCounter, Sink};
pub use kl1_model::limits::{MOST_ALLOWANCE, MOST_SOURCE_BYTES, MOST_STEPS};
pub use kl1_read::{ReadFault, read_goal};
pub use kl1_term::Term;
pub use kl1_user_events::{Extent, Refusal, ShoenNo};
pub use script::{put_script, start_length};
pub use shell::run;
pub use source_file::SourceFile;
pub use stop::Stop;
pub use wanted::Wanted;
pub use watch::Watch;
pub use works::{Work, do_work};
