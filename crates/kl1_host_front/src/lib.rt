//! The front of a server that stays: what its settings and its file of accounts say, who is let in, and what its log is told.
#![tactic(auto)]

mod address;
mod hashed_keys;
mod log_line;
mod open_files;
mod origin;
mod pace;
mod pauses;
mod pausing_door;
mod quantities;
mod settings;
mod settings_file;
mod status_lines;
mod sums;
mod sync;
mod trying;
mod wrong_keys;

pub use address::address_number;
pub use hashed_keys::{HashedKeys, sum_of};
pub use log_line::{Field, put_line};
pub use open_files::{FILES_EACH, FILES_KEPT, connections_within, open_files_in};
pub use origin::host_of;
pub use pace::{MOST_LEFT_OUT, Pace, TOLD_AGAIN_AFTER};
pub use pausing_door::{LoginTeller, PausingDoor};
pub use quantities::{MOST_BYTES, MOST_MILLISECONDS, duration_in, size_in};
pub use settings::{BadSetting, MOST_CONNECTIONS, MOST_SPARE, MOST_WORKERS, Settings};
pub use settings_file::{BadSettings, FIRST_SETTINGS, settings_in};
pub use status_lines::{Number, put_account_status, put_host};
pub use sums::{SUM_BYTES, bad_line, put_account, read_sums};
pub use sync::{MOST_SYNC_MILLISECONDS, Sync, sync_in};
pub use wrong_keys::{FORGOTTEN_AFTER, MOST_COUNTED, MOST_REMEMBERED, Pauses, Trier};
