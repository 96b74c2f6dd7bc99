//! Lines with sums: what a host's files are, so that a turned bit, and a lost, doubled or exchanged line is found.
#![tactic(auto)]

ghost use Rattle.kl1_sums.specs.laws.SumLaws.{SumsComeOff, FrontsAreFronts, LinesStay, TextsGoOn, JournalsStay};

mod plain;
mod sum;
mod summed;

pub use plain::{is_spoilt, last_sum, plain_text};
pub use sum::Sum;
pub use summed::{Summed, with_sums};

/// Sums come off again, from any front of a file, and lines that are appended to a file with sums go on with them; a text that begins with
/// the first line of a journal is none with sums. It does nothing: its contract is this law.
pub fn sums_come_off()
    ensures off { SumsComeOff }
    ensures fronts { FrontsAreFronts }
    ensures lines { LinesStay }
    ensures more { TextsGoOn }
    ensures journals { JournalsStay }
{}
