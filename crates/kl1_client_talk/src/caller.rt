// Who gives the commands.

use crate::fault::Fault;
use crate::turn_end::TurnEnd;

/// Who gives the commands of a talk.
pub trait Caller {
    /// Puts the next command, a line without its end, in the place of `line`, and tells whether there is one.
    fn next(&mut self, line: &mut Vec<u8>) -> Result<bool, Fault>;

    /// Puts the bytes of the file of this name in the place of `source`. `false`: the file can't be loaded, and the caller has told
    /// why.
    fn file(&mut self, name: &[u8], source: &mut Vec<u8>) -> Result<bool, Fault>;

    /// Is told these lines, if there are any: why the file that was loaded last is no module. The refusal is written before.
    fn explain(&mut self, lines: &[u8]);

    /// Keeps these bytes as the file of this name. `false`: it can't be written, and the caller has told why.
    fn save(&mut self, name: &[u8], bytes: &[u8]) -> Result<bool, Fault>;

    /// Lets some time pass before the next look at a shoen, after this number of looks, from 1. Tells whether the looks end here: they do
    /// when these seconds have passed since the first one, and never by time if none are given.
    fn pause(&mut self, looks: u64, seconds: Option<u64>) -> bool;

    /// Tells what the commands are that begin with this word, or all of them if there is no word.
    fn help(&mut self, topic: &[u8]);

    /// Is told the last line that came in a turn: after the turn, and how it ended; and in a wait after a look that did no step.
    fn turned(&mut self, end: TurnEnd, line: &[u8]);
}
