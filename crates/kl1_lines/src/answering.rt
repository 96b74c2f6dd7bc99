// Records that are answered, and what is written for them.

ghost use Rattle.std.specs.Prelude.{◌≡◌, ◌++◌, ◌-◌, ◌≤◌, IsErrOf};
ghost use Rattle.std.specs.Io.KnownBytes.{Appends};
ghost use Rattle.kl1_lines.specs.Replies.{Ends, Finishes, Stops, Written, all_of, front_of};
ghost use Rattle.kl1_lines.specs.declared.script_fault.ScriptFault.TheVariants as faults;

use crate::output::{finish, pass_on, write_all};
use crate::replies::{NextReply, Replies};
use crate::script_fault::ScriptFault;
use crate::sink::Sink;
use std::alloc::Global;

/// Does all records, and writes what is written for them. At most 65,535 bytes and one reply wait. If memory is refused, the replies
/// to the records that are done are written, and no byte more.
pub fn answer_all<T: Replies, W: Sink>(
    alloc: Global,
    replies: &mut T,
    sink: &mut W,
) -> Result<(), ScriptFault>
    requires { T.can_put replies.old }
    ensures ends { (w : Written) → T.writes replies.old w → Ends (W.contents sink.old) (W.contents sink.new) (W.failures sink.old) (W.failures sink.new) (all_of w) w.each result }
    ensures memory { IsErrOf result faults.Memory → (w : Written) → T.writes replies.old w → Appends (W.contents sink.old) (W.contents sink.new) (front_of (T.left replies.old - T.left replies.new) w.each) }
    ensures left { T.left replies.new ≤ T.left replies.old }
{
    let mut out = Vec::new(alloc);
    'records: loop {
        match replies.put_next(&mut out) {
            Ok(NextReply::Put) => match pass_on(sink, &mut out) {
                Ok(()) => {}
                Err(_) => return Err(ScriptFault::Write),
            },
            Ok(NextReply::Last(last)) => return finish_with(sink, out.as_slice(), last.as_slice()),
            Err(_) => return Err(stop(sink, out.as_slice())),
        }
    }
}

/// Writes the bytes that wait, and then the last bytes.
pub fn finish_with<W: Sink>(sink: &mut W, waiting: &[u8], last: &[u8]) -> Result<(), ScriptFault>
    ensures { Finishes (W.contents sink.old) (W.contents sink.new) (W.failures sink.old) (W.failures sink.new) (waiting.now ++ last.now) result }
{
    match write_all(sink, waiting) {
        Ok(()) => match finish(sink, last) {
            Ok(()) => Ok(()),
            Err(_) => Err(ScriptFault::Write),
        },
        Err(_) => Err(ScriptFault::Write),
    }
}

/// Writes the last bytes if memory was refused, and answers that, or that the write failed.
fn stop<W: Sink>(sink: &mut W, last: &[u8]) -> ScriptFault
    ensures { Stops (W.contents sink.old) (W.contents sink.new) (W.failures sink.old) (W.failures sink.new) last.now result }
{
    match finish(sink, last) {
        Ok(()) => ScriptFault::Memory,
        Err(_) => ScriptFault::Write,
    }
}
