// The lines that end a replay.

ghost use Rattle.std.specs.Prelude.{◌≡◌};
ghost use Rattle.kl1_model_server.specs.Replay.{written_end, written_fault, written_rest};

use kl1_lines::number_line;
use kl1_text::ShortBytes;

/// The line of a fault in the line of this number.
pub(crate) fn fault_line(line: u64) -> ShortBytes
    ensures { result ≡ written_fault line }
{
    number_line(b"fault ", line)
}

/// The last line of a replay whose entries are all done, of which there are this number.
fn end_line(entries: u64) -> ShortBytes
    ensures { result ≡ written_end entries }
{
    number_line(b"+ end ", entries)
}

/// The last line of a replay after this number of entries, with the next line's number and the bytes that are left.
pub(crate) fn rest_line(line: u64, entries: u64, rest: &[u8]) -> ShortBytes
    ensures { result ≡ written_rest line entries rest.now }
{
    match rest {
        [] => end_line(entries),
        [_first, _others @ ..] => fault_line(line),
    }
}
