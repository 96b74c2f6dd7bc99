// The records of a script, one after another.

ghost use Rattle.std.specs.Prelude.{◌≡◌, ◌+◌, [], length, Some};
ghost use Rattle.kl1_model.specs.Record.{records_by, records_of};
ghost use Rattle.kl1_lines.specs.Records.{records_from, IsShorter};

use crate::lines::{is_blank_line, split_line, split_name};
use crate::numbers::source_bytes_in;

/// What is asked of an account.
#[derive(Clone, Copy)]
pub enum Request<'a> {
    /// To load this source.
    Load(&'a [u8]),
    /// To load a source after which other bytes stand, which is refused.
    SpoiledLoad,
    /// What this line says, which is no good load.
    Line(&'a [u8]),
}

/// A record of a script.
#[derive(Clone, Copy)]
pub struct Record<'a> {
    /// The name that it begins with.
    pub name: &'a [u8],
    /// What it asks for.
    pub request: Request<'a>,
    /// What is after it.
    pub rest: &'a [u8],
}

/// The next record of a script.
#[derive(Clone, Copy)]
pub enum NextRecord<'a> {
    /// There is none.
    End,
    /// There is none, as the script ends in the middle of a load.
    Truncated,
    /// This one.
    Found(Record<'a>),
}

/// The next record of what is left of a script.
pub fn next_record(text: &[u8]) -> NextRecord<'_>
    ensures step { records_from result ≡ records_of text.now }
    ensures less { IsShorter (length text.now) result }
{
    let mut rest = text;
    while !rest.is_empty() {
        let (line, behind) = split_line(rest);
        if !is_blank_line(line) {
            let (name, line) = split_name(line);
            return match source_bytes_in(line) {
                Some(count) => load_record(name, count, behind),
                None => NextRecord::Found(Record {
                    name,
                    request: Request::Line(line),
                    rest: behind,
                }),
            };
        }
        rest = behind;
    }
    NextRecord::End
}

/// The record of a load of `count` bytes.
fn load_record<'a>(name: &'a [u8], count: u64, rest: &'a [u8]) -> NextRecord<'a>
    ensures step { records_from result ≡ records_by records_of name.now [] rest.now (Some count) }
    ensures less { IsShorter (length rest.now + 1) result }
{
    let count = count as usize;
    if count > rest.len() {
        return NextRecord::Truncated;
    }
    let (line, behind) = split_line(&rest[count..]);
    let request = if line.is_empty() {
        Request::Load(&rest[..count])
    } else {
        Request::SpoiledLoad
    };
    NextRecord::Found(Record {
        name,
        request,
        rest: behind,
    })
}
