// The lines of replies.

ghost use Rattle.std.specs.Prelude.{◌≡◌, ◌++◌, ◌∷◌, [], codes, decimal, length, map, take, option_map, OnOk, OnErr};
ghost use Rattle.kl1_model_server.specs.Command.{reply_lines, written_lines, condition_word};
ghost use Rattle.kl1_model.specs.Event.{refused, status_is, listed};
ghost use Rattle.kl1_model_server.specs.Script.{written_reply};
ghost use Rattle.kl1_user_events.specs.Views.{refusal_of, reply_of};
ghost use Rattle.kl1_command.specs.Replies.{front_of, written_after};

use itoa::Buffer;
use kl1_model::Condition;
use kl1_user_events::{Listed, Refusal, Reply};
use std::alloc::AllocError;

/// Puts the lines of a reply after the bytes.
pub fn put_reply(out: &mut Vec<u8>, reply: &Reply) -> Result<(), AllocError>
    ensures ok { OnOk result (out.new.items ≡ out.old.items ++ written_lines (reply_lines (reply_of reply.now))) }
    ensures err { OnErr result (out.new.items ≡ out.old.items) }
{
    put_whole(out, None, reply)
}

/// Puts the lines of a reply after the bytes, each after a word and a space.
pub fn put_lines(out: &mut Vec<u8>, prefix: &[u8], reply: &Reply) -> Result<(), AllocError>
    ensures ok { OnOk result (out.new.items ≡ out.old.items ++ written_reply prefix.now (reply_lines (reply_of reply.now))) }
    ensures err { OnErr result (out.new.items ≡ out.old.items) }
{
    put_whole(out, Some(prefix), reply)
}

/// Puts all lines of a reply after the bytes, or none.
fn put_whole(out: &mut Vec<u8>, prefix: Option<&[u8]>, reply: &Reply) -> Result<(), AllocError>
    ensures ok { OnOk result (out.new.items ≡ out.old.items ++ written_after (option_map (λ word. word.now) prefix.entry) (reply_lines (reply_of reply.now))) }
    ensures err { OnErr result (out.new.items ≡ out.old.items) }
{
    let before = out.len();
    match put_each(out, prefix, reply) {
        Ok(()) => Ok(()),
        Err(error) => {
            out.truncate(before);
            Err(error)
        }
    }
}

/// Puts the lines of a reply after the bytes. After an `Err` some of them may be there.
fn put_each(out: &mut Vec<u8>, prefix: Option<&[u8]>, reply: &Reply) -> Result<(), AllocError>
    ensures ok { OnOk result (out.new.items ≡ out.old.items ++ written_after (option_map (λ word. word.now) prefix.entry) (reply_lines (reply_of reply.now))) }
    ensures kept { take (length out.old.items) out.new.items ≡ out.old.items }
{
    match reply {
        Reply::Loaded(name) => {
            put_line(out, prefix, b"+ loaded ", name.printed_as_atom().as_slice())
        }
        Reply::Opened(shoen) => put_number_line(out, prefix, b"+ shoen ", shoen.0),
        Reply::Sent => put_line(out, prefix, b"+ sent", b""),
        Reply::Reduced => put_line(out, prefix, b"+ reduced", b""),
        Reply::Ran(steps) => put_number_line(out, prefix, b"+ ", *steps),
        Reply::Shown(text) => put_line(out, prefix, b"+ ", text.as_slice()),
        Reply::Status {
            condition,
            charged,
            allowance,
            alive,
        } => put_status(out, prefix, *condition, *charged, *allowance, *alive),
        Reply::Listed(texts) => put_listed(out, prefix, texts),
        Reply::Quiet(true) => put_line(out, prefix, b"+ yes", b""),
        Reply::Quiet(false) => put_line(out, prefix, b"+ no", b""),
        Reply::Welcome(name) => put_line(out, prefix, b"+ welcome ", name.unpacked().as_slice()),
        Reply::Bye => put_line(out, prefix, b"+ bye", b""),
        Reply::Reset => put_line(out, prefix, b"+ reset", b""),
        Reply::Forgotten => put_line(out, prefix, b"+ forgotten", b""),
        Reply::Refused(refusal) => put_refusal(out, prefix, *refusal),
    }
}

/// Puts the line of a refusal after the bytes. After an `Err` some of it may be there.
fn put_refusal(out: &mut Vec<u8>, prefix: Option<&[u8]>, refusal: Refusal) -> Result<(), AllocError>
    ensures ok { OnOk result (out.new.items ≡ out.old.items ++ written_after (option_map (λ word. word.now) prefix.entry) (reply_lines (refused (refusal_of refusal)))) }
    ensures kept { take (length out.old.items) out.new.items ≡ out.old.items }
{
    match refusal {
        Refusal::Syntax => put_line(out, prefix, b"- ", b"1 syntax"),
        Refusal::Source { line } => put_number_line(out, prefix, b"- 2 source ", line),
        Refusal::Exists => put_line(out, prefix, b"- ", b"3 exists"),
        Refusal::NoShoen => put_line(out, prefix, b"- ", b"4 noshoen"),
        Refusal::Ended => put_line(out, prefix, b"- ", b"5 ended"),
        Refusal::Step => put_line(out, prefix, b"- ", b"6 step"),
        Refusal::Names => put_line(out, prefix, b"- ", b"7 names"),
        Refusal::Limit => put_line(out, prefix, b"- ", b"8 limit"),
        Refusal::Journal => put_line(out, prefix, b"- ", b"9 journal"),
        Refusal::Sessions => put_line(out, prefix, b"- ", b"12 sessions"),
        Refusal::Answer => put_line(out, prefix, b"- ", b"13 answer"),
    }
}

/// The word for the state of a shoen.
fn word_of(condition: Condition) -> &'static [u8]
    ensures { result.now ≡ condition_word condition }
{
    match condition {
        Condition::Terminated => b"terminated",
        Condition::Aborted => b"aborted",
        Condition::Stopped => b"stopped",
        Condition::Exhausted => b"exhausted",
        Condition::Running => b"running",
    }
}

#[tactic(auto, using(crate::proofs::Lines::status_line))]
/// Puts the line of a shoen's state after the bytes: the word for it, what the shoen was charged, its allowance, and how
/// many goals are alive in it. After an `Err` some of it may be there.
fn put_status(
    out: &mut Vec<u8>,
    prefix: Option<&[u8]>,
    condition: Condition,
    charged: u64,
    allowance: u64,
    alive: u64,
) -> Result<(), AllocError>
    ensures ok { OnOk result (out.new.items ≡ out.old.items ++ written_after (option_map (λ word. word.now) prefix.entry) (reply_lines (status_is condition charged allowance alive))) }
    ensures kept { take (length out.old.items) out.new.items ≡ out.old.items }
{
    put_condition(out, prefix, condition)?;
    put_counts(out, charged, allowance, alive)?;
    out.extend_from_slice(b"\n")
}

/// Puts what stands before a line, and the word for the state of a shoen, after the bytes. After an `Err` some of it may be
/// there.
fn put_condition(
    out: &mut Vec<u8>,
    prefix: Option<&[u8]>,
    condition: Condition,
) -> Result<(), AllocError>
    ensures ok { OnOk result (out.new.items ≡ out.old.items ++ front_of (option_map (λ word. word.now) prefix.entry) ++ (codes "+ " ++ condition_word condition)) }
    ensures kept { take (length out.old.items) out.new.items ≡ out.old.items }
{
    put_front(out, prefix)?;
    out.extend_from_slice(b"+ ")?;
    out.extend_from_slice(word_of(condition))
}

/// Puts three numbers after the bytes, each after a space. After an `Err` some of them may be there.
fn put_counts(out: &mut Vec<u8>, charged: u64, allowance: u64, alive: u64) -> Result<(), AllocError>
    ensures ok { OnOk result (out.new.items ≡ out.old.items ++ codes " " ++ decimal charged ++ codes " " ++ decimal allowance ++ codes " " ++ decimal alive) }
    ensures kept { take (length out.old.items) out.new.items ≡ out.old.items }
{
    put_count(out, charged)?;
    put_count(out, allowance)?;
    put_count(out, alive)
}

/// Puts a space and a number after the bytes. After an `Err` the space may be there.
fn put_count(out: &mut Vec<u8>, number: u64) -> Result<(), AllocError>
    ensures ok { OnOk result (out.new.items ≡ out.old.items ++ codes " " ++ decimal number) }
    ensures kept { take (length out.old.items) out.new.items ≡ out.old.items }
{
    out.extend_from_slice(b" ")?;
    let mut buffer = Buffer::new();
    out.extend_from_slice(buffer.format(number).as_bytes())
}

/// Puts the line that tells how many texts there are after the bytes, and then a line for each. After an `Err` some of
/// them may be there.
fn put_listed(out: &mut Vec<u8>, prefix: Option<&[u8]>, texts: &Listed) -> Result<(), AllocError>
    ensures ok { OnOk result (out.new.items ≡ out.old.items ++ written_after (option_map (λ word. word.now) prefix.entry) (reply_lines (listed texts.now))) }
    ensures kept { take (length out.old.items) out.new.items ≡ out.old.items }
{
    put_number_line(out, prefix, b"+ ", texts.len() as u64)?;
    put_texts(out, prefix, texts.texts())
}

#[tactic(auto, using(crate::proofs::Lines::written_more))]
/// Puts a line for each text after the bytes. After an `Err` some of them may be there.
fn put_texts(out: &mut Vec<u8>, prefix: Option<&[u8]>, texts: &[Vec<u8>]) -> Result<(), AllocError>
    ensures ok { OnOk result (out.new.items ≡ out.old.items ++ written_after (option_map (λ word. word.now) prefix.entry) (map (λ text. text.items) texts.now)) }
    ensures kept { take (length out.old.items) out.new.items ≡ out.old.items }
{
    let mut rest = texts;
    while let [first, others @ ..] = rest {
        put_line(out, prefix, b"", first.as_slice())?;
        rest = others;
    }
    Ok(())
}

/// Puts a line that ends with a number after the bytes. After an `Err` some of it may be there.
fn put_number_line(
    out: &mut Vec<u8>,
    prefix: Option<&[u8]>,
    start: &[u8],
    number: u64,
) -> Result<(), AllocError>
    ensures ok { OnOk result (out.new.items ≡ out.old.items ++ written_after (option_map (λ word. word.now) prefix.entry) ((start.now ++ decimal number) ∷ [])) }
    ensures kept { take (length out.old.items) out.new.items ≡ out.old.items }
{
    let mut buffer = Buffer::new();
    put_line(out, prefix, start, buffer.format(number).as_bytes())
}

/// Puts a line of two parts after the bytes. After an `Err` some of it may be there.
fn put_line(
    out: &mut Vec<u8>,
    prefix: Option<&[u8]>,
    start: &[u8],
    text: &[u8],
) -> Result<(), AllocError>
    ensures ok { OnOk result (out.new.items ≡ out.old.items ++ written_after (option_map (λ word. word.now) prefix.entry) ((start.now ++ text.now) ∷ [])) }
    ensures kept { take (length out.old.items) out.new.items ≡ out.old.items }
{
    put_front(out, prefix)?;
    out.extend_from_slice(start)?;
    out.extend_from_slice(text)?;
    out.extend_from_slice(b"\n")
}

/// Puts what stands before a line after the bytes. After an `Err` some of it may be there.
fn put_front(out: &mut Vec<u8>, prefix: Option<&[u8]>) -> Result<(), AllocError>
    ensures ok { OnOk result (out.new.items ≡ out.old.items ++ front_of (option_map (λ word. word.now) prefix.entry)) }
    ensures kept { take (length out.old.items) out.new.items ≡ out.old.items }
{
    match prefix {
        None => Ok(()),
        Some(word) => {
            out.extend_from_slice(word)?;
            out.extend_from_slice(b" ")
        }
    }
}
