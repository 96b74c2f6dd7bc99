// Sessions.

ghost use Rattle.std.specs.Prelude.{◌≡◌, ◌++◌, ◌+◌, ◌≤◌, false, [], length, take, map, IfOk, OnOk, OnErr};
ghost use Rattle.kl1_model.specs.declared.limits.TheConstants.{MOST_COMMAND_BYTES, MOST_SOURCE_BYTES};
ghost use Rattle.kl1_model_server.specs.Cut.{has_feed};
ghost use Rattle.kl1_model_server.specs.code.Streams.{pending_in};
ghost use Rattle.kl1_model_server.specs.Inputs.{inputs, rest};
ghost use Rattle.kl1_session.specs.Going.{going, IsFew, IsKept, passed_by, most_kept, ending};
ghost use Rattle.kl1_session.specs.Asking.{input_view, Begins, Collects};

use crate::ended::{Ended, end_in, most_kept, read_whole};
use crate::input::{Input, input_in};
use crate::next::{Next, next_request};
use crate::texts::keep;
use kl1_model::Rules;
use std::alloc::{AllocError, Global};
use std::marker::Model;

/// What is kept of the bytes that came in: an unfinished line, or an unfinished load.
#[derive(Drop)]
pub struct Session {
    /// If the line of a load came, how many bytes its source has.
    source: Option<u64>,
    /// The bytes of the unfinished line, or those after the line of the load.
    kept: Vec<u8>,
    /// Where memory comes from.
    alloc: Global,
}

impl Model for Session {
    ghost use Rattle.std.specs.Prelude.{ℕ, List};

    ghost Value = { List ℕ };

    ghost use Rattle.kl1_session.specs.Kept.{rest_in, IsRest};

    ghost view = { rest_in };

    ghost invariant = { IsRest };
}

impl Session {
    /// A session in which no byte came in.
    pub fn new(alloc: Global) -> Self
        ensures { result ≡ [] }
    {
        Session {
            source: None,
            kept: Vec::new(alloc),
            alloc,
        }
    }

    /// Takes the next piece of the bytes that come in, and answers what they and those that were kept ask for, by the rules of the
    /// accounts. On an error the piece isn't taken.
    pub fn feed(&mut self, rules: Rules, piece: &[u8]) -> Result<Vec<Input>, AllocError>
        ensures inputs { IfOk result (λ asked. map input_view asked.items ≡ inputs rules (self.old ++ piece.now)) }
        ensures rest { OnOk result (self.new ≡ rest (self.old ++ piece.now)) }
        ensures err { OnErr result (self.new ≡ self.old) }
    {
        let Some((front, behind)) = end_in(self.source, self.kept.as_slice(), piece) else {
            keep(&mut self.kept, most_kept(self.source), piece)?;
            return Ok(Vec::new(self.alloc));
        };
        let mut asked = Vec::new(self.alloc);
        let whole = joined(self.alloc, self.source, self.kept.as_slice(), front)?;
        let begun = begin(self.alloc, rules, self.source, whole.as_slice(), &mut asked)?;
        let (source, rest) = collect(self.alloc, rules, begun, behind, &mut asked)?;
        let kept = Vec::from_slice(self.alloc, rest)?;
        self.source = source;
        self.kept = kept;
        Ok(asked)
    }

    /// How many bytes are kept of an unfinished line, or of the source of an unfinished load; its line and what follows its
    /// source don't count.
    pub fn pending(&self) -> u64
        ensures value { result ≡ pending_in self.now }
        ensures most { result ≤ MOST_SOURCE_BYTES }
        ensures line { has_feed self.now ≡ false → result ≤ MOST_COMMAND_BYTES + 2 }
    {
        let kept = self.kept.len() as u64;
        match self.source {
            None => kept,
            Some(count) => count.min(kept),
        }
    }
}

/// What is kept, and the bytes of a piece that end it.
fn joined(
    alloc: Global,
    source: Option<u64>,
    kept: &[u8],
    front: &[u8],
) -> Result<Vec<u8>, AllocError>
    requires { IsKept source kept.now }
    ensures { IfOk result (λ whole. whole.items ≡ take (most_kept source) (kept.now ++ front.now)) }
{
    let mut whole = Vec::from_slice(alloc, kept)?;
    keep(&mut whole, most_kept(source), front)?;
    Ok(whole)
}

/// Puts what `whole`, a line or the end of a load, asks for after `asked`. If it is the line of a load, answers how many bytes the
/// source has instead.
fn begin(
    alloc: Global,
    rules: Rules,
    source: Option<u64>,
    whole: &[u8],
    asked: &mut Vec<Input>,
) -> Result<Option<u64>, AllocError>
    requires { passed_by source ≤ length whole.now }
    ensures { IfOk result (λ next. Begins rules (ending source whole.now) asked.old.items asked.new.items next) }
{
    match read_whole(source, whole) {
        Ended::Asks(request) => {
            asked.push(input_in(alloc, rules, request)?)?;
            Ok(None)
        }
        Ended::Loads(count) => Ok(Some(count)),
    }
}

/// Puts what `bytes` ask for after `asked`, and answers what is kept of them: the bytes, and before them how many the source has, if
/// they stand after the line of a load.
fn collect<'a>(
    alloc: Global,
    rules: Rules,
    source: Option<u64>,
    bytes: &'a [u8],
    asked: &mut Vec<Input>,
) -> Result<(Option<u64>, &'a [u8]), AllocError>
    requires { IsFew source }
    ensures { IfOk result (λ r. Collects rules (going source bytes.now) asked.old.items asked.new.items r.0 r.1.now) }
{
    let mut source = source;
    let mut rest = bytes;
    'requests: loop {
        match next_request(source, rest) {
            Next::Found(request, behind) => {
                asked.push(input_in(alloc, rules, request)?)?;
                source = None;
                rest = behind;
            }
            Next::Waits(source, kept) => return Ok((source, kept)),
        }
    }
}
