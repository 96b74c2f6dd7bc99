// Requests as they come in.

ghost use Rattle.std.specs.Prelude.{◌≡◌, ◌≤◌, true, [], length, take, drop, IfOk, IfSome, OnOk, Ok};
ghost use Rattle.std.specs.Io.KnownBytes.{Keeps, prepend_known};
ghost use Rattle.kl1_host_web.specs.Serving.{ComesIn, HasBody};

use kl1_host_door::limits::MOST_HEAD_BYTES;
use kl1_host_door::{Head, Reading, Refusal, read_head};
use kl1_lines::Source;
use std::alloc::{AllocError, Global};
use std::mem;

/// The bytes of one read.
const PIECE: usize = 4_096;

/// What comes in.
#[derive(Drop)]
pub(crate) enum Incoming {
    /// The head of a request. It isn't kept any more.
    Head(Head),
    /// What is refused.
    Refused(Refusal),
    /// The connection has ended, or it was silent for too long.
    Ended,
}

/// What came in and isn't answered.
#[derive(Drop)]
pub(crate) struct Inbox {
    kept: Vec<u8>,
}

impl Inbox {
    /// Nothing came in.
    pub(crate) fn new(alloc: Global) -> Self
        ensures { result.kept.items ≡ [] }
    {
        Inbox {
            kept: Vec::new(alloc),
        }
    }

    /// Reads a piece; `false` if there is none.
    #[tactic(auto, using(crate::proofs::Coming::grown))]
    fn read_more<S: Source>(&mut self, source: &mut S) -> Result<bool, AllocError>
        ensures { result ≡ Ok true → Keeps (prepend_known self.old.kept.items (S.remaining source.old)) (prepend_known self.new.kept.items (S.remaining source.new)) }
    {
        let mut piece = [0u8; PIECE];
        match source.read(&mut piece) {
            Ok(count) => {
                self.kept.extend_from_slice(&piece[..count])?;
                Ok(count > 0)
            }
            Err(_) => Ok(false),
        }
    }

    /// Takes the first `count` bytes out.
    fn take(&mut self, alloc: Global, count: usize) -> Result<Vec<u8>, AllocError>
        requires { count ≤ length self.old.kept.items }
        ensures taken { IfOk result (λ taken. taken.items ≡ take count self.old.kept.items) }
        ensures rest { OnOk result (self.new.kept.items ≡ drop count self.old.kept.items) }
    {
        let rest = Vec::from_slice(alloc, &self.kept[count..])?;
        let mut taken = mem::replace(&mut self.kept, rest);
        taken.truncate(count);
        Ok(taken)
    }

    /// The next head, read to its end.
    pub(crate) fn head<S: Source>(
        &mut self,
        alloc: Global,
        source: &mut S,
    ) -> Result<Incoming, AllocError>
        ensures { IfOk result (ComesIn (prepend_known self.old.kept.items (S.remaining source.old)) (prepend_known self.new.kept.items (S.remaining source.new))) }
    {
        for _ in 0..u64::MAX {
            match read_head(alloc, self.kept.as_slice())? {
                Reading::Whole { head, len } => {
                    if len > MOST_HEAD_BYTES {
                        return Ok(Incoming::Refused(Refusal::LargeHead));
                    }
                    let _head = self.take(alloc, len)?;
                    return Ok(Incoming::Head(head));
                }
                Reading::Bad => return Ok(Incoming::Refused(Refusal::BadHead)),
                Reading::Partial => {
                    if self.kept.len() > MOST_HEAD_BYTES {
                        return Ok(Incoming::Refused(Refusal::LargeHead));
                    }
                    if !self.read_more(source)? {
                        return Ok(Incoming::Ended);
                    }
                }
            }
        }
        Ok(Incoming::Ended)
    }

    /// The next `count` bytes; `None` if the connection ends before.
    pub(crate) fn body<S: Source>(
        &mut self,
        alloc: Global,
        source: &mut S,
        count: usize,
    ) -> Result<Option<Vec<u8>>, AllocError>
        ensures { IfOk result (λ body. IfSome body (λ bytes. HasBody count bytes.items (prepend_known self.old.kept.items (S.remaining source.old)) (prepend_known self.new.kept.items (S.remaining source.new)))) }
    {
        for _ in 0..u64::MAX {
            if self.kept.len() >= count {
                return Ok(Some(self.take(alloc, count)?));
            }
            if !self.read_more(source)? {
                return Ok(None);
            }
        }
        Ok(None)
    }
}
