// What answers records one after another.

ghost use Rattle.std.specs.Prelude.{◌≡◌, ◌<◌, ℕ, length, IfOk, OnOk, OnErr};
ghost use Rattle.kl1_model.specs.declared.limits.TheConstants.{MOST_WAITING_BYTES};
ghost use Rattle.kl1_lines.specs.Replies.{Written, LeavesOne, Puts};

use kl1_text::ShortBytes;
use std::alloc::AllocError;

/// What came of a call for the next reply.
#[derive(Drop)]
pub enum NextReply {
    /// A record is done, and its reply was put after the bytes.
    Put,
    /// No record is left to be done, and these bytes end what is written.
    Last(ShortBytes),
}

/// What does records one after another, and replies to each.
pub trait Replies {
    // Whether the next record can be done.
    ghost can_put: { Self → Type 0 };

    // How many records are left.
    ghost left: { Self → ℕ };

    // What is written for the records that are left.
    ghost writes: { Self → Written → Type 0 };

    /// Does the next record, and puts its reply after the bytes. After an `Err` the bytes are as they were, and the record may be
    /// done in part.
    fn put_next(&mut self, out: &mut Vec<u8>) -> Result<NextReply, AllocError>
        requires can { can_put self.old }
        requires few { length out.old.items < MOST_WAITING_BYTES }
        ensures puts { IfOk result (λ next. Puts (writes self.old) (writes self.new) out.old.items out.new.items next) }
        ensures one { IfOk result (λ next. LeavesOne (left self.old) (left self.new) next) }
        ensures still { OnOk result (can_put self.new) }
        ensures err { OnErr result (out.new.items ≡ out.old.items) }
        ensures none { OnErr result (left self.new ≡ left self.old) }
        ensures some { OnErr result ((w : Written) → writes self.old w → 0 < length w.each) };
}
