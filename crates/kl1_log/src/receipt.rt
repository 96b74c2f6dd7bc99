// What a client is told only once it is on disk.

ghost use Rattle.std.specs.Prelude.{◌≡◌, ◌≤◌, ◌↔◌, IsTrue, IfOk, IfErr};
ghost use Rattle.kl1_log.specs.Receipts.{account_of, changes_of, waits_for, reply_of, Covers};
ghost use Rattle.kl1_log.specs.Waits as waits;

use crate::waiting::Waiting;

/// How many changes of an account are on disk. Only the scribe makes one.
#[derive(Clone, Copy)]
pub struct Receipt {
    account: u32,
    changes: u64,
}

impl Receipt {
    /// A receipt of this number of changes.
    pub(crate) fn new(account: u32, changes: u64) -> Self
        ensures account { account_of result ≡ account }
        ensures changes { changes_of result ≡ changes }
    {
        Receipt { account, changes }
    }
}

/// A reply that isn't sent yet: it waits until what it tells is on disk.
#[derive(Drop)]
pub struct Unsent<T> {
    account: u32,
    changes: u64,
    reply: T,
}

impl<T> Unsent<T> {
    /// A reply that tells of what was noted so far.
    pub fn new(reply: T, waiting: &Waiting) -> Self
        ensures reply { reply_of result ≡ reply }
        ensures waits { waits_for result ≡ (waits.account_of waiting.now, waits.noted_of waiting.now) }
    {
        Unsent {
            account: waiting.account(),
            changes: waiting.noted(),
            reply,
        }
    }

    /// The same reply, which tells of what was noted since too. It is given back as it is if that isn't of its account, or is less.
    pub fn renewed(self, waiting: &Waiting) -> Result<Self, Self>
        ensures ok { IfOk result (λ u. (reply_of u ≡ reply_of self) × (waits_for u ≡ (waits.account_of waiting.now, waits.noted_of waiting.now)) × ((waits_for self).0 ≡ (waits_for u).0) × ((waits_for self).1 ≤ (waits_for u).1)) }
        ensures err { IfErr result (λ u. u ≡ self) }
    {
        if self.account != waiting.account() || self.changes > waiting.noted() {
            return Err(self);
        }
        Ok(Unsent::new(self.reply, waiting))
    }

    /// Whether what the reply tells is on disk by this receipt.
    pub fn is_covered(&self, receipt: Receipt) -> bool
        ensures { IsTrue result ↔ Covers receipt self.now }
    {
        self.account == receipt.account && self.changes <= receipt.changes
    }

    /// The reply, to be sent: what it tells is on disk.
    pub fn hand_out(self, receipt: Receipt) -> T
        requires { Covers receipt self }
        ensures { result ≡ reply_of self }
    {
        let _covered = receipt;
        self.reply
    }
}
