// What one account knows of a plain table.

ghost use Rattle.std.specs.Prelude.{◌≡◌, ◌<◌, ◌≤◌, [], ◌∷◌, ◌++◌, IfOk, vec_len, vec_capacity};
ghost use Rattle.kl1_model.specs.declared.limits.TheConstants.{MOST_NAMES};

use crate::known::Known;
use kl1_model::limits::MOST_NAMES;
use std::alloc::{AllocError, Global};

/// What one account knows of a plain table: how many places of its own row it has used, and the names that it looked up.
#[derive(Drop)]
pub struct PlainSeat {
    pub(crate) account: usize,
    pub(crate) used: usize,
    pub(crate) known: Vec<Known>,
    pub ghost room: { MOST_NAMES ≤ vec_capacity known },
}

impl PlainSeat {
    /// The seat of an account that knows the built-in names alone.
    pub(crate) fn new(alloc: Global, account: usize) -> Result<PlainSeat, AllocError>
        ensures account { IfOk result (λ seat. seat.account ≡ account) }
        ensures used { IfOk result (λ seat. seat.used ≡ 0) }
        ensures known { IfOk result (λ seat. seat.known.items ≡ []) }
    {
        let known = Vec::with_capacity(alloc, MOST_NAMES)?;
        Ok(PlainSeat {
            account,
            used: 0,
            known,
        })
    }

    /// Puts a pair after what is known.
    pub(crate) fn learn(&mut self, one: Known)
        requires { vec_len self.old.known < MOST_NAMES }
        ensures known { self.new.known.items ≡ self.old.known.items ++ one ∷ [] }
        ensures account { self.new.account ≡ self.old.account }
        ensures used { self.new.used ≡ self.old.used }
    {
        self.known.push_reserved(one);
    }
}
