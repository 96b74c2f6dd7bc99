// The records of a script, which are done one after another.

ghost use Rattle.kl1_script.specs.Scripts.{WritesRecords};

use crate::answers::put_record;
use kl1_atoms::AtomSource;
use kl1_codes::CodeSource;
use kl1_lines::{NextRecord, NextReply, Replies, next_record, short_line};
use kl1_text::ShortBytes;
use kl1_world::{AccountName, World};
use std::alloc::{AllocError, Global};

/// Accounts, and the records of a script that are left to be done to them.
#[derive(Drop)]
pub(crate) struct ScriptReplies<'a, A: AtomSource + Drop, C: CodeSource + Drop> {
    pub(crate) alloc: Global,
    pub(crate) accounts: &'a [AccountName],
    pub(crate) world: World<A, C>,
    pub(crate) rest: &'a [u8],
}

impl<'a, A: AtomSource + Drop, C: CodeSource + Drop> Replies for ScriptReplies<'a, A, C> {
    ghost use Rattle.std.specs.Prelude.{◌≡◌, IsTrue, length};
    ghost use Rattle.kl1_model.specs.Record.{records_of};
    ghost use Rattle.kl1_model_server.specs.Script.{are_distinct};

    ghost can_put = { λ s. (length s.world.0 ≡ length s.accounts.now) × IsTrue (are_distinct s.accounts.now) };

    ghost left = { λ s. length (records_of s.rest.now).list };

    ghost writes = { λ s w. WritesRecords s.accounts.now s.world.0 s.rest.now w };

    fn put_next(&mut self, out: &mut Vec<u8>) -> Result<NextReply, AllocError> {
        match next_record(self.rest) {
            NextRecord::Found(record) => {
                put_record(self.alloc, self.accounts, &mut self.world, record, out)?;
                self.rest = record.rest;
                Ok(NextReply::Put)
            }
            NextRecord::Truncated => Ok(NextReply::Last(short_line(b"! truncated"))),
            NextRecord::End => Ok(NextReply::Last(ShortBytes::new())),
        }
    }
}
