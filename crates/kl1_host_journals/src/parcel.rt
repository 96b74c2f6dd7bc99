// What the scribe takes at once, with what it makes of the file.

ghost use Rattle.std.specs.Prelude.{◌≡◌};
ghost use Rattle.kl1_log.specs.Batches.{text_after};
ghost use Rattle.kl1_host_journals.specs.Places.{account_of, edition_of};

use crate::history::Naming;
use crate::place::Place;
use kl1_log::Batch;

/// A batch: a file that holds what was to be there at `from` is what is to be there at `to` once it has got it.
#[derive(Drop)]
pub struct Parcel<J: Naming> {
    pub(crate) batch: Batch,
    pub(crate) from: Place<J>,
    pub(crate) to: Place<J>,
    ghost account: { account_of from ≡ batch.account },
    ghost account_to: { account_of to ≡ batch.account },
    ghost taken: { (edition_of from).number ≡ batch.taken },
    ghost noted: { (edition_of to).number ≡ batch.noted },
    ghost text: { (edition_of to).text ≡ text_after (edition_of from).text batch.change },
}
