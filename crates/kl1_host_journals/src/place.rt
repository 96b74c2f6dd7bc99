// All that was noted for the file of an account up to a moment.

ghost use Rattle.std.specs.Prelude.{◌≡◌, ◌≤◌, length};
ghost use Rattle.kl1_host_journals.specs.Editions.{last_of, StandsIn, IsUpToDate};

use crate::edition::Edition;
use crate::history::{Law, Naming};
use logbook::Seen;
use std::marker::PhantomData;

/// All that was noted for the file of an account up to a moment, which is something. But for the account's number it exists in proofs alone.
#[derive(Drop)]
pub struct Place<J: Naming> {
    pub(crate) account: u32,
    pub(crate) seen: Seen<Edition, u64, Law>,
    pub(crate) of: PhantomData<J>,
    ghost book_is: { seen.book ≡ (J.books account).noted },
    ghost some: { 1 ≤ length seen.log },
}

impl<J: Naming> Place<J> {
    /// The same once more.
    pub fn again(&self) -> Self
        ensures account { result.account ≡ self.now.account }
        ensures seen { result.seen ≡ self.now.seen }
    {
        Place {
            account: self.account,
            seen: self.seen.again(),
            of: PhantomData,
        }
    }

    /// The account's number.
    pub fn account(&self) -> u32
        ensures { result ≡ self.now.account }
    {
        self.account
    }

    /// That the text of the last edition stands in that of another place of this account at which as many changes were noted, or more.
    pub fn shows_stands(&self, later: &Place<J>)
        requires account { self.now.account ≡ later.now.account }
        requires number { (last_of self.now.seen.log).number ≤ (last_of later.now.seen.log).number }
        ensures { StandsIn (last_of self.now.seen.log) (last_of later.now.seen.log) }
    {
        let mut both = self.seen.again();
        both.learn(&later.seen);
    }

    /// That the file was to hold the same at another place of this account at which as many changes were noted.
    pub fn shows_same(&self, other: &Place<J>)
        requires account { self.now.account ≡ other.now.account }
        requires number { (last_of self.now.seen.log).number ≡ (last_of other.now.seen.log).number }
        ensures { (last_of self.now.seen.log).text ≡ (last_of other.now.seen.log).text }
    {
        let mut both = self.seen.again();
        both.learn(&other.seen);
    }

    /// That the last text is a file of the journal that was noted last.
    pub fn shows_dated(&self)
        ensures { IsUpToDate self.now.seen.log }
    {
        let mut both = self.seen.again();
        both.learn(&self.seen);
    }
}
