// Histories of accounts' files, which begin.

ghost use Rattle.std.specs.Prelude.{◌≡◌};
ghost use Rattle.kl1_host_journals.specs.FreshHistories.{books_of};
ghost use Rattle.kl1_host_work.specs.OwnHistories.{AreFresh};

use kl1_host_journals::{FreshHistory, Naming};
use std::alloc::{AllocError, Global};
use std::marker::PhantomData;

/// The history of the file of the account of this number, in which nothing is yet.
#[derive(Drop)]
pub(crate) struct OwnHistory<J: Naming> {
    pub(crate) account: u32,
    pub(crate) fresh: FreshHistory,
    of: PhantomData<J>,
    ghost own: { books_of fresh ≡ J.books account },
}

/// Histories that belong to no account yet, this many.
pub(crate) fn fresh_histories(
    alloc: Global,
    count: usize,
) -> Result<Vec<FreshHistory>, AllocError> {
    let mut fresh = Vec::with_capacity(alloc, count)?;
    for _ in 0..count {
        fresh.push(FreshHistory::new())?;
    }
    Ok(fresh)
}

/// The last of these histories as that of the account whose number is how many are left; `None` if there is none.
fn last_own<J: Naming>(fresh: &mut Vec<FreshHistory>) -> Option<OwnHistory<J>>
    requires { AreFresh J.books fresh.old.items }
    ensures { AreFresh J.books fresh.new.items }
{
    let Some(last) = fresh.pop() else {
        return None;
    };
    let Ok(account) = u32::try_from(fresh.len()) else {
        return None;
    };
    let own = OwnHistory {
        account,
        fresh: last,
        of: PhantomData,
    };
    Some(own)
}

/// These histories, each as its account's: the first account's at last.
pub(crate) fn own_histories<J: Naming>(
    alloc: Global,
    fresh: Vec<FreshHistory>,
) -> Result<Vec<OwnHistory<J>>, AllocError>
    requires { AreFresh J.books fresh.items }
{
    let mut fresh = fresh;
    let mut own = Vec::with_capacity(alloc, fresh.len())?;
    for _ in 0..fresh.len() {
        if let Some(last) = last_own(&mut fresh) {
            own.push(last)?;
        }
    }
    Ok(own)
}
