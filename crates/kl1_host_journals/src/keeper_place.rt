// A place for the keeper of an account, which is there once the account is.

use crate::history::Naming;
use crate::keeper::Keeper;
use std::sync::{OnceLock, Wait};

/// A place for the keeper of an account: it is put there once, when the account's file is linked with its journal, and stays.
#[derive(Drop)]
pub struct KeeperPlace<J: Naming> {
    keeper: OnceLock<Keeper<J>>,
}

impl<J: Naming> KeeperPlace<J> {
    /// One in which there is none yet.
    pub fn new() -> Self {
        KeeperPlace {
            keeper: OnceLock::new(),
        }
    }

    /// The keeper, if it is there.
    pub fn get(&self) -> Option<&Keeper<J>> {
        self.keeper.get()
    }

    /// Puts the keeper there; one that is there already stays.
    pub fn put<W: Wait>(&self, rt: &W, keeper: Keeper<J>) {
        let _ = self.keeper.set(rt, keeper);
    }
}
