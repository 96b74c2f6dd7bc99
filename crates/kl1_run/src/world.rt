// The account of a run.

use kl1_atoms::PlainTable;
use kl1_codes::PlainCodes;
use kl1_world::{AccountName, Rules, World};
use std::alloc::{AllocError, Global};

/// An account of its own.
pub type OwnWorld = World<PlainTable, PlainCodes>;

/// An account in which nothing has happened.
pub fn fresh_world(alloc: Global, rules: Rules) -> Result<OwnWorld, AllocError> {
    let name = AccountName::read(b"me").unwrap();
    let (table, seats) = PlainTable::new(alloc, 1)?;
    World::new(alloc, table, seats, PlainCodes::new(alloc), &[name], rules)
}
