// The tables that the accounts of a pool share, as a type names them.

ghost use Rattle.std.specs.Prelude.{◌≡◌};

use crate::named_atoms::NamedAtoms;
use crate::pool_ids::PoolIds;
use kl1_atoms::AtomTable;
use kl1_codes::{CodeTable, SharedCodes};
use std::marker::PhantomData;
use std::sync::Wait;

/// The table of names and the table of codes that K names, lent.
#[derive(Drop)]
pub struct SharedTables<'t, K: PoolIds> {
    pub(crate) names: &'t AtomTable,
    pub(crate) codes: &'t CodeTable,
    pub(crate) of: PhantomData<K>,
    pub ghost named: { names.now.table.shared.table_id ≡ K.table },
    pub ghost sized: { names.now.accounts ≡ K.seats },
    pub ghost coded: { codes.now ≡ K.codes },
}

impl<'t, K: PoolIds> SharedTables<'t, K> {
    /// The table of names.
    pub(crate) fn atoms(&self) -> NamedAtoms<'t, K> {
        NamedAtoms {
            table: self.names,
            of: PhantomData,
        }
    }

    /// The table of codes, with the handle by which codes are put in.
    pub(crate) fn source<R: Wait>(&self, rt: &'t R) -> SharedCodes<'t, R>
        ensures { result.table.now ≡ K.codes }
    {
        SharedCodes {
            table: self.codes,
            rt,
        }
    }
}
