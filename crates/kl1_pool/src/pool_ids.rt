// What a type can name of a pool, with its accounts.

ghost use Rattle.std.specs.Prelude.{ℕ, List};
ghost use Rattle.atomic_table.specs.Seated.{TableId};
ghost use Rattle.boxcar.specs.Table.{Shelves};
ghost use Rattle.kl1_model.specs.declared.rules.Rules.{Rules};

use kl1_journal_stamps::ShownIds;
use kl1_pool_tickets::TicketIds;
use std::marker::Brand;

/// What accounts are called.
pub trait Names {
    /// In the order of their numbers; accounts whose numbers aren't below the length may have any name.
    ghost names: { List (List ℕ) };
}

impl Names for Brand {
    ghost use Rattle.std.specs.Prelude.{[]};

    ghost names = { [] };
}

/// Which table of names and which table of codes the accounts of a pool have, beside what `TicketIds`, `ShownIds` and `Names` name; for how many
/// accounts that table of names was made; which rules the accounts keep to; and how many bytes each may take.
pub trait PoolIds: TicketIds + ShownIds + Names {
    ghost table: { TableId };

    ghost seats: { ℕ };

    ghost codes: { Shelves };

    ghost rules: { Rules };

    ghost most_bytes: { ℕ };
}

impl PoolIds for Brand {
    ghost use Rattle.atomic_table.specs.Seated.{TableId};
    ghost use Rattle.boxcar.specs.Table.{Shelves};
    ghost use Rattle.kl1_model.specs.declared.rules.Rules.{Rules};
    ghost use Rattle.kl1_model.specs.declared.rules.Rules.TheVariants.{One};
    ghost use Rattle.std.specs.Prelude.{ℕ, []};

    ghost table = { record { words = 0; slots = 0; views_name = 0; atom = 0; block = 0; offset = 0; slot_names = [] } };

    ghost seats = { 0 };

    ghost codes = { record { tag = []; buckets = [] } };

    ghost rules = { One };

    ghost most_bytes = { 0 };
}
