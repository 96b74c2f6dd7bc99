// What a type can name of a pool.

ghost use Rattle.std.specs.Prelude.{ℕ};
ghost use Rattle.atomic_table.specs.Seated.{TableId};

use std::marker::Brand;

/// Which tally and which queue of tickets a pool has, and how many accounts and shares. What comes out of a lock is known by its
/// type alone, so the type of each part has a parameter of this kind.
pub trait TicketIds {
    ghost tally: { TableId };

    ghost queue: { TableId };

    ghost accounts: { ℕ };

    ghost shares: { ℕ };
}

impl TicketIds for Brand {
    ghost use Rattle.atomic_table.specs.Seated.{TableId};
    ghost use Rattle.std.specs.Prelude.{[]};

    ghost tally = { record { words = 0; slots = 0; views_name = 0; atom = 0; block = 0; offset = 0; slot_names = [] } };

    ghost queue = { record { words = 0; slots = 0; views_name = 0; atom = 0; block = 0; offset = 0; slot_names = [] } };

    ghost accounts = { 0 };

    ghost shares = { 0 };
}
