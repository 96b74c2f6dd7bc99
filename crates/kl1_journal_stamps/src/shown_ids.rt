// What a type can name of the histories of accounts.

ghost use Rattle.std.specs.Prelude.{List};
ghost use Rattle.kl1_journal_stamps.specs.Stamps.{HistoryId};

use std::marker::Brand;

/// Which history of shown journals each account has, in the order of their numbers.
pub trait ShownIds {
    ghost histories: { List HistoryId };
}

impl ShownIds for Brand {
    ghost use Rattle.std.specs.Prelude.{[]};

    ghost histories = { [] };
}
