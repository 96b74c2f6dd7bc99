// What the file of an account is to hold after a note.

use kl1_journal_entries::Journal;
use std::marker::Model;

/// Bytes of a file. A contract sees them as a list.
pub struct Text {
    bytes: Vec<u8>,
}

impl Model for Text {
    ghost use Rattle.std.specs.Prelude.{ℕ, List};
    ghost use Rattle.std.specs.Coded.{coded_list, coded_ℕ};

    ghost Value = { List ℕ };

    ghost coded = { coded_list coded_ℕ };

    ghost view = { λ t. t.bytes.items };
}

/// What the file of an account is to hold after a note: the text, the journal that was noted, with its generation, and how many changes of
/// the file were noted so far. It exists in proofs alone.
pub struct Edition {
    pub number: u64,
    pub generation: u64,
    pub journal: Journal,
    pub text: Text,
}
