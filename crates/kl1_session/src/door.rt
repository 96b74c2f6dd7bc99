// Who lets in.

ghost use Rattle.std.specs.Prelude.{◌≡◌, ◌<◌, ℕ, length, IfSome};
ghost use Rattle.kl1_session.specs.Files.{found};
ghost use Rattle.kl1_session.specs.Doors.{Opens};
ghost use Rattle.kl1_session.specs.Views.{entries_view};

use crate::found::find;
use crate::key::Key;

/// What tells to which account a name and a key let in.
pub trait Door {
    /// How many accounts there are.
    ghost accounts: { Self → ℕ };

    /// Which names and keys let in, and to which accounts.
    ghost opens: { Self → Opens };

    /// The number of the account to which this name and this key let in, from 0; `None` if they don't. What is asked changes nothing
    /// of what is answered later.
    fn open(&mut self, name: &[u8], key: &[u8]) -> Option<usize>
        ensures value { result ≡ opens self.old name.now key.now }
        ensures within { IfSome result (λ n. n < accounts self.old) }
        ensures keys { accounts self.new ≡ accounts self.old }
        ensures opens { opens self.new ≡ opens self.old };
}

/// Keys as a file of accounts has them: a name lets in with the key that stands beside it.
#[derive(Clone, Copy)]
pub struct Keys<'a> {
    /// The names with their keys.
    pub keys: &'a [Key],
}

impl Door for Keys<'_> {
    ghost accounts = { λ k. length k.keys.now };

    ghost opens = { λ k. found (entries_view k.keys.now) };

    fn open(&mut self, name: &[u8], key: &[u8]) -> Option<usize> {
        find(self.keys, name, key)
    }
}
