// The way back to an event's beginning.

ghost use Rattle.std.specs.Prelude.{◌≡◌, ◌≤◌};

use crate::tree::ShoenTree;
use kl1_text::NameValue;

impl<N: NameValue> ShoenTree<N> {
    /// Marks where an event begins: `back` comes back to this.
    pub fn begin(&mut self)
        ensures { self.new ≡ record self.old { kept = self.old.shoens; kept_work = self.old.work } }
    {
        self.shoens.begin();
        self.charges.begin();
        self.links.begin();
        self.kept_work = self.work.same();
    }

    /// Takes back all that was done since the event began, without memory.
    pub fn back(&mut self)
        ensures shoens { self.new.shoens ≡ self.old.kept }
        ensures work { self.new.work ≡ self.old.kept_work }
        ensures kept { self.new.kept ≡ self.old.kept }
        ensures kept_work { self.new.kept_work ≡ self.old.kept_work }
        ensures room { self.old.room ≤ self.new.room }
    {
        self.shoens.back();
        self.charges.back();
        self.links.back();
        self.work = self.kept_work.same();
    }
}
