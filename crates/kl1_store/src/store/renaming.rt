// Names that become others in what came since a point.

ghost use Rattle.std.specs.Prelude.{◌≡◌, ◌≤◌, length};
ghost use Rattle.kl1_store.specs.Renames.{renamed_since};

use crate::point::Point;
use crate::renaming::Renaming;
use crate::rest::forget_rests;
use crate::store::Store;
use kl1_text::NameValue;

impl<N: NameValue> Store<N> {
    /// Puts what each name becomes in its place in the structures and the bindings that came since a mark, all in one pass and without
    /// memory. What hangs on variables stays.
    pub fn rename<R: Renaming<N>>(&mut self, mark: Point, names: &R)
        requires structures { mark.sizes.structures ≤ length self.old.held.structures }
        requires bindings { mark.sizes.bindings ≤ length self.old.held.bindings }
        ensures held { self.new.held ≡ renamed_since (R.becomes names.now) mark.sizes self.old.held }
        ensures room { self.new.room ≡ self.old.room }
        ensures hooks { self.new.hooks ≡ self.old.hooks }
        ensures hook_room { self.new.hook_room ≡ self.old.hook_room }
    {
        forget_rests(&mut self.rests);
        self.fingers.let_go();
        self.cells.rename(mark.sizes, names);
    }
}
