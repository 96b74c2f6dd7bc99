// Names that an event brings, published when nothing can fail any more.

ghost use Rattle.std.specs.Prelude.{◌≡◌, ◌*◌, ◌≤◌, [], length, vec_capacity};
ghost use Rattle.kl1_clause.specs.NameList.{with_texts, IsNameList};
ghost use Rattle.kl1_user_effects.specs.Account.{texts_of};
ghost use Rattle.kl1_user_effects.specs.Naming.{AreSmall, Keeps as KeepsTable};
ghost use Rattle.kl1_machine.specs.Bringing.{PublishesNames};

use crate::machine::Machine;
use kl1_atoms::AtomSource;
use kl1_text::{AtomText, CellName};
use kl1_user_effects::{exchange, publish};

impl Machine {
    /// Publishes these names, and puts their numbers where spare ones stand for them, in one pass over the cells. `numbers` and `row` are
    /// empty, and there has to be room: it takes no memory.
    pub fn publish_names<A: AtomSource>(
        &mut self,
        names: &mut A,
        seat: &mut A::Seat,
        texts: &[AtomText],
        spares: &[CellName],
        numbers: &mut Vec<CellName>,
        row: &mut Vec<u64>,
    )
        requires of { A.is_of names.old seat.old }
        requires knows { A.knows seat.old ≡ self.old.names.names }
        requires few { length (with_texts (texts_of self.old.names.names) texts.now) ≤ (A.place seat.old).0.1 }
        requires list { IsNameList texts.now }
        requires small { AreSmall self.old.names.names }
        requires room { length texts.now ≤ self.old.names.room }
        requires spares { length spares.now ≡ length texts.now }
        requires empty { numbers.old.items ≡ [] }
        requires numbers_room { length texts.now ≤ vec_capacity numbers.old }
        requires row_empty { row.old.items ≡ [] }
        requires row_room { 2 * length spares.now ≤ vec_capacity row.old }
        ensures table { KeepsTable A.is_of A.place A.knows A.published names.old names.new seat.old seat.new }
        ensures knows { A.knows seat.new ≡ self.new.names.names }
        ensures published { PublishesNames texts.now spares.now numbers.new.items self.old self.new }
    {
        publish(names, seat, &mut self.names, texts, numbers);
        exchange(&mut self.store, spares, numbers.as_slice(), row);
    }
}
