// The children of each shoen as a list, and the way down these lists.

ghost use Rattle.std.specs.Prelude.{◌≡◌, ◌<◌, ◌≤◌, ◌+◌, [], ◌∷◌, ◌++◌, ℕ, List, length, get_or, OnOk};
ghost use Rattle.kl1_model.specs.laws.TreeLaws.{ParentsAreLower};
ghost use Rattle.kl1_shoen_paths.specs.Paths.{AreNumbered, AreLower, parents_in};
ghost use Rattle.kl1_shoen_paths.specs.Below.{AreBelow, AreLinked, children_from};

use crate::shoen::Shoen;
use crate::tracked::TrackedList;
use kl1_text::NameValue;
use std::alloc::{AllocError, Global};
use std::marker::Model;

/// For each number, from 0, its first child, which is the newest, and for each shoen, from 1, the next child of its parent; 0 for none.
#[derive(Drop)]
pub struct ChildLists {
    first: TrackedList<u64>,
    next: TrackedList<u64>,
    room: usize,
}

impl Model for ChildLists {
    ghost use Rattle.std.specs.Prelude.{◌≤◌};
    ghost use Rattle.kl1_shoen_paths.specs.Below.{Links};

    ghost Value = { Links };

    ghost view = { λ t. record {
      first = t.first.now;
      next = t.next.now;
      kept_first = t.first.kept;
      kept_next = t.next.kept;
      room = t.room;
    } };

    ghost invariant = { λ t. (t.room ≤ t.first.room) × (t.room ≤ t.next.room) × (t.room ≤ t.first.changes) };
}

impl ChildLists {
    /// Lists for no shoens.
    pub fn new(alloc: Global) -> Self
        ensures linked { AreLinked [] result.first result.next }
        ensures kept { AreLinked [] result.kept_first result.kept_next }
    {
        ChildLists {
            first: TrackedList::new(alloc),
            next: TrackedList::new(alloc),
            room: 0,
        }
    }

    /// Marks the lists as they are: `back` comes back to this.
    pub fn begin(&mut self)
        ensures first { self.new.first ≡ self.old.first }
        ensures next { self.new.next ≡ self.old.next }
        ensures kept_first { self.new.kept_first ≡ self.old.first }
        ensures kept_next { self.new.kept_next ≡ self.old.next }
        ensures room { self.new.room ≡ self.old.room }
    {
        self.first.begin();
        self.next.begin();
    }

    /// Puts the lists back to what they were when they were last marked, without memory.
    pub fn back(&mut self)
        ensures first { self.new.first ≡ self.old.kept_first }
        ensures next { self.new.next ≡ self.old.kept_next }
        ensures kept_first { self.new.kept_first ≡ self.old.kept_first }
        ensures kept_next { self.new.kept_next ≡ self.old.kept_next }
        ensures room { self.old.room ≤ self.new.room }
    {
        self.first.back();
        self.next.back();
    }

    /// Makes room for `more` shoens.
    pub fn reserve(&mut self, more: usize) -> Result<(), AllocError>
        ensures room { OnOk result (more ≤ self.new.room) }
        ensures keeps { self.old.room ≤ self.new.room }
        ensures first { self.new.first ≡ self.old.first }
        ensures next { self.new.next ≡ self.old.next }
        ensures kept_first { self.new.kept_first ≡ self.old.kept_first }
        ensures kept_next { self.new.kept_next ≡ self.old.kept_next }
    {
        self.first.reserve(more)?;
        self.next.reserve(more)?;
        self.first.reserve_changes(more)?;
        if self.room < more {
            self.room = more;
        }
        Ok(())
    }

    /// Takes the next shoen in, whose parent is there.
    pub fn push(&mut self, parent: u64)
        requires room { 0 < self.old.room }
        requires parent { parent ≤ length self.old.first }
        ensures linked { (parents : List ℕ) → AreLinked parents self.old.first self.old.next → AreLinked (parents ++ parent ∷ []) self.new.first self.new.next }
        ensures kept_first { self.new.kept_first ≡ self.old.kept_first }
        ensures kept_next { self.new.kept_next ≡ self.old.kept_next }
        ensures room { self.new.room + 1 ≡ self.old.room }
    {
        self.first.push(0);
        let place = parent as usize;
        let older = self.first.items()[place];
        self.first.put(place, self.first.items().len() as u64);
        self.next.push(older);
        self.room -= 1;
    }

    /// Writes the numbers of shoen `number` and of all below it, each once.
    pub fn below<N: NameValue>(
        &self,
        shoens: &[Shoen<N>],
        number: u64,
        out: &mut Vec<u64>,
    ) -> Result<(), AllocError>
        requires numbered { AreNumbered 0 shoens.now }
        requires lower { AreLower shoens.now }
        requires linked { AreLinked (parents_in shoens.now) self.now.first self.now.next }
        ensures { OnOk result (AreBelow shoens.now number out.new.items) }
    {
        out.clear();
        if number == 0 {
            return Ok(());
        }
        if (shoens.len() as u64) < number {
            return Ok(());
        }
        out.push(number)?;
        let mut index = 0;
        while index < out.len() {
            let at = out[index];
            self.add_children(at, out)?;
            index += 1;
        }
        Ok(())
    }

    /// Adds the children of shoen `number` to a list, the newest first.
    fn add_children(&self, number: u64, out: &mut Vec<u64>) -> Result<(), AllocError>
        requires lower { ParentsAreLower self.now.next }
        ensures { OnOk result (out.new.items ≡ out.old.items ++ children_from self.now.next (get_or self.now.first number 0)) }
    {
        let mut child = number_at(self.first.items(), number);
        while child > 0 {
            out.push(child)?;
            child = number_at(self.next.items(), child - 1);
        }
        Ok(())
    }
}

/// The number at a place, from 0; 0 if it is beyond the end.
fn number_at(numbers: &[u64], place: u64) -> u64
    ensures { result ≡ get_or numbers.now place 0 }
{
    let place = place as usize;
    if place < numbers.len() {
        return numbers[place];
    }
    0
}
