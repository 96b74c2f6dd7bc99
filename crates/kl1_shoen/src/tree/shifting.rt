// Whose goals may be let step, or held back, otherwise than when an event began.

ghost use Rattle.std.specs.Prelude.{◌≡◌, ◌++◌, true, All, OnOk, option_copied, slice_get};
ghost use Rattle.kl1_shoen.specs.Shifts.{Adds, AreShifts, Covers, CoversChange, CoversCharge, HoldAlike, shoens_of};

use crate::counted::is_living;
use crate::shift::Shift;
use crate::tree::ShoenTree;
use kl1_shoen_paths::{Shoen, Was};
use kl1_text::NameValue;
use std::alloc::AllocError;

impl<N: NameValue> ShoenTree<N> {
    /// Writes whether goals are enabled for each shoen in which that may be otherwise than when the event began; a shoen may be told
    /// of twice.
    pub fn shifts(&self, out: &mut Vec<Shift>) -> Result<(), AllocError>
        ensures { OnOk result (AreShifts self.now out.new.items) }
    {
        out.clear();
        let mut below = Vec::new(*out.allocator());
        self.add_changed(self.shoens.trail(), &mut below, out)?;
        self.add_charged(self.charges.trail(), &mut below, out)?;
        Ok(())
    }

    /// Adds what the changes of a trail come to.
    fn add_changed(
        &self,
        trail: &[Was<Shoen<N>>],
        below: &mut Vec<u64>,
        out: &mut Vec<Shift>,
    ) -> Result<(), AllocError>
        ensures adds { OnOk result (Adds self.now out.old.items out.new.items) }
        ensures covers { OnOk result (All (CoversChange self.now out.new.items) trail.now) }
    {
        for was in trail {
            self.add_change(was, below, out)?;
        }
        Ok(())
    }

    /// Adds what a change comes to.
    fn add_change(
        &self,
        was: &Was<Shoen<N>>,
        below: &mut Vec<u64>,
        out: &mut Vec<Shift>,
    ) -> Result<(), AllocError>
        ensures adds { OnOk result (Adds self.now out.old.items out.new.items) }
        ensures covers { OnOk result (CoversChange self.now out.new.items was.now) }
    {
        let Some(shoen) = self.shoen_at(was.place) else {
            return Ok(());
        };
        if hold_alike(&was.value, shoen) {
            return Ok(());
        }
        self.add_below(shoen.number, below, out)?;
        Ok(())
    }

    /// Adds what the charges of a trail come to.
    fn add_charged(
        &self,
        trail: &[Was<u64>],
        below: &mut Vec<u64>,
        out: &mut Vec<Shift>,
    ) -> Result<(), AllocError>
        ensures adds { OnOk result (Adds self.now out.old.items out.new.items) }
        ensures covers { OnOk result (All (CoversCharge self.now out.new.items) trail.now) }
    {
        for was in trail {
            self.add_charge(was, below, out)?;
        }
        Ok(())
    }

    /// Adds what a charge comes to.
    fn add_charge(
        &self,
        was: &Was<u64>,
        below: &mut Vec<u64>,
        out: &mut Vec<Shift>,
    ) -> Result<(), AllocError>
        ensures adds { OnOk result (Adds self.now out.old.items out.new.items) }
        ensures covers { OnOk result (CoversCharge self.now out.new.items was.now) }
    {
        let Some(shoen) = self.shoen_at(was.place) else {
            return Ok(());
        };
        let was_exhausted = shoen.allowance <= was.value;
        let is_exhausted = shoen.allowance <= self.charged(shoen.number);
        if was_exhausted == is_exhausted {
            return Ok(());
        }
        self.add_below(shoen.number, below, out)?;
        Ok(())
    }

    /// Adds shoen `number` and all below it, unless goals of its parent are held back: whatever becomes of the shoen, goals in it and
    /// below it are held back then.
    fn add_below(
        &self,
        number: u64,
        below: &mut Vec<u64>,
        out: &mut Vec<Shift>,
    ) -> Result<(), AllocError>
        ensures adds { OnOk result (Adds self.now out.old.items out.new.items) }
        ensures covers { OnOk result (Covers self.now number out.new.items) }
    {
        if !self.is_enabled(self.parent(number)) {
            return Ok(());
        }
        self.below(number, below)?;
        self.add_all(below, out)?;
        Ok(())
    }

    /// Shoen `place + 1`, lent.
    fn shoen_at(&self, place: usize) -> Option<&Shoen<N>>
        ensures { option_copied result ≡ slice_get self.now.shoens place }
    {
        self.shoens.items().get(place)
    }

    /// Adds these shoens.
    fn add_all(&self, numbers: &[u64], out: &mut Vec<Shift>) -> Result<(), AllocError>
        ensures adds { OnOk result (Adds self.now out.old.items out.new.items) }
        ensures numbers { OnOk result (shoens_of out.new.items ≡ shoens_of out.old.items ++ numbers.now) }
    {
        for number in numbers {
            out.push(Shift {
                shoen: *number,
                is_enabled: self.is_enabled(*number),
            })?;
        }
        Ok(())
    }
}

/// Whether two shoens hold back goals alike if they were charged alike.
fn hold_alike<N: NameValue>(first: &Shoen<N>, second: &Shoen<N>) -> bool
    ensures { result ≡ true → HoldAlike first.now second.now }
{
    if first.is_stopped != second.is_stopped {
        return false;
    }
    if is_living(first.life) != is_living(second.life) {
        return false;
    }
    first.allowance == second.allowance
}
