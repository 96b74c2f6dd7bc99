// Changes of shoens.

ghost use Rattle.std.specs.Prelude.{◌≡◌, ◌<◌, ◌≤◌, ◌+◌, map, option_map, unwrap_or, true, Some, OnOk, OnErr};
ghost use Rattle.kl1_model.specs.Reduction.{grown};
ghost use Rattle.kl1_shoen_paths.specs.Below.{AreLinked};
ghost use Rattle.kl1_shoen.specs.Shoens.{has_number, changed, control_left, aborted_below_in, emptied_below, parents_in, AreNumbered, AreLower};
ghost use Rattle.kl1_shoen.specs.Changes.{changed_by, changed_below, reports_left, with_control, IsOnce};

use crate::change::{Change, changed};
use crate::counted::CountedShoens;
use crate::tree::ShoenTree;
use kl1_model::Life;
use kl1_shoen_paths::{ChildLists, lent};
use kl1_store::Cell;
use kl1_text::NameValue;
use std::alloc::AllocError;

impl<N: NameValue> ShoenTree<N> {
    /// Changes shoen `number`, if there is one.
    fn change(&mut self, number: u64, change: Change<N>) -> Result<(), AllocError>
        ensures ok { OnOk result (self.new ≡ record self.old { shoens = changed number (changed_by change) self.old.shoens }) }
        ensures err { OnErr result (self.new ≡ self.old) }
    {
        change_one(&mut self.shoens, number, change)?;
        Ok(())
    }

    /// Sets the tail of a shoen's report stream.
    pub fn set_tail(&mut self, number: u64, tail: Cell<N>) -> Result<(), AllocError>
        ensures ok { OnOk result (self.new ≡ record self.old { shoens = changed number (λ h. record h { tail = tail }) self.old.shoens }) }
        ensures err { OnErr result (self.new ≡ self.old) }
    {
        self.change(number, Change::Tail(tail))
    }

    /// Sets what is left of a shoen's control stream.
    pub fn set_control(&mut self, number: u64, control: Cell<N>) -> Result<(), AllocError>
        ensures ok { OnOk result (self.new ≡ record self.old { shoens = changed number (λ h. record h { control = control }) self.old.shoens }) }
        ensures err { OnErr result (self.new ≡ self.old) }
    {
        self.change(number, Change::Control(control))
    }

    /// Sets the tail of the control stream that the console keeps, if the console started the shoen.
    pub fn set_origin_control(&mut self, number: u64, control: Cell<N>) -> Result<(), AllocError>
        ensures ok { OnOk result (self.new ≡ record self.old { shoens = changed number (λ h. record h { origin = option_map (with_control control) h.origin }) self.old.shoens }) }
        ensures err { OnErr result (self.new ≡ self.old) }
    {
        self.change(number, Change::OriginControl(control))
    }

    /// Breaks a shoen's report stream, which has the tail `tail` then, if one is told.
    pub fn break_stream(&mut self, number: u64, tail: Option<Cell<N>>) -> Result<(), AllocError>
        ensures ok { OnOk result (self.new ≡ record self.old { shoens = changed number (λ h. record h { is_broken = true; tail = unwrap_or tail h.tail }) self.old.shoens }) }
        ensures err { OnErr result (self.new ≡ self.old) }
    {
        self.change(number, Change::Breaks(tail))
    }

    /// Stops a shoen, or lets it go on.
    pub fn set_stopped(&mut self, number: u64, is_stopped: bool) -> Result<(), AllocError>
        ensures ok { OnOk result (self.new ≡ record self.old { shoens = changed number (λ h. record h { is_stopped = is_stopped }) self.old.shoens }) }
        ensures err { OnErr result (self.new ≡ self.old) }
    {
        self.change(number, Change::Stopped(is_stopped))
    }

    /// Raises a shoen's allowance by `extra` reductions, up to the greatest there is.
    pub fn allow(&mut self, number: u64, extra: u64) -> Result<(), AllocError>
        ensures ok { OnOk result (self.new ≡ record self.old { shoens = changed number (λ h. record h { allowance = grown h.allowance extra }) self.old.shoens }) }
        ensures err { OnErr result (self.new ≡ self.old) }
    {
        self.change(number, Change::Allows(extra))
    }

    /// Gives a shoen this life.
    pub fn end(&mut self, number: u64, life: Life) -> Result<(), AllocError>
        ensures ok { OnOk result (self.new ≡ record self.old { shoens = changed number (λ h. record h { life = life }) self.old.shoens }) }
        ensures err { OnErr result (self.new ≡ self.old) }
    {
        self.change(number, Change::Ends(life))
    }

    /// Leaves this of a shoen's control stream, unless the console keeps the stream.
    pub fn leave(&mut self, number: u64, left: Cell<N>) -> Result<(), AllocError>
        ensures ok { OnOk result (self.new ≡ record self.old { shoens = changed number (λ h. record h { control = control_left (Some left) h.origin h.control }) self.old.shoens }) }
        ensures err { OnErr result (self.new ≡ self.old) }
    {
        self.change(number, Change::Leaves(left))
    }

    /// Ends a shoen and all below it that live, as aborted. `left` is left of the control stream of each, if it is told and the console
    /// doesn't keep the stream.
    pub fn abort(&mut self, number: u64, left: Option<Cell<N>>) -> Result<(), AllocError>
        ensures ok { OnOk result (self.new ≡ record self.old { shoens = map (aborted_below_in left self.old.shoens number) self.old.shoens }) }
        ensures err { OnErr result (self.new ≡ self.old) }
    {
        self.change_below(number, Change::Aborts(left))
    }

    /// Keeps of the reports of a shoen, if the console started it, what is left after its first `count`.
    pub fn forget_reports(
        &mut self,
        number: u64,
        count: u64,
        left: Cell<N>,
    ) -> Result<(), AllocError>
        ensures ok { OnOk result (self.new ≡ record self.old { shoens = changed number (λ h. record h { origin = option_map (reports_left count left) h.origin }) self.old.shoens }) }
        ensures err { OnErr result (self.new ≡ self.old) }
    {
        self.change(number, Change::Forgets(count, left))
    }

    /// Lets a shoen go, and all below it, that have ended: their places stay, with this in place of their streams.
    pub fn forget(&mut self, number: u64, none: Cell<N>) -> Result<(), AllocError>
        ensures ok { OnOk result (self.new ≡ record self.old { shoens = map (emptied_below none self.old.shoens number) self.old.shoens }) }
        ensures err { OnErr result (self.new ≡ self.old) }
    {
        self.change_below(number, Change::Empties(none))
    }

    /// Changes a shoen and all below it.
    fn change_below(&mut self, number: u64, change: Change<N>) -> Result<(), AllocError>
        requires once { IsOnce change }
        ensures ok { OnOk result (self.new ≡ record self.old { shoens = map (changed_below change self.old.shoens number) self.old.shoens }) }
        ensures err { OnErr result (self.new ≡ self.old) }
    {
        change_all(
            &mut self.shoens,
            &self.links,
            number,
            change,
            &mut self.below,
        )?;
        Ok(())
    }
}

/// Changes shoen `number`, if there is one.
fn change_one<N: NameValue>(
    shoens: &mut CountedShoens<N>,
    number: u64,
    change: Change<N>,
) -> Result<(), AllocError>
    requires { AreNumbered 0 shoens.old.now }
    ensures ok { OnOk result (shoens.new.now ≡ changed number (changed_by change) shoens.old.now) }
    ensures err { OnErr result (shoens.new.now ≡ shoens.old.now) }
    ensures kept { shoens.new.kept ≡ shoens.old.kept }
    ensures room { shoens.new.room ≡ shoens.old.room }
    ensures numbered { AreNumbered 0 shoens.new.now }
    ensures parents { parents_in shoens.new.now ≡ parents_in shoens.old.now }
{
    shoens.reserve_changes(1)?;
    change_reserved(shoens, number, change);
    Ok(())
}

/// Changes shoen `number`, if there is one, without memory.
fn change_reserved<N: NameValue>(shoens: &mut CountedShoens<N>, number: u64, change: Change<N>)
    requires numbered { AreNumbered 0 shoens.old.now }
    requires changes { 0 < shoens.old.changes }
    ensures now { shoens.new.now ≡ changed number (changed_by change) shoens.old.now }
    ensures kept { shoens.new.kept ≡ shoens.old.kept }
    ensures room { shoens.new.room ≡ shoens.old.room }
    ensures changes { shoens.old.changes ≤ shoens.new.changes + 1 }
    ensures numbered { AreNumbered 0 shoens.new.now }
    ensures parents { parents_in shoens.new.now ≡ parents_in shoens.old.now }
{
    let Some(shoen) = lent(shoens.items(), number).copied() else {
        return;
    };
    shoens.put((number - 1) as usize, changed(shoen, change));
}

/// Changes a shoen and all below it, with a list that it may write.
fn change_all<N: NameValue>(
    shoens: &mut CountedShoens<N>,
    links: &ChildLists,
    number: u64,
    change: Change<N>,
    below: &mut Vec<u64>,
) -> Result<(), AllocError>
    requires once { IsOnce change }
    requires numbered { AreNumbered 0 shoens.old.now }
    requires lower { AreLower shoens.old.now }
    requires linked { AreLinked (parents_in shoens.old.now) links.now.first links.now.next }
    ensures ok { OnOk result (shoens.new.now ≡ map (changed_below change shoens.old.now number) shoens.old.now) }
    ensures err { OnErr result (shoens.new.now ≡ shoens.old.now) }
    ensures kept { shoens.new.kept ≡ shoens.old.kept }
    ensures room { shoens.new.room ≡ shoens.old.room }
    ensures numbered { AreNumbered 0 shoens.new.now }
    ensures parents { parents_in shoens.new.now ≡ parents_in shoens.old.now }
{
    links.below(shoens.items(), number, below)?;
    shoens.reserve_changes(below.len())?;
    while let Some(last) = below.pop() {
        change_reserved(shoens, last, change);
    }
    Ok(())
}
