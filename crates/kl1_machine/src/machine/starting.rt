// Goals that the console starts.

ghost use Rattle.std.specs.Prelude.{◌≡◌, ◌+◌, ◌<◌, ◌^◌, [], length, IsTrue, IfOk, OnOk};
ghost use Rattle.kl1_model.specs.Meaning.{highest, is_numbered};
ghost use Rattle.kl1_model.specs.Opening.{start_goal};
ghost use Rattle.kl1_model.specs.State.{names_of, with_names};
ghost use Rattle.kl1_store.specs.Held.{IsIn};
ghost use Rattle.kl1_machine.specs.declared.machine.Machine.{Machine};
ghost use Rattle.kl1_machine.specs.Effects.{counting};
ghost use Rattle.kl1_machine.specs.Bringing.{CanStart, Brings};
ghost use Rattle.kl1_machine.specs.Machines.{IsMachine, Keeps};
ghost use Rattle.kl1_machine.specs.Since.{Since, StillSince};
ghost use Rattle.kl1_machine.specs.Starting.{BuildsGoal, OpensStreams};

use crate::machine::Machine;
use kl1_clause::GoalCode;
use kl1_match::{Scratch, put_goal, put_goal_variables, reserve_goal};
use kl1_model::Life;
use kl1_shoen::{Origin, Shoen};
use kl1_store::Cell;
use kl1_text::CellName;
use kl1_user_effects::last_of;
use std::alloc::AllocError;

/// A goal that is to be started: its code, and how many variables it has; what its shoen may be charged, in reductions; and the range of
/// its priorities.
#[derive(Drop)]
pub struct Start<'a> {
    pub code: &'a GoalCode,
    pub variables: u64,
    pub allowance: u64,
    pub low: u64,
    pub high: u64,
}

impl Machine {
    /// Builds a goal of the console, which has `variables` variables, with these numbers for its names in order of first use; `counted`
    /// variables and `nodes` structures are counted for it.
    pub(crate) fn build_goal(
        &mut self,
        scratch: &mut Scratch<CellName>,
        code: &GoalCode,
        variables: u64,
        numbers: &[CellName],
        counted: u64,
        nodes: u64,
    ) -> Result<Cell<CellName>, AllocError>
        requires machine { IsMachine self.old }
        requires numbered { IsTrue (is_numbered code.now) }
        requires variables { variables ≡ highest code.now }
        requires numbers { length numbers.now ≡ length (with_names [] (names_of code.now)) }
        requires few { self.old.counts.variables + counted < 2 ^ 64 }
        requires small { self.old.counts.nodes + nodes < 2 ^ 64 }
        ensures ok { IfOk result (BuildsGoal code.now numbers.now (counting (self.old.counts.variables + counted) (self.old.counts.nodes + nodes) self.old) self.new) }
        ensures since { (b : Machine) → Since b self.old → StillSince result b self.new }
    {
        put_goal_variables(&mut self.store, variables, scratch)?;
        let row = code.row();
        reserve_goal(&mut self.store, row, scratch)?;
        let cell = put_goal(&mut self.store, numbers, row, scratch);
        self.counts.variables += counted;
        self.counts.nodes += nodes;
        Ok(cell)
    }

    /// The tails of the two streams of a shoen that the console opens for a goal, as the console keeps them: two new variables.
    fn open_streams(&mut self, goal: Cell<CellName>) -> Result<Origin<CellName>, AllocError>
        requires machine { IsMachine self.old }
        requires goal { IsIn self.old.store.held goal }
        ensures ok { IfOk result (OpensStreams goal self.old self.new) }
        ensures since { (b : Machine) → Since b self.old → StillSince result b self.new }
    {
        // Only for the proof: what the store holds is formed.
        let _formed = self.store.mark();
        let control = Cell::Variable(self.store.fresh()?);
        let reports = Cell::Variable(self.store.fresh()?);
        Ok(Origin {
            goal,
            forgotten: 0,
            reports,
            control,
        })
    }

    /// Starts a goal in a shoen of its own, with these numbers for its names in order of first use. The names are to be used after it; goals
    /// aren't looked at.
    pub(crate) fn start(
        &mut self,
        scratch: &mut Scratch<CellName>,
        start: &Start<'_>,
        numbers: &[CellName],
    ) -> Result<(), AllocError>
        requires machine { IsMachine self.old }
        requires can { CanStart self.old.counts.variables self.old.counts.nodes numbers.now start.now }
        ensures ok { OnOk result (Brings (λ s. start_goal s start.now.allowance start.now.low start.now.high start.now.code.now) start.now.code.now numbers.now self.old self.new) }
        ensures since { (b : Machine) → Since b self.old → StillSince result b self.new }
    {
        let goal = self.build_goal(
            scratch,
            start.code,
            start.variables,
            numbers,
            start.variables + 2,
            start.code.nodes(),
        )?;
        let origin = self.open_streams(goal)?;
        let number = last_of(self.shoens.len(), 1)?;
        let shoen = Shoen {
            number,
            parent: 0,
            allowance: start.allowance,
            low: start.low,
            high: start.high,
            control: origin.control,
            tail: origin.reports,
            life: Life::Living,
            is_stopped: false,
            is_broken: false,
            origin: Some(origin),
        };
        self.open_shoen(shoen, goal)?;
        Ok(())
    }
}
