// Answers from the console: goals that come in the place of variables for which substitutes wait.

ghost use Rattle.std.specs.Prelude.{IfOk, OnOk};
ghost use Rattle.kl1_machine.specs.declared.machine.Machine.{Machine};
ghost use Rattle.kl1_machine.specs.Machines.{IsMachine, Keeps};
ghost use Rattle.kl1_machine.specs.Since.{Since, StillSince};
ghost use Rattle.kl1_machine.specs.Bringing.{answered_by, CanAnswer, Brings, BuildsAnswer};

use crate::machine::Machine;
use kl1_clause::GoalCode;
use kl1_match::{Scratch, put_goal, put_told_variables, reserve_goal};
use kl1_store::Cell;
use kl1_text::CellName;
use std::alloc::AllocError;

/// An answer: the code of its goal, whose variables are numbered from 1; for each of these the variable of the account that it tells, or
/// `None` if it is new; how many are new, and how many structures the goal has; and the variable for which a substitute waits.
#[derive(Drop)]
pub struct Answer<'a> {
    pub code: &'a GoalCode,
    pub told: &'a [Option<u32>],
    pub new: u64,
    pub nodes: u64,
    pub variable: u32,
}

impl Machine {
    /// Builds the goal of an answer, with these numbers for its names in order of first use. What the goal has is counted.
    fn build_answer(
        &mut self,
        scratch: &mut Scratch<CellName>,
        answer: &Answer<'_>,
        numbers: &[CellName],
    ) -> Result<Cell<CellName>, AllocError>
        requires machine { IsMachine self.old }
        requires can { CanAnswer self.old.store.held self.old.counts.variables self.old.counts.nodes numbers.now answer.now }
        ensures ok { IfOk result (BuildsAnswer answer.now numbers.now self.old self.new) }
        ensures since { (b : Machine) → Since b self.old → StillSince result b self.new }
    {
        put_told_variables(&mut self.store, answer.told, scratch)?;
        let row = answer.code.row();
        reserve_goal(&mut self.store, row, scratch)?;
        let cell = put_goal(&mut self.store, numbers, row, scratch);
        self.counts.variables += answer.new;
        self.counts.nodes += answer.nodes;
        Ok(cell)
    }

    /// Puts the goal of an answer, with these numbers for its names in order of first use, in the place of the variable. What the goal has
    /// is counted.
    pub(crate) fn put_goal(
        &mut self,
        scratch: &mut Scratch<CellName>,
        answer: &Answer<'_>,
        numbers: &[CellName],
    ) -> Result<(), AllocError>
        requires machine { IsMachine self.old }
        requires can { CanAnswer self.old.store.held self.old.counts.variables self.old.counts.nodes numbers.now answer.now }
        ensures ok { OnOk result (Brings (answered_by answer.now) answer.now.code.now numbers.now self.old self.new) }
        ensures since { (b : Machine) → Since b self.old → StillSince result b self.new }
    {
        let cell = self.build_answer(scratch, answer, numbers)?;
        let _unified = self
            .store
            .unify_cells(Cell::Variable(answer.variable), cell)?;
        Ok(())
    }
}
