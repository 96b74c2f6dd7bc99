// Goals that are compiled.

ghost use Rattle.std.specs.Prelude.{◌≡◌, [], IfOk};
ghost use Rattle.kl1_model.specs.code.TermCode.{nodes_of};
ghost use Rattle.kl1_model.specs.Nodes.{goal_nodes};
ghost use Rattle.kl1_model.specs.State.{names_of, with_names};
ghost use Rattle.kl1_clause.specs.NameList.{IsNameList};
ghost use Rattle.kl1_clause.specs.Instructions.{IsRowOf};

use crate::instruction::Instruction;
use crate::names::Names;
use crate::node_count::goal_nodes;
use crate::rows::put_nodes;
use kl1_term::Term;
use kl1_text::AtomText;
use std::alloc::{AllocError, Global};
use std::marker::Model;

/// A goal compiled: the names in it that are not built in, the goal as a row of instructions, whose names are places in the
/// list of those, and how many structures stand in its arguments.
#[derive(Drop)]
pub struct GoalCode {
    names: Names,
    row: Vec<Instruction>,
    nodes: u64,
}

impl Model for GoalCode {
    ghost use Rattle.kl1_model.specs.Term.{Term};
    ghost use Rattle.kl1_model.specs.code.TermCode.{term_code};

    ghost Value = { Term };

    ghost coded = { term_code };

    ghost use Rattle.kl1_clause.specs.GoalCodes.{goal_in, IsGoalCode};

    ghost view = { goal_in };

    ghost invariant = { IsGoalCode };
}

impl GoalCode {
    /// The code of a goal.
    pub fn compile(alloc: Global, goal: &Term) -> Result<Self, AllocError>
        ensures { IfOk result (λ code. code ≡ goal.now) }
    {
        let nodes = goal_nodes(goal);
        let mut names = Names::new(alloc);
        let mut row = Vec::new(alloc);
        put_nodes(&mut names, &mut row, goal.nodes())?;
        Ok(GoalCode { names, row, nodes })
    }

    /// The names of the goal that are not built in, in order of first use.
    pub fn names(&self) -> &[AtomText]
        ensures value { result.now ≡ with_names [] (names_of self.now) }
        ensures names { IsNameList result.now }
    {
        let names = &self.names;
        names.texts()
    }

    /// The goal as instructions.
    pub fn row(&self) -> &[Instruction]
        ensures { IsRowOf (with_names [] (names_of self.now)) result.now (nodes_of self.now) }
    {
        self.row.as_slice()
    }

    /// How many structures stand in the arguments of the goal: its own outermost one, with the name of its module, is none of
    /// them.
    pub fn nodes(&self) -> u64
        ensures { result ≡ goal_nodes self.now }
    {
        self.nodes
    }
}
