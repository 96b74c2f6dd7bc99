// A test, as a line of a module states it.

use crate::expectation::{Equation, Expectation, expectation_in, split_arrow};
use crate::row::{printed_row, put_element};
use crate::test_lines::TestLine;
use crate::tokens::without_blanks;
use crate::values::number_of;
use kl1_read::{ReadFault, read_goal};
use kl1_shown::variable_names;
use kl1_term::Term;
use kl1_text::AtomText;
use std::alloc::{AllocError, AllocFailed, Global};

/// A test of a file.
#[derive(Drop)]
pub struct Test {
    /// The name of the file.
    pub file: Vec<u8>,
    /// The name of the module in it.
    pub module_name: AtomText,
    /// The number of its line, from 1.
    pub line: u64,
    /// The test as it is written.
    pub text: Vec<u8>,
    /// Its goal, as written and as read.
    pub goal_text: Vec<u8>,
    pub goal: Term,
    /// What it wants, as written and as read.
    pub wanted_text: Vec<u8>,
    pub wanted: Expectation,
    /// The terms that are wanted for variables of the goal, as a row that is printed; nothing if none are.
    pub row: Vec<u8>,
}

/// Why a line that begins as a test states none.
#[derive(Clone, Copy, Drop)]
pub enum TestFault {
    /// There is no `=>` in it.
    NoArrow,
    /// What stands before that is no goal.
    Goal,
    /// What stands after it can't be wanted.
    Wanted,
    /// A variable that is to be bound isn't in the goal.
    Variable,
    /// A term that a variable is to be bound to can't be read.
    Value,
    /// Memory was refused.
    Memory,
}

impl TestFault {
    /// The fault in words.
    pub fn words(self) -> &'static [u8] {
        match self {
            TestFault::NoArrow => b"no => after the goal",
            TestFault::Goal => b"no goal before =>",
            TestFault::Wanted => b"what is wanted can't be read",
            TestFault::Variable => b"a variable that isn't in the goal",
            TestFault::Value => b"a value can't be read",
            TestFault::Memory => b"no memory",
        }
    }
}

impl From<AllocError> for TestFault {
    fn from(_refused: AllocError) -> Self {
        TestFault::Memory
    }
}

impl<T: Drop> From<AllocFailed<T>> for TestFault {
    fn from(_refused: AllocFailed<T>) -> Self {
        TestFault::Memory
    }
}

/// The goal that a text is: one that names its module, or is built in, or else one of this module.
fn goal_in(alloc: Global, module_name: &AtomText, text: &[u8]) -> Result<Term, TestFault> {
    match read_goal(alloc, text) {
        Ok(goal) => return Ok(goal),
        Err(ReadFault::Memory) => return Err(TestFault::Memory),
        Err(ReadFault::Bad { line: _line }) => {}
    }
    let mut named = Vec::from_slice(alloc, module_name.printed_as_name().as_slice())?;
    named.push(b':')?;
    named.extend_from_slice(text)?;
    match read_goal(alloc, named.as_slice()) {
        Ok(goal) => Ok(goal),
        Err(ReadFault::Memory) => Err(TestFault::Memory),
        Err(ReadFault::Bad { line: _line }) => Err(TestFault::Goal),
    }
}

/// The terms that variables of a goal are to be bound to, as a row that is printed, if each can be read and each variable stands
/// in the goal.
fn wanted_row(alloc: Global, goal: &[u8], equations: &[Equation]) -> Result<Vec<u8>, TestFault> {
    let names = variable_names(alloc, goal)?;
    let mut row = Vec::new(alloc);
    for equation in equations {
        if number_of(names.as_slice(), equation.variable.as_slice()).is_none() {
            return Err(TestFault::Variable);
        }
        put_element(&mut row, equation.term.as_slice())?;
    }
    match printed_row(alloc, row.as_slice())? {
        Some(printed) => Ok(printed),
        None => Err(TestFault::Value),
    }
}

/// That row of what a test wants.
fn row_for(alloc: Global, goal: &[u8], wanted: &Expectation) -> Result<Vec<u8>, TestFault> {
    match wanted {
        Expectation::Bindings(equations) => wanted_row(alloc, goal, equations.as_slice()),
        _ => Ok(Vec::new(alloc)),
    }
}

/// The test that a line of this file states, which has this module.
pub fn test_in(
    alloc: Global,
    file: &[u8],
    module_name: &AtomText,
    stated: &TestLine,
) -> Result<Test, TestFault> {
    let text = without_blanks(stated.text.as_slice());
    let Some((goal_text, wanted_text)) = split_arrow(text) else {
        return Err(TestFault::NoArrow);
    };
    let goal = goal_in(alloc, module_name, goal_text)?;
    let Some(wanted) = expectation_in(alloc, wanted_text)? else {
        return Err(TestFault::Wanted);
    };
    let row = row_for(alloc, goal_text, &wanted)?;
    Ok(Test {
        file: Vec::from_slice(alloc, file)?,
        module_name: *module_name,
        line: stated.line,
        text: Vec::from_slice(alloc, text)?,
        goal_text: Vec::from_slice(alloc, goal_text)?,
        goal,
        wanted_text: Vec::from_slice(alloc, wanted_text)?,
        wanted,
        row,
    })
}
