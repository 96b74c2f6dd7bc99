// The values of a goal's variables.

use crate::expectation::Equation;
use crate::row::{printed_row, put_element};
use crate::tests::Test;
use kl1_read::{ReadFault, read_goal};
use kl1_shown::{Parsed, binding_of, parse_print, variable_names};
use kl1_term::{Node, Printer};
use std::alloc::{AllocError, Global};

/// The number of the variable of this name, if it is among these names, which are in order.
pub(crate) fn number_of(names: &[Vec<u8>], name: &[u8]) -> Option<u64> {
    let mut number: u64 = 0;
    for other in names {
        number = number.saturating_add(1);
        if other.as_slice() == name {
            return Some(number);
        }
    }
    None
}

/// The nodes of a goal that was printed. If it can be read again, its variables have numbers by their first places.
fn nodes_in(alloc: Global, line: &[u8]) -> Result<Vec<Node>, AllocError> {
    match read_goal(alloc, line) {
        Ok(goal) => Vec::from_slice(alloc, goal.nodes()),
        Err(ReadFault::Bad { line: _line }) => {
            let Parsed { nodes, .. } = parse_print(alloc, line)?;
            Ok(nodes)
        }
        Err(ReadFault::Memory) => Err(AllocError),
    }
}

/// Puts the value after the bytes that a variable has in a goal with what is bound.
fn put_value(
    alloc: Global,
    out: &mut Vec<u8>,
    goal: &[Node],
    now: &[Node],
    number: Option<u64>,
) -> Result<(), AllocError> {
    let Some(number) = number else {
        return Ok(());
    };
    match binding_of(goal, now, number) {
        Some(binding) => {
            let mut printer = Printer::new(alloc, None);
            printer.put_all(binding.nodes)?;
            let text = printer.into_text()?;
            out.extend_from_slice(text.as_slice())
        }
        None => Ok(()),
    }
}

/// Whether the variables of a test's equations have the values that are wanted in this line, the goal with what is bound. Those that
/// have no value are compared by their first places.
pub fn has_values(
    alloc: Global,
    test: &Test,
    equations: &[Equation],
    line: &[u8],
) -> Result<bool, AllocError> {
    let names = variable_names(alloc, test.goal_text.as_slice())?;
    let now = nodes_in(alloc, line)?;
    let mut row = Vec::new(alloc);
    for equation in equations {
        let mut text = Vec::new(alloc);
        let number = number_of(names.as_slice(), equation.variable.as_slice());
        put_value(alloc, &mut text, test.goal.nodes(), now.as_slice(), number)?;
        put_element(&mut row, text.as_slice())?;
    }
    match printed_row(alloc, row.as_slice())? {
        Some(printed) => Ok(printed.as_slice() == test.row.as_slice()),
        None => Ok(false),
    }
}

/// Puts the values that the variables of a test's equations have in this line after the bytes.
pub fn put_values(
    alloc: Global,
    out: &mut Vec<u8>,
    test: &Test,
    equations: &[Equation],
    line: &[u8],
) -> Result<(), AllocError> {
    let names = variable_names(alloc, test.goal_text.as_slice())?;
    let now = nodes_in(alloc, line)?;
    let mut is_first = true;
    for equation in equations {
        if !is_first {
            out.extend_from_slice(b", ")?;
        }
        is_first = false;
        out.extend_from_slice(equation.variable.as_slice())?;
        out.extend_from_slice(b" = ")?;
        let number = number_of(names.as_slice(), equation.variable.as_slice());
        put_value(alloc, out, test.goal.nodes(), now.as_slice(), number)?;
    }
    Ok(())
}
