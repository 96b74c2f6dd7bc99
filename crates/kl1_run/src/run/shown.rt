// What is written in place of a goal as it was started, and which of its variables have no value.

use crate::run::asked::Form;
use kl1_run_work::Term;
use kl1_shown::{Binding, Parsed, binding_of, parse_print, readable_goal, variable_names};
use kl1_term::{Node, Printer};
use kl1_watch::Names;
use std::alloc::{AllocError, Global};

/// The most bytes of a goal that is written in another form: to be read, it takes some 70 times as many.
pub const MOST_FORMED: usize = 1_048_576;

/// The most bytes of a goal that is told whole.
pub const MOST_WHOLE: usize = 16_777_216;

/// The most bytes of the front of a goal from which it is told that variables have no value.
const MOST_SEEN: usize = 4_000;

/// The greatest number of a variable that is told by a name.
const MOST_NUMBERED: u64 = 65_536;

/// A name that isn't told.
const NO_NAME: &[u8] = b"_";

/// How the print of `V = T` begins, and how it does with the sign between the two.
const EQUATION: &[u8] = b"'='(_1,";

const READABLE_EQUATION: &[u8] = b"_1 = ";

/// A goal of the command line, and what was written of it.
#[derive(Drop)]
pub struct Shown {
    goal: Term,
    /// The names of its variables, by their numbers.
    names: Vec<Vec<u8>>,
    /// Its nodes as it is now, or the first of them.
    now: Parsed,
    /// Whether it is too long to be written in the form that is asked for.
    is_long: bool,
    /// Whether it has more bytes than are told of a goal that is told whole.
    is_cut: bool,
}

/// The first line of a text without its end, and what is after it.
fn first_line(text: &[u8]) -> (&[u8], &[u8]) {
    for (place, byte) in text.iter().enumerate() {
        if *byte == b'\n' {
            let line = text.get(..place).unwrap_or(text);
            let rest = text.get(place.saturating_add(1)..).unwrap_or(&[]);
            return (line, rest);
        }
    }
    (text, &[])
}

impl Shown {
    /// A goal with its word on the command line, and what was written of it.
    pub fn new(
        alloc: Global,
        form: Form,
        word: &str,
        goal: Term,
        written: &[u8],
    ) -> Result<Self, AllocError> {
        let (line, _more) = first_line(written);
        let is_long = MOST_FORMED < line.len();
        let seen = if form.is_other() && !is_long {
            line
        } else {
            line.get(..MOST_SEEN).unwrap_or(line)
        };
        let mut names = variable_names(alloc, word.as_bytes())?;
        if names.len() as u64 != goal.highest() {
            names.clear();
        }
        Ok(Shown {
            goal,
            names,
            now: parse_print(alloc, seen)?,
            is_long,
            is_cut: MOST_WHOLE < line.len(),
        })
    }

    /// Whether the goal is left as it was written, though another form is asked for.
    pub fn is_left(&self, form: Form) -> bool {
        form.is_other() && self.is_long
    }

    /// Whether not all of the goal was written, though it was to be told whole.
    pub fn is_cut(&self) -> bool {
        self.is_cut
    }

    /// Puts a line for each variable that has a name and no value after the bytes.
    pub fn put_warnings(&self, out: &mut Vec<u8>) -> Result<(), AllocError> {
        let mut number: u64 = 0;
        for name in self.names.as_slice() {
            number = number.saturating_add(1);
            if is_named(name.as_slice()) && self.is_unbound(number) {
                out.extend_from_slice(b"kl1_run: warning: ")?;
                out.extend_from_slice(name.as_slice())?;
                out.extend_from_slice(b" has no value\n")?;
            }
        }
        Ok(())
    }

    /// The names of the variables that have no value, by the numbers that they have now.
    pub fn names_now(&self, alloc: Global) -> Result<Names, AllocError> {
        let mut names = Vec::new(alloc);
        let mut number: u64 = 0;
        for name in self.names.as_slice() {
            number = number.saturating_add(1);
            if let Some(
                Binding {
                    nodes: [Node::Variable(now)],
                    ..
                },
            ) = binding_of(self.goal.nodes(), self.now.nodes.as_slice(), number)
            {
                if *now <= MOST_NUMBERED {
                    put_name(alloc, *now, name.as_slice(), &mut names)?;
                }
            }
        }
        Ok(Names { names })
    }

    /// Whether the variable of this number is known to have no value.
    fn is_unbound(&self, number: u64) -> bool {
        match binding_of(self.goal.nodes(), self.now.nodes.as_slice(), number) {
            Some(
                Binding {
                    nodes: [Node::Variable(_other)],
                    ..
                },
            ) => true,
            _ => false,
        }
    }

    /// Puts a line for each variable that has a name after the bytes.
    pub fn put_bindings(
        &self,
        alloc: Global,
        form: Form,
        most: Option<usize>,
        out: &mut Vec<u8>,
    ) -> Result<(), AllocError> {
        let mut number: u64 = 0;
        for name in self.names.as_slice() {
            number = number.saturating_add(1);
            if is_named(name.as_slice()) {
                out.extend_from_slice(name.as_slice())?;
                out.extend_from_slice(b" = ")?;
                if let Some(binding) = binding_of(
                    self.goal.nodes(),
                    self.now.nodes.as_slice(),
                    number,
                ) {
                    put_value(alloc, form, binding, most, out)?;
                }
                out.push(b'\n')?;
            }
        }
        Ok(())
    }
}

/// Puts a name in the place of a number, from 1; numbers before it that have none get one that isn't told.
fn put_name(
    alloc: Global,
    number: u64,
    name: &[u8],
    names: &mut Vec<Vec<u8>>,
) -> Result<(), AllocError> {
    let Some(place) = number.checked_sub(1) else {
        return Ok(());
    };
    for _ in 0..number {
        if names.len() as u64 <= place {
            names.push(Vec::from_slice(alloc, NO_NAME)?)?;
        }
    }
    if let Some(last) = names.as_mut_slice().get_mut(place as usize) {
        *last = Vec::from_slice(alloc, name)?;
    }
    Ok(())
}

/// How the line begins that tells how many goals more wait, and how it ends after a run and at a prompt.
const MORE: &[u8] = b"  .. and ";

const MORE_OF_RUN: &[u8] = b" (--waits=all)";

const MORE_AT_PROMPT: &[u8] = b" (:waits)";

/// Puts lines that tell what stands still after the bytes, with the command of a prompt in place of the option of a run.
pub fn put_at_prompt(lines: &[u8], out: &mut Vec<u8>) -> Result<(), AllocError> {
    for line in lines.split(|byte| *byte == b'\n') {
        match line.strip_suffix(MORE_OF_RUN) {
            Some(front) if line.starts_with(MORE) => {
                out.extend_from_slice(front)?;
                out.extend_from_slice(MORE_AT_PROMPT)?;
            }
            _ => out.extend_from_slice(line)?,
        }
        // After the last line nothing stands.
        if !line.is_empty() {
            out.push(b'\n')?;
        }
    }
    Ok(())
}

/// Whether a variable's name is one by which it is told: those that begin with `_` aren't.
fn is_named(name: &[u8]) -> bool {
    !name.starts_with(b"_")
}

/// Puts a value after the bytes, cut after `most` bytes if there is such a number.
fn put_value(
    alloc: Global,
    form: Form,
    binding: Binding<'_>,
    most: Option<usize>,
    out: &mut Vec<u8>,
) -> Result<(), AllocError> {
    let mut printer = Printer::new(alloc, None);
    printer.put_all(binding.nodes)?;
    let print = printer.into_text()?;
    let text = if form.is_infix {
        readable_value(alloc, print.as_slice())?
    } else {
        print
    };
    put_cut(text.as_slice(), most, out)
}

/// Puts a text after the bytes, cut after `most` bytes if there is such a number.
fn put_cut(text: &[u8], most: Option<usize>, out: &mut Vec<u8>) -> Result<(), AllocError> {
    match most {
        Some(most) if most < text.len() => {
            out.extend_from_slice(&text[..most])?;
            out.extend_from_slice(b"...")
        }
        _ => out.extend_from_slice(text),
    }
}

/// A printed value with operators between their operands, as it may stand after `V =`.
fn readable_value(alloc: Global, print: &[u8]) -> Result<Vec<u8>, AllocError> {
    let mut equation = Vec::from_slice(alloc, EQUATION)?;
    equation.extend_from_slice(print)?;
    equation.push(b')')?;
    let readable = readable_goal(alloc, equation.as_slice())?;
    match readable.as_slice().strip_prefix(READABLE_EQUATION) {
        Some(text) => Vec::from_slice(alloc, text),
        None => Vec::from_slice(alloc, print),
    }
}

/// What is written in place of what was: the goal's line in another form, and the other lines.
pub fn in_form(
    alloc: Global,
    form: Form,
    most: Option<usize>,
    shown: &Shown,
    written: &[u8],
) -> Result<Vec<u8>, AllocError> {
    let (line, more) = first_line(written);
    let mut out = Vec::new(alloc);
    if shown.is_left(form) {
        put_cut(line, most, &mut out)?;
        out.push(b'\n')?;
    } else if form.has_bindings {
        shown.put_bindings(alloc, form, most, &mut out)?;
    } else {
        let text = readable_goal(alloc, line)?;
        out.extend_from_slice(text.as_slice())?;
        out.push(b'\n')?;
    }
    out.extend_from_slice(more)?;
    Ok(out)
}
