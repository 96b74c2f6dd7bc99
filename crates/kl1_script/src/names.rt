// The lines of names in a journal's text.

ghost use Rattle.std.specs.Prelude.{◌≤◌, IfOk};
ghost use Rattle.kl1_model.specs.declared.limits.TheConstants.{MOST_NAMES};
ghost use Rattle.kl1_script.specs.Names.{IsNamed};

use kl1_journal_entries::{may_follow, name_of, next_line};
use kl1_text::AtomText;
use std::alloc::{AllocError, Global};

/// What the lines of names say.
#[derive(Drop)]
pub(crate) enum Named<'a> {
    /// These names, and what is after their lines.
    All {
        names: Vec<AtomText>,
        rest: &'a [u8],
    },
    /// The line of this number isn't there, or has no name that may follow the others.
    Fault {
        line: u64,
    },
}

/// The names of the first `count` lines of a text, whose first line is the second of the journal's text.
pub(crate) fn names_in<'a>(
    alloc: Global,
    count: u64,
    text: &'a [u8],
) -> Result<Named<'a>, AllocError>
    requires { count ≤ MOST_NAMES }
    ensures { IfOk result (IsNamed count text.now) }
{
    let mut names: Vec<AtomText> = Vec::new(alloc);
    let mut rest = text;
    while (names.len() as u64) < count {
        let line = names.len() as u64 + 2;
        let Some((name_line, after)) = next_line(rest) else {
            return Ok(Named::Fault { line });
        };
        let Some(name) = name_of(name_line) else {
            return Ok(Named::Fault { line });
        };
        if !may_follow(names.as_slice(), &name) {
            return Ok(Named::Fault { line });
        }
        names.push(name)?;
        rest = after;
    }
    Ok(Named::All { names, rest })
}
