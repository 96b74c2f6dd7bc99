// Where the clauses of the modules that a journal loads stand.

use kl1_journal_entries::{Deed, entry_of, next_line};
use kl1_model::Rules;
use kl1_run_work::SourceFile;
use kl1_steps::{ClausePlace, put_clauses};
use kl1_user_events::Event;
use std::alloc::{AllocError, Global};

/// The clauses of modules, and the names of their files, or in place of one that isn't given the module's name.
#[derive(Drop)]
pub struct Places {
    pub clauses: Vec<ClausePlace>,
    pub files: Vec<Vec<u8>>,
}

/// The name of the file that has this text, if one has.
fn name_among<'a>(sources: &'a [SourceFile], text: &[u8]) -> Option<&'a [u8]> {
    for source in sources {
        if source.text.as_slice() == text {
            return Some(source.name.as_slice());
        }
    }
    None
}

impl Places {
    /// Takes the text of a module that is loaded.
    fn take(
        &mut self,
        alloc: Global,
        sources: &[SourceFile],
        text: &[u8],
    ) -> Result<(), AllocError> {
        let place = self.files.len();
        let before = self.clauses.len();
        put_clauses(alloc, place, text, &mut self.clauses)?;
        let name = match name_among(sources, text) {
            Some(name) => Vec::from_slice(alloc, name)?,
            None => match self.clauses.get(before) {
                Some(clause) => {
                    Vec::from_slice(alloc, clause.module.printed_as_name().as_slice())?
                }
                None => Vec::new(alloc),
            },
        };
        self.files.push(name)?;
        Ok(())
    }
}

/// The clauses of the modules that the entries of a text load.
pub fn places_in(alloc: Global, text: &[u8], sources: &[SourceFile]) -> Result<Places, AllocError> {
    let mut places = Places {
        clauses: Vec::new(alloc),
        files: Vec::new(alloc),
    };
    let mut rest = text;
    // There are no more lines than bytes.
    for _ in 0..text.len() {
        let Some((line, after)) = next_line(rest) else {
            break;
        };
        if line.starts_with(b"load ") {
            // A load has the same line by all rules.
            if let Some(Deed::Event(Event::Load { source })) = &entry_of(
                alloc,
                Rules::Three,
                line,
            )? {
                places.take(alloc, sources, source.as_slice())?;
            }
        }
        rest = after;
    }
    Ok(places)
}
