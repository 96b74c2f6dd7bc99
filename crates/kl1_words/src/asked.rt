// What words ask for.

use crate::commands::command_of;
use crate::fault::Fault;
use crate::program::{OptionSpec, Program, Takes};
use crate::unasked::Unasked;
use clap::{ArgMatches, Error};
use std::alloc::{AllocError, Global};
use std::env;
use std::env::Env;

/// An option that is among the words, with its value.
#[derive(Clone, Copy)]
struct Entry<'a> {
    name: &'static str,
    /// Its text; empty if it has none or is a number.
    text: &'a str,
    /// Its number; 0 if it has none.
    number: u64,
}

/// What words ask for.
pub struct Asked<'a> {
    /// The word of the task; empty if the program has none.
    task: &'a str,
    entries: Vec<Entry<'a>>,
    words: Vec<&'a str>,
}

/// Not derived, so that programs don't prove the drop of each part again.
impl Drop for Asked<'_> {
    fn drop(self) {
        let Asked {
            task: _,
            entries,
            words,
        } = self;
        let _ = (entries, words);
    }
}

impl<'a> Asked<'a> {
    /// The option of this name, if it is there.
    fn entry(&self, name: &str) -> Option<Entry<'a>> {
        for entry in self.entries.as_slice() {
            if entry.name == name {
                return Some(*entry);
            }
        }
        None
    }

    /// The name of the task; empty if the program has none.
    pub fn task(&self) -> &'a str {
        self.task
    }

    /// Whether the option of this name is there.
    pub fn has(&self, name: &str) -> bool {
        self.entry(name).is_some()
    }

    /// The text of the option or word of this name.
    pub fn text(&self, name: &str) -> Option<&'a str> {
        Some(self.entry(name)?.text)
    }

    /// The number of the option of this name.
    pub fn number(&self, name: &str) -> Option<u64> {
        Some(self.entry(name)?.number)
    }

    /// The words of the one row of the table that takes `Words`, or the texts of the one that takes `Each`.
    pub fn words(&self) -> &[&'a str] {
        self.words.as_slice()
    }

    /// Adds what was found of these options.
    fn add(
        &mut self,
        matches: &ArgMatches<'a>,
        options: &'static [OptionSpec],
    ) -> Result<(), AllocError> {
        for option in options {
            let name = option.name;
            match option.takes {
                Takes::Each(_) | Takes::Words(_) => {
                    let words = matches.get_strs(name).unwrap_or(&[]);
                    self.words.extend_from_slice(words)?;
                }
                _ => {
                    if let Some(entry) = entry_of(matches, option) {
                        self.entries.push(entry)?;
                    }
                }
            }
        }
        Ok(())
    }
}

/// What was found of an option that has at most one value.
fn entry_of<'a>(matches: &ArgMatches<'a>, option: &'static OptionSpec) -> Option<Entry<'a>> {
    let name = option.name;
    match option.takes {
        Takes::Nothing => {
            if !matches.get_flag(name) {
                return None;
            }
            Some(Entry {
                name,
                text: "",
                number: 0,
            })
        }
        Takes::Number(..) => Some(Entry {
            name,
            text: "",
            number: matches.get_one::<u64>(name)?,
        }),
        _ => Some(Entry {
            name,
            text: matches.get_str(name)?,
            number: 0,
        }),
    }
}

/// The options of the task of this name.
fn options_of(program: &Program, name: &str) -> &'static [OptionSpec] {
    for task in program.tasks {
        if task.name == name {
            return task.options;
        }
    }
    &[]
}

/// What the words ask for, by the library of words.
fn parsed<'a>(alloc: Global, program: &Program, words: &'a [String]) -> Result<Asked<'a>, Error> {
    let matches = command_of(alloc, program)?.try_get_matches_from(words)?;
    let mut asked = Asked {
        task: "",
        entries: Vec::new(alloc),
        words: Vec::new(alloc),
    };
    asked.add(&matches, program.options)?;
    if let Some((task, matches)) = matches.subcommand() {
        asked.task = task;
        asked.add(matches, options_of(program, task))?;
    }
    Ok(asked)
}

/// What the words ask of a program, of which the first is its name.
pub fn asked_in<'a>(
    alloc: Global,
    program: &Program,
    words: &'a [String],
) -> Result<Asked<'a>, Unasked> {
    match parsed(alloc, program, words) {
        Ok(asked) => Ok(asked),
        Err(error) => Err(Unasked::new(error)),
    }
}

/// The words of the program, of which the first is its name.
pub fn words_of<R: Env + AllocGlobal>(rt: &R) -> Result<Vec<String>, Fault> {
    Ok(env::args(rt)?.collect(rt.alloc())?)
}
