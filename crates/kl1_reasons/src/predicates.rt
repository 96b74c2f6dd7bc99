// The predicates that a module has.

use crate::seen::{HeadSeen, head_of, is_otherwise};
use kl1_reasons_items::{Item, Token, blanks_end, item_end, tokens_of};
use kl1_text::AtomText;
use std::alloc::{AllocError, Global};
use std::collections::HashMap;

/// The name of a module, and of its predicates the names, with the numbers of their arguments.
#[derive(Drop)]
pub struct Predicates {
    pub(crate) module: Option<AtomText>,
    /// The names in the order in which they come first.
    pub(crate) names: Vec<AtomText>,
    /// A bit for each number of arguments, from the least on.
    counts: HashMap<AtomText, u64>,
}

/// The predicates of a module, as its tokens show them.
pub fn predicates_of(alloc: Global, text: &[u8]) -> Result<Predicates, AllocError> {
    let mut found = Predicates {
        module: None,
        names: Vec::new(alloc),
        counts: HashMap::new(alloc),
    };
    let mut is_first = true;
    let mut at = 0;
    while at < text.len() {
        let start = blanks_end(text, at);
        let end = item_end(text, start);
        let tokens = tokens_of(alloc, text, Item { start, end })?;
        if is_first {
            found.module = module_of(text, tokens.as_slice());
        } else {
            found.take(text, tokens.as_slice())?;
        }
        is_first = false;
        at = end;
    }
    Ok(found)
}

/// The name in the line of a module.
fn module_of(text: &[u8], tokens: &[Token]) -> Option<AtomText> {
    tokens
        .get(2)
        .and_then(|name| AtomText::read(name.name(text)))
}

/// The bit for a number of arguments.
fn bit_of(count: u64) -> u64 {
    1 << count.min(63)
}

impl Predicates {
    /// Takes the predicate of a clause.
    fn take(&mut self, text: &[u8], tokens: &[Token]) -> Result<(), AllocError> {
        if is_otherwise(text, tokens) {
            return Ok(());
        }
        match head_of(tokens) {
            None => Ok(()),
            Some(HeadSeen { token, count }) => match AtomText::read(token.name(text)) {
                None => Ok(()),
                Some(name) => self.put(name, count),
            },
        }
    }

    /// Puts a predicate to the others.
    fn put(&mut self, name: AtomText, count: u64) -> Result<(), AllocError> {
        let before = match self.counts.get(&name) {
            Some(counts) => *counts,
            None => 0,
        };
        let _was = self.counts.insert(name, before | bit_of(count))?;
        if before == 0 {
            self.names.push(name)?;
        }
        Ok(())
    }

    /// Whether there is a predicate of a name with `count` arguments.
    pub(crate) fn has(&self, name: &AtomText, count: u64) -> bool {
        match self.counts.get(name) {
            Some(counts) => *counts & bit_of(count) != 0,
            None => false,
        }
    }

    /// The least number of arguments that a predicate of a name has, if there is one.
    pub(crate) fn count_of(&self, name: &AtomText) -> Option<u64> {
        match self.counts.get(name) {
            Some(counts) => (0..64).find(|count| *counts & bit_of(*count) != 0),
            None => None,
        }
    }

    /// Whether this is the module of a name.
    pub(crate) fn is_named(&self, name: &AtomText) -> bool {
        match &self.module {
            Some(own) => own.is(name),
            None => false,
        }
    }
}
