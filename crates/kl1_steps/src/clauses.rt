// Where clauses stand in sources.

use kl1_model::Sign;
use kl1_read::{Front, Spelled, front_of};
use kl1_shown::variable_names;
use kl1_text::AtomText;
use std::alloc::{AllocError, Global};

/// A clause in a source.
#[derive(Drop)]
pub struct ClausePlace {
    /// The number of its source, from 0.
    pub source: usize,
    pub module: AtomText,
    pub predicate: AtomText,
    pub arity: u64,
    /// The line on which it begins, from 1.
    pub line: u64,
    /// The names of the variables that stand nowhere in its head, in order of their first places.
    pub fresh: Vec<Vec<u8>>,
}

/// The tokens of an item, as far as they tell what it is.
#[derive(Drop)]
struct Item<'a> {
    /// The text from its first token on.
    text: &'a [u8],
    /// The line of its first token.
    line: u64,
    /// What it is called, if it begins with a name that isn't `otherwise.`.
    name: Option<AtomText>,
    arity: u64,
    /// How many bytes its head has.
    head: usize,
    /// The last name of it.
    last: Option<AtomText>,
    depth: u64,
    is_head: bool,
    tokens: u64,
}

impl<'a> Item<'a> {
    /// An item of which nothing is read.
    fn new(text: &'a [u8], line: u64) -> Self {
        Item {
            text,
            line,
            name: None,
            arity: 0,
            head: 0,
            last: None,
            depth: 0,
            is_head: false,
            tokens: 0,
        }
    }

    /// Takes the item's next token, after which this text is left.
    fn take(&mut self, token: &Spelled, rest: &[u8]) {
        if let Spelled::Name(name, _quotes, is_open) = token {
            self.last = Some(*name);
            if self.tokens == 0 {
                self.name = Some(*name);
                self.is_head = true;
                self.arity = if *is_open { 1 } else { 0 };
            }
        }
        self.tokens = self.tokens.saturating_add(1);
        if self.is_head {
            self.take_in_head(token, rest);
        }
    }

    /// Takes a token of the head.
    fn take_in_head(&mut self, token: &Spelled, rest: &[u8]) {
        match token {
            Spelled::Sign(Sign::Open | Sign::OpenList) => self.depth = self.depth.saturating_add(1),
            Spelled::Sign(Sign::Close | Sign::CloseList) => {
                self.depth = self.depth.saturating_sub(1);
            }
            Spelled::Sign(Sign::Comma) if self.depth == 1 => {
                self.arity = self.arity.saturating_add(1);
            }
            Spelled::Sign(Sign::Neck) | Spelled::End => self.is_head = false,
            _ => {}
        }
        if self.is_head {
            self.head = self.text.len().saturating_sub(rest.len());
        }
    }

    /// The names of its variables that stand nowhere in its head.
    fn fresh(&self, alloc: Global, rest: &[u8]) -> Result<Vec<Vec<u8>>, AllocError> {
        let whole = self
            .text
            .get(..self.text.len().saturating_sub(rest.len()))
            .unwrap_or(self.text);
        let head = variable_names(alloc, whole.get(..self.head).unwrap_or(whole))?;
        let all = variable_names(alloc, whole)?;
        let mut fresh = Vec::new(alloc);
        for name in all.iter().skip(head.len()) {
            fresh.push(Vec::from_slice(alloc, name.as_slice())?)?;
        }
        Ok(fresh)
    }
}

/// Whether a name is that of the line that begins a section.
fn is_otherwise(name: &AtomText) -> bool {
    name.unpacked().as_slice() == b"otherwise".as_slice()
}

/// Puts the clauses of a source after the others.
pub fn put_clauses(
    alloc: Global,
    source: usize,
    text: &[u8],
    out: &mut Vec<ClausePlace>,
) -> Result<(), AllocError> {
    let mut module = AtomText::of(b"");
    let mut line: u64 = 1;
    let mut item = Item::new(text, line);
    let mut rest = text;
    // Each round takes a byte at least.
    for _ in text {
        match front_of(rest) {
            Front::Finished => return Ok(()),
            Front::Broken => return Ok(()),
            Front::LineEnd(others) => {
                line = line.saturating_add(1);
                rest = others;
            }
            Front::Blank(others) => rest = others,
            Front::Token(token, others) => {
                if item.tokens == 0 {
                    item = Item::new(rest, line);
                }
                item.take(&token, others);
                rest = others;
                if let Spelled::End = token {
                    match item.name {
                        None => module = item.last.unwrap_or(module),
                        Some(name) if item.arity == 0 && is_otherwise(&name) => {}
                        Some(name) => out.push(ClausePlace {
                            source,
                            module,
                            predicate: name,
                            arity: item.arity,
                            line: item.line,
                            fresh: item.fresh(alloc, rest)?,
                        })?,
                    }
                    item = Item::new(rest, line);
                }
            }
        }
    }
    Ok(())
}

/// The clause of a predicate with this number, from 1.
pub fn clause_at<'a>(
    clauses: &'a [ClausePlace],
    module: &AtomText,
    predicate: &AtomText,
    arity: u64,
    number: u64,
) -> Option<&'a ClausePlace> {
    let mut left = number;
    for clause in clauses {
        if clause.arity == arity && clause.predicate == *predicate && clause.module == *module {
            if left == 1 {
                return Some(clause);
            }
            left = left.saturating_sub(1);
        }
    }
    None
}
