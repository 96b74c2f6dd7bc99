// An item as its tokens show it: a head, tests and goals, or the first place at which it is none.

use crate::finding::Finding;
use crate::level::Level;
use crate::part::Part;
use kl1_reasons_items::Token;
use std::alloc::{AllocError, Global};

/// What is wanted next.
#[derive(Clone, Copy)]
pub(crate) enum Wants {
    /// A term.
    Term,
    /// Digits directly after a minus.
    Digits,
    /// An operator, or what is after a term.
    Operator,
    /// The name `priority`.
    Pragma,
    /// The parenthesis after it.
    PragmaOpen,
    /// The number in it.
    PragmaNumber,
    /// The parenthesis after it.
    PragmaClose,
}

/// What tokens are read as.
#[derive(Clone, Copy)]
pub enum Role {
    /// A clause.
    Clause,
    /// A goal without an end.
    Goal,
}

/// A reading of an item.
#[derive(Drop)]
pub struct Outline<'a> {
    pub(crate) alloc: Global,
    pub text: &'a [u8],
    pub tokens: &'a [Token],
    pub(crate) role: Role,
    /// The place of the token that is read.
    pub(crate) at: usize,
    /// The token before it, or the first.
    pub(crate) last: Token,
    /// How many bytes stand before the operators that touch one another and end with that token.
    pub(crate) run: usize,
    pub(crate) wants: Wants,
    pub(crate) levels: Vec<Level>,
    /// The parts that are read.
    pub(crate) parts: Vec<Part>,
    /// The part that is being read.
    pub(crate) part: Part,
    /// Whether the term that is read has a relation already.
    pub(crate) is_related: bool,
    /// Whether the term that is read names a module already.
    pub(crate) is_qualified: bool,
    /// How many parts stand before `:-`, if it stands there.
    pub(crate) heads: Option<usize>,
    /// How many parts stand before the bar, if it stands there.
    pub(crate) guarded: Option<usize>,
    /// The token of the part in which brackets are open to the greatest depth that a term has, if one is so deep.
    pub(crate) deep: Option<usize>,
    /// Whether the item has its end.
    pub(crate) has_end: bool,
}

/// What comes of one token: nothing that is wrong, or what is.
pub type Step = Result<Option<Finding>, AllocError>;

impl<'a> Outline<'a> {
    /// The reading of tokens of which none is read, the first being `first`.
    pub fn new(
        alloc: Global,
        text: &'a [u8],
        tokens: &'a [Token],
        first: Token,
        role: Role,
    ) -> Self {
        Outline {
            alloc,
            text,
            tokens,
            role,
            at: 0,
            last: first,
            run: first.start,
            wants: Wants::Term,
            levels: Vec::new(alloc),
            parts: Vec::new(alloc),
            part: Part::new(0),
            is_related: false,
            is_qualified: false,
            heads: None,
            guarded: None,
            deep: None,
            has_end: false,
        }
    }

    /// Reads the tokens, up to the first place at which they are no item.
    pub fn read(&mut self) -> Step {
        let tokens = self.tokens;
        for token in tokens {
            if let Some(found) = self.step(token)? {
                return Ok(Some(found));
            }
            if token.is_operator() {
                if !(self.last.is_operator() && self.last.touches(token)) {
                    self.run = token.start;
                }
            }
            self.last = *token;
            self.at = self.at.saturating_add(1);
        }
        self.end()
    }

    /// Reads one token.
    fn step(&mut self, token: &Token) -> Step {
        match self.wants {
            Wants::Term => self.step_term(token),
            Wants::Digits => self.step_digits(token),
            Wants::Operator => self.step_operator(token),
            Wants::Pragma | Wants::PragmaOpen | Wants::PragmaNumber | Wants::PragmaClose => {
                self.step_pragma(token)
            }
        }
    }

    /// Ends the part that is read, and begins one after the token that is read.
    pub(crate) fn next_part(&mut self) -> Result<(), AllocError> {
        let mut part = self.part;
        part.end = self.at;
        self.parts.push(part)?;
        self.part = Part::new(self.at.saturating_add(1));
        self.begin_term();
        Ok(())
    }

    /// Begins a term.
    pub(crate) fn begin_term(&mut self) {
        self.is_related = false;
        self.is_qualified = false;
        self.wants = Wants::Term;
    }
}
