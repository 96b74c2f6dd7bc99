// Clauses below one that always commits.

use crate::seen::{HeadSeen, head_of, is_same};
use crate::warnings::Scope;
use kl1_model::Sign;
use kl1_reasons_items::{Kind, Token, place_of};
use kl1_reasons_words::{Finding, Main, Outline, Part, Say, found_at};
use std::alloc::AllocError;

/// The last clause that always commits, and whether something below it was told of.
#[derive(Clone, Copy)]
pub(crate) struct Committed {
    head: Option<HeadSeen>,
    is_told: bool,
}

impl Committed {
    /// No clause yet.
    pub(crate) fn new() -> Self {
        Committed {
            head: None,
            is_told: false,
        }
    }

    /// Puts a finding for an `otherwise` below a clause that always commits.
    pub(crate) fn look_at_otherwise(
        &mut self,
        scope: &Scope<'_>,
        word: &Token,
        findings: &mut Vec<Finding>,
    ) -> Result<(), AllocError> {
        let Some(head) = self.head else {
            return Ok(());
        };
        if self.is_told {
            return Ok(());
        }
        self.is_told = true;
        findings.push(unreached(
            scope,
            word.start,
            b"nothing below otherwise. is reached: the clause on line ",
            &head,
        )?)?;
        Ok(())
    }

    /// Puts a finding for a clause below one that always commits, and takes the clause if it is such a one.
    pub(crate) fn look_at_clause(
        &mut self,
        scope: &Scope<'_>,
        outline: &Outline<'_>,
        findings: &mut Vec<Finding>,
    ) -> Result<(), AllocError> {
        let Some(head) = head_of(outline.tokens) else {
            return Ok(());
        };
        if let Some(before) = self.head {
            if is_same(scope.text, &before, &head) {
                if !self.is_told {
                    self.is_told = true;
                    findings.push(unreached(
                        scope,
                        head.token.start,
                        b"a run doesn't come to this clause: the one on line ",
                        &before,
                    )?)?;
                }
                return Ok(());
            }
        }
        self.is_told = false;
        self.head = if always_commits(outline) {
            Some(head)
        } else {
            None
        };
        Ok(())
    }
}

/// What is told of what stands below a clause that always commits.
fn unreached(
    scope: &Scope<'_>,
    at: usize,
    why: &[u8],
    head: &HeadSeen,
) -> Result<Finding, AllocError> {
    found_at(
        scope.alloc,
        at,
        &[
            Say::Text(why),
            Say::Number(place_of(scope.text, head.token.start).line),
            Say::Text(b" always commits"),
        ],
        &[Say::Text(
            b"put the clause with the narrower head or guard first, and otherwise. after it",
        )],
    )
}

/// Whether a clause accepts every goal of its predicate: its arguments are variables that differ, and its guard is `true` or none.
fn always_commits(outline: &Outline<'_>) -> bool {
    match outline.head() {
        None => false,
        Some(head) => {
            has_free_arguments(outline, head)
                && outline.tests().iter().all(|test| is_true(outline, test))
        }
    }
}

/// Whether a test is `true`.
fn is_true(outline: &Outline<'_>, test: &Part) -> bool {
    match outline.tokens.get(test.place) {
        Some(token) => {
            test.main == Main::Name
                && test.count == 0
                && token.bytes(outline.text) == b"true".as_slice()
        }
        None => false,
    }
}

/// Whether the arguments of a head are variables that differ.
fn has_free_arguments(outline: &Outline<'_>, head: &Part) -> bool {
    let tokens = outline.tokens_of(head);
    let mut rest = tokens;
    while let [first, others @ ..] = rest {
        if !is_free(outline, first, others) && !is_at_front(tokens, first) {
            return false;
        }
        rest = others;
    }
    true
}

/// Whether a token is the first of tokens.
fn is_at_front(tokens: &[Token], token: &Token) -> bool {
    match tokens {
        [first, ..] => first.start == token.start,
        [] => false,
    }
}

/// Whether a token of a head lets every argument be: a variable that doesn't stand again, a comma or a parenthesis.
fn is_free(outline: &Outline<'_>, token: &Token, others: &[Token]) -> bool {
    let name = token.bytes(outline.text);
    match token.kind {
        Kind::Variable => {
            name == b"_".as_slice() || !others.iter().any(|other| other.bytes(outline.text) == name)
        }
        _ => token.is(Sign::Comma) || token.is(Sign::Open) || token.is(Sign::Close),
    }
}
