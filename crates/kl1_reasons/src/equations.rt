// Equations and assignments that can't be meant.

use crate::warnings::Scope;
use kl1_model::Sign;
use kl1_reasons_items::{Kind, Token};
use kl1_reasons_words::{Finding, Main, Outline, Part, Say, found_at};
use std::alloc::AllocError;

/// The two sides of a relation, and the relation.
#[derive(Clone, Copy)]
struct Sides<'a> {
    left: &'a [Token],
    sign: &'a Token,
    right: &'a [Token],
}

/// The sides of a part that is a relation.
fn sides_of<'a>(outline: &'a Outline<'_>, part: &Part) -> Option<Sides<'a>> {
    let tokens = outline.tokens_of(part);
    let place = part.place.saturating_sub(part.first);
    let end = match part.priority {
        Some(priority) => priority.saturating_sub(part.first).min(tokens.len()),
        None => tokens.len(),
    };
    if part.main != Main::Relation || place >= end {
        return None;
    }
    Some(Sides {
        left: &tokens[..place],
        sign: &tokens[place],
        right: &tokens[place + 1..end],
    })
}

/// The operator that tokens of a term are about, if it is one that computes.
fn operator_in(tokens: &[Token], text: &[u8]) -> Option<Token> {
    let mut depth = 0_u64;
    let mut after_term = false;
    let mut sum = None;
    let mut product = None;
    for token in tokens {
        match token.kind {
            Kind::Sign(Sign::Open | Sign::OpenList) => depth = depth.saturating_add(1),
            Kind::Sign(Sign::Close | Sign::CloseList) => depth = depth.saturating_sub(1),
            Kind::Sign(Sign::Plus) | Kind::Minus if depth == 0 && after_term => sum = Some(*token),
            Kind::Sign(Sign::Star | Sign::Slash) if depth == 0 => product = Some(*token),
            Kind::Name if depth == 0 && after_term && token.bytes(text) == b"mod".as_slice() => {
                product = Some(*token);
            }
            _ => {}
        }
        after_term = !token.is_operator();
    }
    sum.or(product)
}

/// The operator that one of the sides is about, if it is one that computes.
fn operator_of(sides: &Sides<'_>, text: &[u8]) -> Option<Token> {
    operator_in(sides.left, text).or(operator_in(sides.right, text))
}

/// The variable that tokens are, if they are one alone.
fn variable_in<'a>(tokens: &'a [Token]) -> Option<&'a Token> {
    match tokens {
        [token] if matches!(token.kind, Kind::Variable) => Some(token),
        _ => None,
    }
}

impl Scope<'_> {
    /// How often a variable stands among tokens.
    fn times(&self, variable: &Token, tokens: &[Token]) -> usize {
        let name = variable.bytes(self.text);
        let mut times = 0_usize;
        for token in tokens {
            if matches!(token.kind, Kind::Variable) && token.bytes(self.text) == name {
                times = times.saturating_add(1);
            }
        }
        times
    }

    /// Puts what is found in an equation or an assignment of a body after the others.
    pub(crate) fn look_at_equation(
        &self,
        outline: &Outline<'_>,
        goal: &Part,
        findings: &mut Vec<Finding>,
    ) -> Result<(), AllocError> {
        let Some(sides) = sides_of(outline, goal) else {
            return Ok(());
        };
        if sides.sign.is(Sign::Becomes) {
            return self.look_at_assignment(&sides, findings);
        }
        if let Some(operator) = operator_of(&sides, self.text) {
            findings.push(found_at(
                self.alloc,
                sides.sign.start,
                &[
                    Say::Text(b"= computes nothing: this makes the structure "),
                    Say::Text(operator.bytes(self.text)),
                ],
                &[Say::Text(b"write := for a number")],
            )?)?;
        }
        self.look_at_circle(sides.left, sides.sign, sides.right, findings)?;
        self.look_at_circle(sides.right, sides.sign, sides.left, findings)
    }

    /// Puts a finding for an assignment that has its variable on both sides.
    fn look_at_assignment(
        &self,
        sides: &Sides<'_>,
        findings: &mut Vec<Finding>,
    ) -> Result<(), AllocError> {
        match variable_in(sides.left) {
            Some(variable) if self.times(variable, sides.right) > 0 => {
                findings.push(found_at(
                    self.alloc,
                    sides.sign.start,
                    &[
                        Say::Text(variable.bytes(self.text)),
                        Say::Text(b" stands on both sides of :="),
                    ],
                    &[Say::Text(
                        b"a variable gets a value once: give the result a name of its own",
                    )],
                )?)?;
                Ok(())
            }
            _ => Ok(()),
        }
    }

    /// Puts a finding for a variable that would hold itself.
    fn look_at_circle(
        &self,
        one: &[Token],
        sign: &Token,
        other: &[Token],
        findings: &mut Vec<Finding>,
    ) -> Result<(), AllocError> {
        match variable_in(one) {
            Some(variable) if other.len() > 1 && self.times(variable, other) > 0 => {
                findings.push(found_at(
                    self.alloc,
                    sign.start,
                    &[
                        Say::Text(b"this always fails: "),
                        Say::Text(variable.bytes(self.text)),
                        Say::Text(b" would hold itself"),
                    ],
                    &[],
                )?)?;
                Ok(())
            }
            _ => Ok(()),
        }
    }

    /// Puts a finding for an equation that is the only test of a clause whose body does nothing: a value may have been meant.
    pub(crate) fn look_at_test(
        &self,
        outline: &Outline<'_>,
        test: &Part,
        findings: &mut Vec<Finding>,
    ) -> Result<(), AllocError> {
        let (Some(head), Some(sides)) = (outline.head(), sides_of(outline, test)) else {
            return Ok(());
        };
        if let Some(operator) = operator_of(&sides, self.text) {
            return self.look_at_comparison(sides.sign, &operator, findings);
        }
        if !sides.sign.is(Sign::Equals) || outline.tests().len() != 1 || !does_nothing(outline) {
            return Ok(());
        }
        let head = outline.tokens_of(head);
        for (one, other) in [(sides.left, sides.right), (sides.right, sides.left)] {
            match variable_in(one) {
                Some(variable) if variable_in(other).is_none() && self.times(variable, head) == 1 =>
                    {
                        findings.push(self.no_binding(sides.sign, variable)?)?;
                    }
                _ => {}
            }
        }
        Ok(())
    }

    /// Puts a finding for a test that compares terms where one of them computes.
    fn look_at_comparison(
        &self,
        sign: &Token,
        operator: &Token,
        findings: &mut Vec<Finding>,
    ) -> Result<(), AllocError> {
        let hint: &[u8] = match sign.kind {
            Kind::Sign(Sign::Equals) => b"numbers are compared by =:=",
            Kind::Sign(Sign::Differs) => b"numbers are compared by =\\=",
            _ => return Ok(()),
        };
        findings.push(found_at(
            self.alloc,
            sign.start,
            &[
                Say::Text(sign.bytes(self.text)),
                Say::Text(b" computes nothing: this compares with the structure "),
                Say::Text(operator.bytes(self.text)),
            ],
            &[Say::Text(hint)],
        )?)?;
        Ok(())
    }

    /// What is told of an equation in a guard.
    fn no_binding(&self, sign: &Token, variable: &Token) -> Result<Finding, AllocError> {
        found_at(
            self.alloc,
            sign.start,
            &[
                Say::Text(b"= in a guard tests and binds nothing: the goal waits until "),
                Say::Text(variable.bytes(self.text)),
                Say::Text(b" is bound"),
            ],
            &[Say::Text(b"to give it a value write it after the bar")],
        )
    }
}

/// Whether the body of a clause is `true`.
fn does_nothing(outline: &Outline<'_>) -> bool {
    match outline.goals() {
        [goal] => match outline.tokens.get(goal.place) {
            Some(token) => {
                goal.main == Main::Name && token.bytes(outline.text) == b"true".as_slice()
            }
            None => false,
        },
        _ => false,
    }
}
