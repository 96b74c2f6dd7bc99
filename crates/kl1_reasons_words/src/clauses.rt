// Why an item is no clause by itself.

use crate::outline::{Outline, Role, Step};
use crate::part::Part;
use kl1_model::Sign;
use kl1_reasons_items::Token;
use std::alloc::Global;

impl Outline<'_> {
    /// The tokens of a part.
    pub fn tokens_of(&self, part: &Part) -> &[Token] {
        let tokens = self.tokens;
        if part.first <= part.end && part.end <= tokens.len() {
            &tokens[part.first..part.end]
        } else {
            &[]
        }
    }

    /// The head of a clause that was read.
    pub fn head(&self) -> Option<&Part> {
        self.parts.first()
    }

    /// The tests of a clause that was read.
    pub fn tests(&self) -> &[Part] {
        match (self.heads, self.guarded) {
            (Some(heads), Some(guarded)) => part_of(self.parts.as_slice(), heads, guarded),
            _ => &[],
        }
    }

    /// The goals of a clause that was read.
    pub fn goals(&self) -> &[Part] {
        match (self.heads, self.guarded) {
            (Some(_), Some(guarded)) => part_of(self.parts.as_slice(), guarded, self.parts.len()),
            (Some(heads), None) => part_of(self.parts.as_slice(), heads, self.parts.len()),
            (None, _) => &[],
        }
    }

    /// Tells why what was read is no clause, if it is none.
    pub fn check_clause(&self) -> Step {
        let Some(head) = self.head() else {
            return Ok(None);
        };
        if let Some(found) = self.check_head(head)? {
            return Ok(Some(found));
        }
        let variables = self.variables_of(head)?;
        for test in self.tests() {
            if let Some(found) = self.check_test(test)? {
                return Ok(Some(found));
            }
            if let Some(found) = self.check_variables(&variables, test)? {
                return Ok(Some(found));
            }
        }
        for goal in self.goals() {
            if let Some(found) = self.check_goal(goal)? {
                return Ok(Some(found));
            }
        }
        self.check_depth()
    }

    /// Tells if brackets are open to the greatest depth of a term.
    pub fn check_depth(&self) -> Step {
        match self.deep.and_then(|place| self.tokens.get(place)) {
            Some(token) => self.tell(token.start, b"a term more than 256 deep", b""),
            None => Ok(None),
        }
    }
}

/// The parts from one place up to another.
fn part_of(parts: &[Part], from: usize, to: usize) -> &[Part] {
    if from <= to && to <= parts.len() {
        &parts[from..to]
    } else {
        &[]
    }
}

/// Why an item is no clause by itself, as its tokens show it.
pub fn clause_finding(alloc: Global, text: &[u8], tokens: &[Token]) -> Step {
    let Some(first) = tokens.first() else {
        return Ok(None);
    };
    let mut outline = Outline::new(alloc, text, tokens, *first, Role::Clause);
    if first.is(Sign::Neck) {
        return outline.tell(
            first.start,
            b"no directive but :- module",
            b"there are no exports, operators or modes to declare: leave this line out",
        );
    }
    if let Some(found) = outline.read()? {
        return Ok(Some(found));
    }
    outline.check_clause()
}
