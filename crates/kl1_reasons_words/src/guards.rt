// Tests that can't stand there.

use crate::finding::Say;
use crate::outline::{Outline, Step};
use crate::part::{Main, Part};
use kl1_model::Sign;
use kl1_reasons_items::{Kind, Token};
use kl1_text::AtomText;
use std::alloc::AllocError;
use std::collections::HashSet;

/// Whether a name with `count` arguments is a test.
pub fn is_test(name: &[u8], count: u64) -> bool {
    matches!(
        (name, count),
        (b"true", 0) | (b"wait", 1) | (b"integer", 1) | (b"atom", 1) | (b"list", 1)
    )
}

impl Outline<'_> {
    /// Tells why a part is no test, if it is none.
    pub(crate) fn check_test(&self, part: &Part) -> Step {
        let Some(token) = self.tokens.get(part.place) else {
            return Ok(None);
        };
        if let Some(place) = part.priority {
            let at = self
                .tokens
                .get(place)
                .map_or(token.start, |sign| sign.start);
            return self.tell(at, b"a test has no priority", b"a goal of the body has one");
        }
        match part.main {
            Main::Name if is_test(token.name(self.text), part.count) => Ok(None),
            Main::Name => self.no_test(token, part.count),
            Main::Relation if !token.is(Sign::Becomes) => Ok(None),
            Main::Relation => self.tell(
                token.start,
                b":= is no test of a guard",
                b"X =:= E compares; X := E computes, after the bar",
            ),
            Main::Variable => self.tell(token.start, b"a variable is no test", b""),
            Main::Number => self.tell(token.start, b"a number is no test", b""),
            Main::List => self.tell(
                token.start,
                b"a list is no test",
                b"list(X) asks whether X is one",
            ),
            Main::Qualified => self.tell(
                token.start,
                b"a goal of a module is no test of a guard",
                b"call it in the body and let a clause for its result go on",
            ),
            Main::Sum | Main::Product => self.say(
                token.start,
                &[
                    Say::Text(token.bytes(self.text)),
                    Say::Text(b" is no test of a guard"),
                ],
                &[Say::Text(b"compare what it comes to, as X + 1 > 2")],
            ),
            Main::Group | Main::Nothing => Ok(None),
        }
    }

    /// Tells that a name is no test.
    fn no_test(&self, token: &Token, count: u64) -> Step {
        let name = token.bytes(self.text);
        let hint: &[u8] = if name == b"otherwise".as_slice() {
            b"otherwise. is an item of its own, before the clause"
        } else {
            b"tests are true, wait(X), integer(X), atom(X), list(X) and the comparisons; call it in the body and let a clause for its result go on"
        };
        self.say(
            token.start,
            &[
                Say::Text(name),
                Say::Text(b"/"),
                Say::Number(count),
                Say::Text(b" is no test of a guard"),
            ],
            &[Say::Text(hint)],
        )
    }

    /// The variables of a head; `_` is none of them.
    pub(crate) fn variables_of(&self, head: &Part) -> Result<HashSet<AtomText>, AllocError> {
        let mut variables = HashSet::new(self.alloc);
        for token in self.tokens_of(head) {
            if let Some(name) = self.named_variable(token) {
                let _is_new = variables.insert(name)?;
            }
        }
        Ok(variables)
    }

    /// The variable that a token is, if it is one and not `_`.
    fn named_variable(&self, token: &Token) -> Option<AtomText> {
        let name = token.bytes(self.text);
        match token.kind {
            Kind::Variable if name != b"_".as_slice() => AtomText::read(name),
            _ => None,
        }
    }

    /// Tells of a variable of a test that isn't among those of the head, if there is one.
    pub(crate) fn check_variables(&self, heads: &HashSet<AtomText>, part: &Part) -> Step {
        for token in self.tokens_of(part) {
            let is_found = match self.named_variable(token) {
                Some(name) => heads.contains(&name),
                None => !matches!(token.kind, Kind::Variable),
            };
            if !is_found {
                return self.say(
                    token.start,
                    &[
                        Say::Text(token.bytes(self.text)),
                        Say::Text(b" stands in the guard and not in the head"),
                    ],
                    &[Say::Text(b"a guard looks at what the head has found")],
                );
            }
        }
        Ok(None)
    }
}
