// Where a term is wanted.

use crate::alien::alien_finding;
use crate::finding::{Say, found_at, known};
use crate::foreign::operator_finding;
use crate::level::Bracket;
use crate::outline::{Outline, Step, Wants};
use crate::part::Main;
use kl1_model::Sign;
use kl1_model::limits::{MOST_NAME_BYTES, MOST_VARIABLE_BYTES, NUMBER_LIMIT};
use kl1_reasons_items::{Kind, Token};
use kl1_text::decimal_up_to;

impl Outline<'_> {
    /// Tells what is wrong at a place.
    pub fn tell(&self, at: usize, why: &[u8], hint: &[u8]) -> Step {
        Ok(Some(known(self.alloc, at, why, hint)?))
    }

    /// Tells what is wrong at a place in words that are put together.
    pub fn say(&self, at: usize, why: &[Say<'_>], hint: &[Say<'_>]) -> Step {
        Ok(Some(found_at(self.alloc, at, why, hint)?))
    }

    /// Reads a token where a term is wanted.
    pub(crate) fn step_term(&mut self, token: &Token) -> Step {
        match token.kind {
            Kind::Variable => self.variable(token),
            Kind::Number => self.number(token, NUMBER_LIMIT - 1),
            Kind::Name | Kind::Quoted => self.name(token),
            Kind::Minus => {
                self.wants = Wants::Digits;
                Ok(None)
            }
            Kind::Sign(Sign::Open) => self.open(Bracket::Group, token, *token),
            Kind::Sign(Sign::OpenList) => self.open(Bracket::List, token, *token),
            Kind::Sign(Sign::CloseList) if self.last.is(Sign::OpenList) => self.close(token, true),
            Kind::Sign(_) => self.unwanted(token),
            Kind::End => self.tell(token.start, b"a term is wanted before the end", b""),
            Kind::Alien => Ok(Some(alien_finding(self.alloc, self.text, token)?)),
        }
    }

    /// Reads a token where digits are wanted directly after a minus.
    pub(crate) fn step_digits(&mut self, token: &Token) -> Step {
        if matches!(token.kind, Kind::Number) && self.last.touches(token) {
            return self.number(token, NUMBER_LIMIT);
        }
        if let Some(found) = operator_finding(self.alloc, self.text, self.run)? {
            return Ok(Some(found));
        }
        let at = self.last.start;
        self.tell(at, b"no sign before a term", b"write 0 - X")
    }

    /// Takes a term without operators.
    fn take_term(&mut self, main: Main) {
        if self.levels.is_empty() {
            self.part.take_term(main, self.at);
        }
        self.wants = Wants::Operator;
    }

    /// Reads a variable.
    fn variable(&mut self, token: &Token) -> Step {
        let count = token.bytes(self.text).len();
        if count > MOST_VARIABLE_BYTES {
            return self.too_long(token.start, b"a variable", count, MOST_VARIABLE_BYTES);
        }
        self.take_term(Main::Variable);
        Ok(None)
    }

    /// Reads a name.
    fn name(&mut self, token: &Token) -> Step {
        let count = token.name(self.text).len();
        if count > MOST_NAME_BYTES {
            return self.too_long(token.start, b"a name", count, MOST_NAME_BYTES);
        }
        for (place, byte) in token.bytes(self.text).iter().enumerate() {
            if !byte.is_ascii_graphic() && *byte != b' ' {
                return self.no_name_byte(token.start.saturating_add(place), *byte);
            }
        }
        self.take_term(Main::Name);
        Ok(None)
    }

    /// Tells of a byte that can't stand in a name in quotes.
    fn no_name_byte(&self, at: usize, byte: u8) -> Step {
        self.say(
            at,
            &[
                Say::Text(b"byte "),
                Say::Number(u64::from(byte)),
                Say::Text(b" can't stand in a name"),
            ],
            &[Say::Text(b"names are printable ASCII")],
        )
    }

    /// Tells of a name or a variable that is too long.
    fn too_long(&self, at: usize, what: &[u8], count: usize, most: usize) -> Step {
        self.say(
            at,
            &[
                Say::Text(what),
                Say::Text(b" of "),
                Say::Number(count as u64),
                Say::Text(b" bytes: at most "),
                Say::Number(most as u64),
            ],
            &[],
        )
    }

    /// Reads digits, which are at most `most`.
    fn number(&mut self, token: &Token, most: u64) -> Step {
        if decimal_up_to(most, token.bytes(self.text)).is_none() {
            return self.say(
                token.start,
                &[Say::Text(b"a number over "), Say::Number(most)],
                &[],
            );
        }
        self.take_term(Main::Number);
        Ok(None)
    }

    /// Tells of a sign where a term is wanted.
    fn unwanted(&mut self, token: &Token) -> Step {
        if self.last.is_operator() && self.last.touches(token) {
            if let Some(found) = operator_finding(self.alloc, self.text, self.run)? {
                return Ok(Some(found));
            }
        }
        if let Some(found) = operator_finding(self.alloc, self.text, token.start)? {
            return Ok(Some(found));
        }
        if token.is(Sign::Bar) && self.levels.is_empty() {
            return self.tell(
                token.start,
                b"a test or term is wanted before |",
                b"the guard of a clause that always applies is true, or leave out the bar",
            );
        }
        if token.is(Sign::Close) && self.last.is(Sign::Open) {
            return self.tell(
                token.start,
                b"a term is wanted, and ) stands here",
                b"a name without arguments has no parentheses",
            );
        }
        self.say(
            token.start,
            &[
                Say::Text(b"a term is wanted, and "),
                Say::Text(token.bytes(self.text)),
                Say::Text(b" stands here"),
            ],
            &[],
        )
    }
}
