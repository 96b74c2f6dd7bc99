// Brackets that open and close.

use crate::finding::Say;
use crate::level::{Bracket, Level};
use crate::outline::{Outline, Step, Wants};
use crate::part::Main;
use kl1_model::limits::{MOST_ARGUMENTS, MOST_DEPTH};
use kl1_reasons_items::{Place, Token, place_of};

impl<'a> Outline<'a> {
    /// Opens a bracket, which stands after a name if it is that of a call.
    pub(crate) fn open(&mut self, bracket: Bracket, token: &Token, name: Token) -> Step {
        if self.levels.is_empty() {
            match bracket {
                Bracket::Group => self.part.take_term(Main::Group, self.at),
                Bracket::List => self.part.take_term(Main::List, self.at),
                _ => {}
            }
        }
        self.levels.push(Level {
            bracket,
            token: *token,
            name,
            place: self.at.saturating_sub(1),
            count: 1,
            was_related: self.is_related,
            was_qualified: self.is_qualified,
        })?;
        if self.levels.len() as u64 >= MOST_DEPTH && self.deep.is_none() {
            self.deep = Some(self.part.place);
        }
        self.begin_term();
        Ok(None)
    }

    /// Closes a bracket: `]` if `is_list`, else `)`.
    pub(crate) fn close(&mut self, token: &Token, is_list: bool) -> Step {
        let Some(level) = self.levels.pop() else {
            return self.say(
                token.start,
                &[
                    Say::Text(token.bytes(self.text)),
                    Say::Text(b" closes nothing"),
                ],
                &[],
            );
        };
        if !level.is_closed_by(is_list) {
            return self.unclosed(&level, token.bytes(self.text), token.start);
        }
        self.is_related = level.was_related;
        self.is_qualified = level.was_qualified;
        self.wants = Wants::Operator;
        match level.bracket {
            Bracket::Call => self.close_call(&level),
            _ => Ok(None),
        }
    }

    /// Closes the arguments of a name.
    fn close_call(&mut self, level: &Level) -> Step {
        if level.count > MOST_ARGUMENTS as u64 {
            return self.say(
                level.name.start,
                &[
                    Say::Text(level.name.bytes(self.text)),
                    Say::Text(b" has "),
                    Say::Number(level.count),
                    Say::Text(b" arguments: at most 8"),
                ],
                &[Say::Text(b"put some of them into a structure")],
            );
        }
        if self.levels.is_empty()
            && self.part.main == Main::Name
            && self.part.place == level.place
        {
            self.part.count = level.count;
        }
        Ok(None)
    }

    /// The last bracket that is open.
    pub(crate) fn last_open(&self) -> Option<Level> {
        self.levels.last().copied()
    }

    /// Tells of a bracket that isn't closed before what stands at a place.
    pub(crate) fn unclosed(&self, level: &Level, before: &'a [u8], at: usize) -> Step {
        let Place { line, column } = place_of(self.text, at);
        self.say(
            level.token.start,
            &[
                Say::Text(level.token.bytes(self.text)),
                Say::Text(b" isn't closed: "),
                Say::Text(level.closing()),
                Say::Text(b" is wanted before "),
                Say::Text(before),
                Say::Text(b" at "),
                Say::Number(line),
                Say::Text(b":"),
                Say::Number(column),
            ],
            &[],
        )
    }
}
