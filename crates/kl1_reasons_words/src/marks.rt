// What parts an item: commas, the bar, `:-`, priorities and the end.

use crate::finding::Say;
use crate::level::Bracket;
use crate::outline::{Outline, Role, Step, Wants};
use kl1_model::Sign;
use kl1_model::limits::MOST_PRIORITY;
use kl1_reasons_items::{Kind, Place, Token, place_of};
use kl1_text::decimal_up_to;

impl Outline<'_> {
    /// Reads a comma.
    pub(crate) fn comma(&mut self, token: &Token) -> Step {
        let Some(level) = self.levels.last_mut() else {
            return self.part_comma(token);
        };
        match level.bracket {
            Bracket::Call | Bracket::List => {
                level.count = level.count.saturating_add(1);
                self.begin_term();
                Ok(None)
            }
            Bracket::Group | Bracket::Tail => {
                let level = *level;
                self.unclosed(&level, b",", token.start)
            }
        }
    }

    /// Reads a comma between parts.
    fn part_comma(&mut self, token: &Token) -> Step {
        match (self.role, self.heads) {
            (Role::Goal, _) => self.tell(
                token.start,
                b"one goal alone: , stands here",
                b"write a predicate whose body has the goals",
            ),
            (Role::Clause, None) => self.tell(
                token.start,
                b", is out of place here",
                b"a clause has one head: p(X) :- tests | goals.",
            ),
            (Role::Clause, Some(_)) => {
                self.next_part()?;
                Ok(None)
            }
        }
    }

    /// Reads a bar.
    pub(crate) fn bar(&mut self, token: &Token) -> Step {
        if let Some(level) = self.levels.last_mut() {
            return match level.bracket {
                Bracket::List => {
                    level.bracket = Bracket::Tail;
                    self.begin_term();
                    Ok(None)
                }
                _ => {
                    let level = *level;
                    self.unclosed(&level, b"|", token.start)
                }
            };
        }
        match (self.heads, self.guarded) {
            (None, _) => self.tell(
                token.start,
                b"a bar without :-",
                b"a clause is p(X) :- tests | goals.",
            ),
            (Some(_), Some(_)) => self.tell(
                token.start,
                b"a second bar",
                b"one bar parts the guard from the body",
            ),
            (Some(_), None) => {
                self.next_part()?;
                self.guarded = Some(self.parts.len());
                Ok(None)
            }
        }
    }

    /// Reads `:-`.
    pub(crate) fn neck(&mut self, token: &Token) -> Step {
        if let Some(level) = self.last_open() {
            return self.unclosed(&level, b":-", token.start);
        }
        match (self.role, self.heads) {
            (Role::Goal, _) => self.tell(
                token.start,
                b":- is no part of a goal",
                b"clauses stand in a module",
            ),
            (Role::Clause, None) => {
                self.next_part()?;
                self.heads = Some(self.parts.len());
                Ok(None)
            }
            (Role::Clause, Some(_)) => self.second_neck(token),
        }
    }

    /// Tells of a second `:-`, whose head was read as a goal.
    fn second_neck(&self, token: &Token) -> Step {
        let first = self.part.first;
        let before = self.tokens.get(first.saturating_sub(1));
        let (Some(before), Some(head)) = (before, self.tokens.get(first)) else {
            return self.tell(token.start, b"a second :-", b"");
        };
        if before.is(Sign::Neck) || before.is(Sign::Bar) {
            return self.tell(token.start, b"a second :-", b"a clause has one");
        }
        let Place { line, column } = place_of(self.text, head.start);
        let is_comma = before.is(Sign::Comma);
        self.say(
            if is_comma { before.start } else { before.end },
            &[Say::Text(if is_comma {
                b"the dot that ends this clause is missing: a comma stands here"
            } else {
                b"the dot that ends this clause is missing"
            })],
            &[
                Say::Text(b"the next clause begins at "),
                Say::Number(line),
                Say::Text(b":"),
                Say::Number(column),
            ],
        )
    }

    /// Reads the `@` of a priority.
    pub(crate) fn pragma(&mut self, token: &Token) -> Step {
        if let Some(level) = self.last_open() {
            return self.unclosed(&level, b"@", token.start);
        }
        match (self.role, self.heads) {
            (Role::Goal, _) => self.tell(
                token.start,
                b"a goal that is started has no priority of its own",
                b"its clauses can give goals of their bodies one",
            ),
            (Role::Clause, None) => self.tell(
                token.start,
                b"a head has no priority",
                b"a goal of a body has one",
            ),
            (Role::Clause, Some(_)) => {
                self.part.priority = Some(self.at);
                self.wants = Wants::Pragma;
                Ok(None)
            }
        }
    }

    /// Reads a token of `priority(N)`.
    pub(crate) fn step_pragma(&mut self, token: &Token) -> Step {
        let next = match (self.wants, token.kind) {
            (Wants::Pragma, Kind::Name) if token.bytes(self.text) == b"priority".as_slice() => {
                Wants::PragmaOpen
            }
            (Wants::PragmaOpen, Kind::Sign(Sign::Open)) if self.last.touches(token) => {
                Wants::PragmaNumber
            }
            (Wants::PragmaNumber, Kind::Number) => {
                if decimal_up_to(MOST_PRIORITY, token.bytes(self.text)).is_none() {
                    return self.great_priority(token);
                }
                Wants::PragmaClose
            }
            (Wants::PragmaClose, Kind::Sign(Sign::Close)) => Wants::Operator,
            _ => return self.no_pragma(token),
        };
        self.wants = next;
        Ok(None)
    }

    /// Tells of a priority that is too great.
    fn great_priority(&self, token: &Token) -> Step {
        self.say(
            token.start,
            &[
                Say::Text(b"priority "),
                Say::Text(token.bytes(self.text)),
                Say::Text(b": from 0 to 4095"),
            ],
            &[],
        )
    }

    /// Tells what is wrong with a priority.
    fn no_pragma(&self, token: &Token) -> Step {
        match self.wants {
            Wants::PragmaNumber => self.tell(
                token.start,
                b"the priority of a goal is a number in the text, from 0 to 4095",
                b"write a clause for each band, or run the goal in a shoen:execute, whose range is terms",
            ),
            Wants::Pragma if token.is_name() => self.say(
                token.start,
                &[
                    Say::Text(b"no pragma @"),
                    Say::Text(token.bytes(self.text)),
                    Say::Text(b": there is @priority(N) alone"),
                ],
                &[],
            ),
            _ => self.tell(token.start, b"after @ stands priority(N)", b""),
        }
    }

    /// Reads the end of an item.
    pub(crate) fn finish(&mut self, token: &Token) -> Step {
        if let Some(level) = self.last_open() {
            return self.unclosed(&level, b"the end of the item", token.start);
        }
        match self.role {
            Role::Goal => self.tell(
                token.start,
                b"a goal has no dot at its end",
                b"leave it out",
            ),
            Role::Clause => {
                self.next_part()?;
                self.has_end = true;
                Ok(None)
            }
        }
    }

    /// Ends the reading after the last token.
    pub(crate) fn end(&mut self) -> Step {
        if self.has_end {
            return Ok(None);
        }
        let at = self.last.end;
        match self.wants {
            Wants::Operator => {}
            _ => return self.tell(at, b"a term is wanted before the end", b""),
        }
        if let Some(level) = self.last_open() {
            return self.unclosed(&level, b"the end", at);
        }
        match self.role {
            Role::Goal => {
                self.next_part()?;
                Ok(None)
            }
            Role::Clause => self.tell(at, b"the dot that ends this clause is missing", b""),
        }
    }
}
