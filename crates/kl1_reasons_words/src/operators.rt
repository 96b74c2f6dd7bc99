// What stands after a term.

use crate::alien::alien_finding;
use crate::finding::Say;
use crate::foreign::{operator_finding, word_finding};
use crate::level::Bracket;
use crate::outline::{Outline, Step, Wants};
use crate::part::Main;
use kl1_model::Sign;
use kl1_reasons_items::{Kind, Token, place_of};

impl Outline<'_> {
    /// Reads a token after a term.
    pub(crate) fn step_operator(&mut self, token: &Token) -> Step {
        match token.kind {
            Kind::Name if token.bytes(self.text) == b"mod".as_slice() => self.operator(
                Main::Product,
            ),
            Kind::Minus => self.operator(Main::Sum),
            Kind::Sign(sign) => self.step_sign(token, sign),
            Kind::End => self.finish(token),
            Kind::Name | Kind::Quoted | Kind::Variable | Kind::Number => self.out_of_place(token),
            Kind::Alien => self.alien(token),
        }
    }

    /// Reads a sign after a term.
    fn step_sign(&mut self, token: &Token, sign: Sign) -> Step {
        match sign {
            Sign::Plus => self.operator(Main::Sum),
            Sign::Star | Sign::Slash => self.operator(Main::Product),
            Sign::Colon => self.colon(token),
            Sign::Comma => self.comma(token),
            Sign::Bar => self.bar(token),
            Sign::Open => self.open_call(token),
            Sign::Close => self.close(token, false),
            Sign::CloseList => self.close(token, true),
            Sign::Neck => self.neck(token),
            Sign::At => self.pragma(token),
            Sign::OpenList => self.out_of_place(token),
            _ => self.relation(token),
        }
    }

    /// Reads an operator.
    fn operator(&mut self, main: Main) -> Step {
        if self.levels.is_empty() {
            self.part.take_operator(main, self.at);
        }
        self.is_qualified = false;
        self.wants = Wants::Term;
        Ok(None)
    }

    /// Reads a relation.
    fn relation(&mut self, token: &Token) -> Step {
        if self.is_related {
            return self.tell(
                token.start,
                b"a second relation: one term has one",
                b"put the inner one in parentheses",
            );
        }
        self.is_related = true;
        self.operator(Main::Relation)
    }

    /// Reads a colon.
    fn colon(&mut self, token: &Token) -> Step {
        if let Some(found) = operator_finding(self.alloc, self.text, token.start)? {
            return Ok(Some(found));
        }
        if self.is_qualified {
            return self.tell(
                token.start,
                b"a second colon: a goal is module:predicate(..)",
                b"",
            );
        }
        if self.levels.is_empty() {
            self.part.take_operator(Main::Qualified, self.at);
        }
        self.is_qualified = true;
        self.wants = Wants::Term;
        Ok(None)
    }

    /// Opens the arguments of a name.
    fn open_call(&mut self, token: &Token) -> Step {
        let name = self.last;
        if !name.touches(token) {
            if name.is_name() {
                return self.say(
                    token.start,
                    &[Say::Text(b"a blank before (")],
                    &[
                        Say::Text(b"write "),
                        Say::Text(name.bytes(self.text)),
                        Say::Text(b"( : the parenthesis opens directly after the name"),
                    ],
                );
            }
            return self.out_of_place(token);
        }
        match name.kind {
            Kind::Name | Kind::Quoted => self.open(Bracket::Call, token, name),
            Kind::Variable => self.tell(
                name.start,
                b"a variable has no arguments",
                b"a name begins with a small letter",
            ),
            _ => self.out_of_place(token),
        }
    }

    /// Tells of bytes after a term that are no token.
    fn alien(&self, token: &Token) -> Step {
        let is_quote = token.bytes(self.text).starts_with(b"'");
        if is_quote && matches!(self.last.kind, Kind::Number) && self.last.touches(token) {
            return self.no_number();
        }
        Ok(Some(alien_finding(self.alloc, self.text, token)?))
    }

    /// Tells of digits with what can't follow them.
    fn no_number(&self) -> Step {
        self.tell(
            self.last.start,
            b"no such number",
            b"numbers are decimal digits",
        )
    }

    /// Tells of a token that can't follow a term.
    fn out_of_place(&self, token: &Token) -> Step {
        let word = token.bytes(self.text);
        if let Some(found) = word_finding(self.alloc, token.start, word)? {
            return Ok(Some(found));
        }
        let touches = self.last.touches(token);
        match self.last.kind {
            Kind::Number if touches => return self.no_number(),
            Kind::Quoted if touches => {
                return self.say(
                    token.start,
                    &[Say::Text(word), Say::Text(b" is out of place here")],
                    &[Say::Text(b"a quote in a quoted name stands twice: 'it''s'")],
                );
            }
            _ => {}
        }
        let line = place_of(self.text, token.start).line;
        if line > place_of(self.text, self.last.end).line {
            return self.goes_on(token, line);
        }
        self.say(
            token.start,
            &[Say::Text(word), Say::Text(b" is out of place here")],
            &[Say::Text(b"a comma or an operator is missing before it")],
        )
    }

    /// Tells of a token on a further line, before which something is missing.
    fn goes_on(&self, token: &Token, line: u64) -> Step {
        let word = token.bytes(self.text);
        match self.last_open() {
            Some(level) => self.unclosed(&level, word, token.start),
            None => self.say(
                self.last.end,
                &[Say::Text(b"a dot or a comma is missing here")],
                &[
                    Say::Text(word),
                    Say::Text(b" on line "),
                    Say::Number(line),
                    Say::Text(b" goes on"),
                ],
            ),
        }
    }
}
