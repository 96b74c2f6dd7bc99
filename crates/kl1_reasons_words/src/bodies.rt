// Goals that can't stand there.

use crate::finding::Say;
use crate::heads::is_built_in;
use crate::outline::{Outline, Role, Step};
use crate::part::{Main, Part};
use kl1_model::Sign;
use kl1_reasons_items::{Kind, Token};

impl Outline<'_> {
    /// Tells why a part is no goal, if it is none.
    pub fn check_goal(&self, part: &Part) -> Step {
        let Some(token) = self.tokens.get(part.place) else {
            return Ok(None);
        };
        if let Some(found) = self.check_kind(part, token)? {
            return Ok(Some(found));
        }
        match part.priority {
            Some(place) if self.is_built_in_goal(part, token) => {
                let at = self
                    .tokens
                    .get(place)
                    .map_or(token.start, |sign| sign.start);
                self.tell(at, b"a built-in goal has no priority of its own", b"")
            }
            _ => Ok(None),
        }
    }

    /// Tells why a part is no goal by what it is.
    fn check_kind(&self, part: &Part, token: &Token) -> Step {
        match part.main {
            Main::Name => self.check_name(token, part.count),
            Main::Variable => self.tell(
                token.start,
                b"a variable is no goal",
                b"there is no call: run it by shoen:execute(G,0,4095,1000,C,R), if G is module:goal",
            ),
            Main::Number => self.tell(token.start, b"a number is no goal", b""),
            Main::List => self.tell(token.start, b"a list is no goal", b""),
            Main::Qualified => self.check_qualified(part, token),
            Main::Relation if token.is(Sign::Equals) || token.is(Sign::Becomes) => Ok(None),
            Main::Relation => self.misplaced_test(token),
            Main::Sum | Main::Product => self.say(
                token.start,
                &[Say::Text(token.bytes(self.text)), Say::Text(b" is no goal")],
                &[Say::Text(b"X := E computes")],
            ),
            Main::Group | Main::Nothing => Ok(None),
        }
    }

    /// Tells of a comparison among goals.
    fn misplaced_test(&self, token: &Token) -> Step {
        let word = token.bytes(self.text);
        if let Role::Goal = self.role {
            return self.say(
                token.start,
                &[
                    Say::Text(word),
                    Say::Text(b" is a test, and this is a goal"),
                ],
                &[Say::Text(b"a clause has tests in its guard")],
            );
        }
        let hint: &[u8] = if self.guarded.is_some() {
            b"put it before the bar |"
        } else {
            b"put it before the bar |: there is none in this clause, so all of it is body"
        };
        self.say(
            token.start,
            &[
                Say::Text(word),
                Say::Text(b" is a test, and this is a body"),
            ],
            &[Say::Text(hint)],
        )
    }

    /// Tells of a name that is no goal's.
    fn check_name(&self, token: &Token, count: u64) -> Step {
        let name = token.name(self.text);
        if matches!(
            (name, count),
            (b"true", 0) | (b"atom_from", 2) | (b"=", 2) | (b":=", 2)
        ) || !is_built_in(name, count)
        {
            return Ok(None);
        }
        let hint: &[u8] = if name == b"otherwise".as_slice() {
            b"otherwise. is an item of its own, before a clause"
        } else {
            b""
        };
        let why = [
            Say::Text(token.bytes(self.text)),
            Say::Text(b"/"),
            Say::Number(count),
            Say::Text(b" is no goal"),
        ];
        if hint.is_empty() {
            self.say(token.start, &why, &[])
        } else {
            self.say(token.start, &why, &[Say::Text(hint)])
        }
    }

    /// Tells of a goal whose module is named by no name, or after whose module stands none.
    fn check_qualified(&self, part: &Part, colon: &Token) -> Step {
        let Some(module) = self.tokens.get(part.first) else {
            return Ok(None);
        };
        if !module.is_name() || part.place != part.first.saturating_add(1) {
            return self.tell(
                module.start,
                b"a goal names its module by a name in the text",
                b"if the module is found only in a run: shoen:execute(G,0,4095,1000,C,R)",
            );
        }
        match self.tokens.get(part.place.saturating_add(1)) {
            Some(callee) if matches!(callee.kind, Kind::Variable) => self.tell(
                callee.start,
                b"a variable is no goal",
                b"there is no call: run it by shoen:execute(G,0,4095,1000,C,R), if G is module:goal",
            ),
            Some(callee) if matches!(callee.kind, Kind::Number | Kind::Minus) => {
                self.tell(callee.start, b"a number is no goal", b"")
            }
            Some(_) => Ok(None),
            None => self.tell(colon.end, b"a goal is wanted after the colon", b""),
        }
    }

    /// Whether a part is a built-in goal.
    fn is_built_in_goal(&self, part: &Part, token: &Token) -> bool {
        match part.main {
            Main::Relation => true,
            Main::Name => matches!(
                (token.name(self.text), part.count),
                (b"true", 0) | (b"atom_from", 2) | (b"=", 2) | (b":=", 2)
            ),
            Main::Qualified => self
                .tokens
                .get(part.first)
                .is_some_and(|module| module.name(self.text) == b"shoen".as_slice()),
            _ => false,
        }
    }
}
