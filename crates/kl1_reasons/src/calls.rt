// Goals whose predicate isn't there.

use crate::predicates::Predicates;
use crate::seen::{HeadSeen, head_of};
use crate::warnings::Scope;
use kl1_reasons_items::Token;
use kl1_reasons_words::{Finding, Main, Outline, Part, Say, found_at, is_built_in, is_test, said};
use kl1_text::AtomText;
use std::alloc::AllocError;
use strsim::osa_distance;

/// Names of other languages' predicates that write and read.
const WRITES: [&[u8]; 8] = [
    b"write", b"writeln", b"print", b"format", b"nl", b"display", b"put", b"read",
];

/// The most bytes of a name for which a near one is looked for.
const MOST_COMPARED: usize = 40;

/// A goal as it names its predicate.
#[derive(Clone, Copy)]
struct Call<'a> {
    token: &'a Token,
    name: AtomText,
    count: u64,
}

impl<'a> Scope<'a> {
    /// Puts what is found in a goal of a body after the others.
    pub(crate) fn look_at_goal(
        &self,
        outline: &Outline<'_>,
        goal: &Part,
        findings: &mut Vec<Finding>,
    ) -> Result<(), AllocError> {
        match goal.main {
            Main::Relation => self.look_at_equation(outline, goal, findings),
            Main::Name => match self.call_of(outline.tokens.get(goal.place), goal.count) {
                Some(call) => self.look_at_call(self.own, &call, b"this module", findings),
                None => Ok(()),
            },
            Main::Qualified => self.look_at_qualified(outline.tokens_of(goal), findings),
            _ => Ok(()),
        }
    }

    /// The call of a name with `count` arguments.
    fn call_of<'t>(&self, token: Option<&'t Token>, count: u64) -> Option<Call<'t>> {
        let token = token?;
        let name = AtomText::read(token.name(self.text))?;
        Some(Call { token, name, count })
    }

    /// Puts what is found in a goal that names its module after the others.
    fn look_at_qualified(
        &self,
        tokens: &[Token],
        findings: &mut Vec<Finding>,
    ) -> Result<(), AllocError> {
        let (Some(module), Some(HeadSeen { token, count })) = (
            tokens.first(),
            head_of(tokens.get(2..).unwrap_or(&[])),
        ) else {
            return Ok(());
        };
        if module.name(self.text) == b"shoen".as_slice() {
            return self.look_at_shoen(&token, count, findings);
        }
        let Some(name) = AtomText::read(module.name(self.text)) else {
            return Ok(());
        };
        let given = self.modules.iter().find(|given| given.is_named(&name));
        match (given, self.call_of(Some(&token), count)) {
            (Some(given), Some(call)) => self.look_at_call(given, &call, b"that module", findings),
            _ => Ok(()),
        }
    }

    /// Puts a finding for a goal of the module that is built in, if that hasn't its predicate.
    fn look_at_shoen(
        &self,
        token: &Token,
        count: u64,
        findings: &mut Vec<Finding>,
    ) -> Result<(), AllocError> {
        if count == 6 && token.name(self.text) == b"execute".as_slice() {
            return Ok(());
        }
        findings.push(found_at(
            self.alloc,
            token.start,
            &[
                Say::Text(b"no predicate "),
                Say::Text(token.bytes(self.text)),
                Say::Text(b"/"),
                Say::Number(count),
                Say::Text(b" in shoen"),
            ],
            &[Say::Text(b"there is execute/6, as shoen:execute(G,0,4095,1000,C,R)")],
        )?)?;
        Ok(())
    }

    /// Puts a finding for a call of a predicate that a module hasn't.
    fn look_at_call(
        &self,
        module: &Predicates,
        call: &Call<'_>,
        place: &'a [u8],
        findings: &mut Vec<Finding>,
    ) -> Result<(), AllocError> {
        let name = call.token.name(self.text);
        if module.has(&call.name, call.count) || is_built_in(name, call.count) {
            return Ok(());
        }
        let hint = self.hint_for(module, call)?;
        findings.push(found_at(
            self.alloc,
            call.token.start,
            &[
                Say::Text(b"no predicate "),
                Say::Text(call.token.bytes(self.text)),
                Say::Text(b"/"),
                Say::Number(call.count),
                Say::Text(b" in "),
                Say::Text(place),
            ],
            &[Say::Text(hint.as_slice())],
        )?)?;
        Ok(())
    }

    /// What may help where a predicate isn't there.
    fn hint_for(&self, module: &Predicates, call: &Call<'_>) -> Result<Vec<u8>, AllocError> {
        let name = call.token.name(self.text);
        if let Some(count) = module.count_of(&call.name) {
            let parts = [
                Say::Text(b"there is "),
                Say::Text(name),
                Say::Text(b"/"),
                Say::Number(count),
            ];
            return said(self.alloc, &parts);
        }
        if is_test(name, call.count) {
            return Vec::from_slice(self.alloc, b"it is a test: put it before the bar |");
        }
        if WRITES.iter().any(|writes| name == *writes) {
            return Vec::from_slice(
                self.alloc,
                b"there is no input and output from programs: bind a variable of the goal, which kl1_run writes",
            );
        }
        if name == b"call".as_slice() {
            return Vec::from_slice(self.alloc, b"run a goal that is a term by shoen:execute");
        }
        self.near_hint(module, name)
    }

    /// The nearest name of a module, or what comes of a goal without a predicate.
    fn near_hint(&self, module: &Predicates, name: &[u8]) -> Result<Vec<u8>, AllocError> {
        let most = name.len() / 3;
        let mut best = None;
        let mut least = most.saturating_add(1);
        for other in &module.names {
            let distance = self.distance(name, other.unpacked().as_slice())?;
            if distance < least {
                least = distance;
                best = Some(*other);
            }
        }
        match best {
            Some(near) => said(
                self.alloc,
                &[
                    Say::Text(near.unpacked().as_slice()),
                    Say::Text(b" is near"),
                ],
            ),
            None => Vec::from_slice(self.alloc, b"the goal would fail when it is reduced"),
        }
    }

    /// In how many letters two names differ; a great number if they can't be near one another.
    fn distance(&self, one: &[u8], other: &[u8]) -> Result<usize, AllocError> {
        if one.len() > MOST_COMPARED || one.len().abs_diff(other.len()) > one.len() / 3 {
            return Ok(usize::MAX);
        }
        match (str::from_utf8(one), str::from_utf8(other)) {
            (Ok(one), Ok(other)) => osa_distance(self.alloc, one, other),
            _ => Ok(usize::MAX),
        }
    }
}
