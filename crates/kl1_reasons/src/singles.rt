// Variables that stand once.

use crate::warnings::Scope;
use kl1_reasons_items::{Kind, Token};
use kl1_reasons_words::{Finding, Say, found_at};
use kl1_text::AtomText;
use std::alloc::AllocError;
use std::collections::HashMap;

impl Scope<'_> {
    /// Puts a finding for each variable that stands once in a clause and doesn't begin with `_`.
    pub(crate) fn look_at_variables(
        &self,
        tokens: &[Token],
        findings: &mut Vec<Finding>,
    ) -> Result<(), AllocError> {
        let mut times = HashMap::new(self.alloc);
        for token in tokens {
            if let Some(name) = self.variable(token) {
                let before = match times.get(&name) {
                    Some(before) => *before,
                    None => 0_u64,
                };
                let _was = times.insert(name, before.saturating_add(1))?;
            }
        }
        for token in tokens {
            if let Some(name) = self.variable(token) {
                if times.get(&name) == Some(&1) {
                    findings.push(self.single(token)?)?;
                }
            }
        }
        Ok(())
    }

    /// The variable that a token is, unless it begins with `_`.
    fn variable(&self, token: &Token) -> Option<AtomText> {
        let name = token.bytes(self.text);
        match token.kind {
            Kind::Variable if !name.starts_with(b"_") => AtomText::read(name),
            _ => None,
        }
    }

    /// What is told of a variable that stands once.
    fn single(&self, token: &Token) -> Result<Finding, AllocError> {
        let name = token.bytes(self.text);
        found_at(
            self.alloc,
            token.start,
            &[Say::Text(name), Say::Text(b" stands once")],
            &[
                Say::Text(b"another name is meant, or write _"),
                Say::Text(name),
            ],
        )
    }
}
