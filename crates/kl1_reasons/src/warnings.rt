// What a module that is read may mean otherwise than it was meant.

ghost use Rattle.std.specs.Prelude.{All, IfOk};
ghost use Rattle.kl1_reasons.specs.Reasons.{IsPlaced};

use crate::predicates::Predicates;
use crate::reason::Reason;
use crate::seen::is_otherwise;
use crate::unreached::Committed;
use kl1_reasons_items::{Item, Token, blanks_end, item_end, place_of, tokens_of};
use kl1_reasons_words::{Finding, Outline, Role};
use std::alloc::{AllocError, Global};

/// The most warnings that are told of one source.
pub const MOST_WARNINGS: usize = 20;

/// What is looked at for warnings.
#[derive(Clone, Copy)]
pub(crate) struct Scope<'a> {
    pub(crate) alloc: Global,
    pub(crate) text: &'a [u8],
    /// The predicates of the module itself.
    pub(crate) own: &'a Predicates,
    /// Those of all modules that are given.
    pub(crate) modules: &'a [Predicates],
}

/// What a module may mean otherwise than it was meant, in the order of its items: at most `MOST_WARNINGS`. `own` are its predicates, and
/// `modules` those of all modules that are given.
pub fn warnings_of(
    alloc: Global,
    text: &[u8],
    own: &Predicates,
    modules: &[Predicates],
) -> Result<Vec<Reason>, AllocError>
    ensures { IfOk result (λ warnings. All (IsPlaced text.now) warnings.items) }
{
    let scope = Scope {
        alloc,
        text,
        own,
        modules,
    };
    let mut findings = Vec::new(alloc);
    put_findings(&scope, &mut findings)?;
    let mut warnings = Vec::new(alloc);
    for finding in findings {
        warnings.push(placed(text, finding))?;
    }
    Ok(warnings)
}

/// A finding with its place.
fn placed(text: &[u8], finding: Finding) -> Reason
    ensures { IsPlaced text.now result }
{
    let Finding { at, words } = finding;
    let at = at.min(text.len());
    let place = place_of(text, at);
    Reason {
        line: place.line,
        start: at,
        at,
        end: at,
        place,
        words,
    }
}

/// Puts what is found in the items of a text after the others.
fn put_findings(scope: &Scope<'_>, findings: &mut Vec<Finding>) -> Result<(), AllocError> {
    let text = scope.text;
    let mut committed = Committed::new();
    let mut is_first = true;
    let mut at = 0;
    while at < text.len() && findings.len() < MOST_WARNINGS {
        let start = blanks_end(text, at);
        let end = item_end(text, start);
        let tokens = tokens_of(scope.alloc, text, Item { start, end })?;
        if !is_first {
            look_at(scope, tokens.as_slice(), &mut committed, findings)?;
        }
        is_first = false;
        at = end;
    }
    findings.truncate(MOST_WARNINGS);
    Ok(())
}

/// Puts what is found in an item after the others.
fn look_at(
    scope: &Scope<'_>,
    tokens: &[Token],
    committed: &mut Committed,
    findings: &mut Vec<Finding>,
) -> Result<(), AllocError> {
    let Some(first) = tokens.first() else {
        return Ok(());
    };
    if is_otherwise(scope.text, tokens) {
        return committed.look_at_otherwise(scope, first, findings);
    }
    let mut outline = Outline::new(scope.alloc, scope.text, tokens, *first, Role::Clause);
    if outline.read()?.is_some() {
        return Ok(());
    }
    committed.look_at_clause(scope, &outline, findings)?;
    scope.look_at_variables(tokens, findings)?;
    for test in outline.tests() {
        scope.look_at_test(&outline, test, findings)?;
    }
    for goal in outline.goals() {
        if findings.len() >= MOST_WARNINGS {
            break;
        }
        scope.look_at_goal(&outline, goal, findings)?;
    }
    Ok(())
}
