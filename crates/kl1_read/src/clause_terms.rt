// A clause as terms.

ghost use Rattle.std.specs.Prelude.{◌≡◌, [], map, IfOk};
ghost use Rattle.kl1_model.specs.reader.Reader.{all_read};
ghost use Rattle.kl1_model.specs.Numbering.{numbered_tokens};
ghost use Rattle.kl1_read.specs.Views.{kept_token, numbered_token};
ghost use Rattle.kl1_read.specs.BodyGoals.{goal_of_term};
ghost use Rattle.kl1_read.specs.Statements.{Heading, given, left_view, statement_view, statement_by, written_series, statement_of, statement_read, body_read, guarded_read};

use crate::goal_terms::{GoalTerm, read_goals, read_on};
use crate::head_terms::read_head;
use crate::kept::Kept;
use crate::mark::{Mark, behind_mark};
use crate::numbered::Numbered;
use crate::numbering::numbered_tokens;
use crate::piece::Piece;
use crate::series::read_series;
use kl1_text::AtomText;
use std::alloc::{AllocError, Global};

/// A clause as terms, its name and the arguments of its head first: it isn't known yet whether they may stand where they
/// stand.
#[derive(Drop)]
pub(crate) struct ClauseTerms {
    pub(crate) name: AtomText,
    pub(crate) arguments: Vec<Piece>,
    pub(crate) tests: Vec<Piece>,
    pub(crate) body: Vec<GoalTerm>,
}

/// Reads the clause that all tokens of an item are, as terms. Answers false if they are no clause, or no text can write
/// one of its arguments, tests or goals.
pub(crate) fn read_terms(
    alloc: Global,
    tokens: Vec<Kept>,
    terms: &mut ClauseTerms,
) -> Result<bool, AllocError>
    requires arguments { terms.old.arguments.items ≡ [] }
    requires tests { terms.old.tests.items ≡ [] }
    requires body { terms.old.body.items ≡ [] }
    ensures { IfOk result (λ r. given r (statement_of terms.new) ≡ all_read (statement_read (numbered_tokens (map kept_token tokens.items)))) }
{
    let numbered = numbered_tokens(alloc, tokens.as_slice())?;
    drop(tokens);
    match read_front(alloc, numbered.as_slice(), terms) {
        Ok(Some(left)) => Ok(left.len() == 0),
        Ok(None) => Ok(false),
        Err(refused) => Err(refused),
    }
}

/// Reads a clause; gives what is after it.
fn read_front<'a>(
    alloc: Global,
    tokens: &'a [Numbered],
    terms: &mut ClauseTerms,
) -> Result<Option<&'a [Numbered]>, AllocError>
    requires arguments { terms.old.arguments.items ≡ [] }
    requires tests { terms.old.tests.items ≡ [] }
    requires body { terms.old.body.items ≡ [] }
    ensures { IfOk result (λ r. statement_view r (statement_of terms.new) ≡ statement_read (map numbered_token tokens.now)) }
{
    match read_head(alloc, tokens, &mut terms.name, &mut terms.arguments) {
        Ok(Some(rest)) => read_body(alloc, rest, &mut terms.tests, &mut terms.body),
        other => other,
    }
}

/// Reads what is after a head: nothing, which is the body `true`, or a neck with a body, or with tests, a bar and a body.
fn read_body<'a>(
    alloc: Global,
    tokens: &'a [Numbered],
    tests: &mut Vec<Piece>,
    body: &mut Vec<GoalTerm>,
) -> Result<Option<&'a [Numbered]>, AllocError>
    requires tests { tests.old.items ≡ [] }
    requires body { body.old.items ≡ [] }
    ensures { IfOk result (λ r. (h : Heading) → statement_view r (statement_by h tests.new.items (map goal_of_term body.new.items)) ≡ body_read h (map numbered_token tokens.now)) }
{
    match behind_mark(Mark::Neck, tokens) {
        None => {
            let term = Piece::atom(alloc, AtomText::of(b"true"))?;
            body.push(GoalTerm {
                term,
                priority: None,
            })?;
            Ok(Some(tokens))
        }
        Some(behind) => read_guarded(alloc, behind, tests, body),
    }
}

/// Reads what is after a neck: a body, or tests, a bar and a body.
fn read_guarded<'a>(
    alloc: Global,
    tokens: &'a [Numbered],
    tests: &mut Vec<Piece>,
    body: &mut Vec<GoalTerm>,
) -> Result<Option<&'a [Numbered]>, AllocError>
    requires tests { tests.old.items ≡ [] }
    requires body { body.old.items ≡ [] }
    ensures { IfOk result (λ r. (h : Heading) → statement_view r (statement_by h tests.new.items (map goal_of_term body.new.items)) ≡ guarded_read h (map numbered_token tokens.now)) }
{
    match read_series(alloc, tokens)? {
        None => Ok(None),
        Some((terms, rest)) => match behind_mark(Mark::Bar, rest) {
            None => read_on(alloc, terms, rest, body),
            Some(inside) => {
                *tests = terms;
                read_goals(alloc, inside, body)
            }
        },
    }
}

/// Reads expressions that are parted by commas, in place of the terms that were there.
pub(crate) fn put_series<'a>(
    alloc: Global,
    tokens: &'a [Numbered],
    terms: &mut Vec<Piece>,
) -> Result<Option<&'a [Numbered]>, AllocError>
    ensures { IfOk result (λ r. left_view r terms.new.items ≡ written_series (map numbered_token tokens.now)) }
{
    match read_series(alloc, tokens) {
        Ok(Some((read, rest))) => {
            *terms = read;
            Ok(Some(rest))
        }
        Ok(None) => Ok(None),
        Err(refused) => Err(refused),
    }
}
