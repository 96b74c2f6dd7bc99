// The goals of a body as terms.

ghost use Rattle.std.specs.Prelude.{◌≡◌, ◌<◌, List, [], ◌++◌, Some, None, map, option_map, length, IfSome, IfOk, OnOk};
ghost use Rattle.kl1_model.specs.reader.Reader.{digits_in_front};
ghost use Rattle.kl1_model.specs.Module.{BodyGoal};
ghost use Rattle.kl1_read.specs.Views.{numbered_token};
ghost use Rattle.kl1_read.specs.BodyGoals.{goal_of_term, written_goals, terms_after, with_front, goals_named, behind_word, priority_read, priority_view, goals_view, goals_after, following_view, FollowsLess};

use crate::mark::{Mark, behind_mark};
use crate::numbered::Numbered;
use crate::piece::Piece;
use crate::series::read_series;
use kl1_text::AtomText;
use std::alloc::{AllocError, Global};

/// A goal of a body as a term, with the priority that it names, if any: it isn't known yet whether it may stand there.
#[derive(Drop)]
pub(crate) struct GoalTerm {
    pub(crate) term: Piece,
    pub(crate) priority: Option<u64>,
}

/// What follows goals of a body.
enum Following<'a> {
    /// An `@` without a priority.
    Bad,
    /// No further goal; this is after them.
    Last(&'a [Numbered]),
    /// Further goals, which begin here.
    More(&'a [Numbered]),
}

/// Reads the goals of a body; gives what is after them. None if no goals are there, or no text can write one of them.
pub(crate) fn read_goals<'a>(
    alloc: Global,
    tokens: &'a [Numbered],
    goals: &mut Vec<GoalTerm>,
) -> Result<Option<&'a [Numbered]>, AllocError>
    requires { goals.old.items ≡ [] }
    ensures { IfOk result (λ r. goals_view r (map goal_of_term goals.new.items) ≡ written_goals (map numbered_token tokens.now)) }
{
    match read_series(alloc, tokens)? {
        None => Ok(None),
        Some((terms, rest)) => read_on(alloc, terms, rest, goals),
    }
}

/// Reads the goals of a body of which the first ones were read as these terms; gives what is after them.
pub(crate) fn read_on<'a>(
    alloc: Global,
    terms: Vec<Piece>,
    tokens: &'a [Numbered],
    goals: &mut Vec<GoalTerm>,
) -> Result<Option<&'a [Numbered]>, AllocError>
    requires { goals.old.items ≡ [] }
    ensures { IfOk result (λ r. goals_view r (map goal_of_term goals.new.items) ≡ terms_after written_goals terms.items (map numbered_token tokens.now)) }
{
    let mut terms = terms;
    let mut rest = tokens;
    'goals: loop {
        match put_terms(terms, rest, goals)? {
            Following::Bad => return Ok(None),
            Following::Last(behind) => return Ok(Some(behind)),
            Following::More(behind) => match read_series(alloc, behind)? {
                None => return Ok(None),
                Some((read, left)) => {
                    terms = read;
                    rest = left;
                }
            },
        }
    }
}

/// Puts the goals that terms are, of which the last one names the priority that stands in front of the tokens, if one does.
fn put_terms<'a>(
    terms: Vec<Piece>,
    tokens: &'a [Numbered],
    goals: &mut Vec<GoalTerm>,
) -> Result<Following<'a>, AllocError>
    ensures value { IfOk result (λ f. following_view f (map goal_of_term goals.new.items) ≡ with_front (map goal_of_term goals.old.items) (terms_after written_goals terms.items (map numbered_token tokens.now))) }
    ensures less { IfOk result (FollowsLess (length tokens.now)) }
{
    match behind_mark(Mark::At, tokens) {
        None => {
            put_named(terms, None, goals)?;
            Ok(Following::Last(tokens))
        }
        Some(inside) => match read_priority(inside) {
            None => Ok(Following::Bad),
            Some((number, behind)) => {
                put_named(terms, Some(number), goals)?;
                Ok(goal_follows(behind))
            }
        },
    }
}

/// What follows a goal with a priority.
fn goal_follows(tokens: &[Numbered]) -> Following
    ensures value { (goals : List BodyGoal) → following_view result goals ≡ goals_after written_goals goals (map numbered_token tokens.now) }
    ensures less { FollowsLess (length tokens.now) result }
{
    match behind_mark(Mark::Comma, tokens) {
        None => Following::Last(tokens),
        Some(behind) => Following::More(behind),
    }
}

/// Puts the goals that terms are, of which the last one names this priority, if any, and the others none.
fn put_named(
    terms: Vec<Piece>,
    priority: Option<u64>,
    goals: &mut Vec<GoalTerm>,
) -> Result<(), AllocError>
    ensures { OnOk result (map goal_of_term goals.new.items ≡ map goal_of_term goals.old.items ++ goals_named priority terms.items) }
{
    let mut terms = terms;
    goals.reserve(terms.len())?;
    match terms.pop() {
        None => Ok(()),
        Some(last) => {
            for term in terms {
                goals.push(GoalTerm {
                    term,
                    priority: None,
                })?;
            }
            goals.push(GoalTerm {
                term: last,
                priority,
            })?;
            Ok(())
        }
    }
}

/// The number of the priority that is named in front, after its `@`, with what is after it.
fn read_priority(tokens: &[Numbered]) -> Option<(u64, &[Numbered])>
    ensures value { priority_view result ≡ priority_read (map numbered_token tokens.now) }
    ensures less { IfSome result (λ r. length r.1.now < length tokens.now) }
{
    let behind = behind_word(tokens)?;
    let inside = behind_mark(Mark::Open, behind)?;
    let (number, rest) = digits_in_front(inside)?;
    let after = behind_mark(Mark::Close, rest)?;
    Some((number, after))
}

/// What is after the word `priority` in front of a `(`.
fn behind_word(tokens: &[Numbered]) -> Option<&[Numbered]>
    ensures value { option_map (λ rest. map numbered_token rest.now) result ≡ behind_word (map numbered_token tokens.now) }
    ensures less { IfSome result (λ rest. length rest.now < length tokens.now) }
{
    match tokens {
        [] => None,
        [first, rest @ ..] => match first {
            Numbered::Name(_quotes, applied, text) => {
                let name = text.name();
                if *applied && name.is(&AtomText::of(b"priority")) {
                    Some(rest)
                } else {
                    None
                }
            }
            _ => None,
        },
    }
}

/// The digits in front, with what is after them.
fn digits_in_front(tokens: &[Numbered]) -> Option<(u64, &[Numbered])>
    ensures value { priority_view result ≡ digits_in_front (map numbered_token tokens.now) }
    ensures less { IfSome result (λ r. length r.1.now < length tokens.now) }
{
    match tokens {
        [] => None,
        [first, rest @ ..] => match first {
            Numbered::Digits(number) => Some((*number, rest)),
            _ => None,
        },
    }
}
