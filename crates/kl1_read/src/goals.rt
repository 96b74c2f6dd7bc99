// Goals.

ghost use Rattle.std.specs.Prelude.{◌≡◌, map, IfOk, IfErr};
ghost use Rattle.kl1_model.specs.Module.{good, startable, term_of_tokens, read_goal};
ghost use Rattle.kl1_model.specs.Telling.{told_term, read_told_goal, read_answer};
ghost use Rattle.kl1_read.specs.Sources.{IsFaultOf};
ghost use Rattle.kl1_read.specs.Started.{started, expression_read};
ghost use Rattle.kl1_read.specs.Views.{kept_token, numbered_token};

use crate::expression::read_expression;
use crate::goal_kinds::is_goal;
use crate::kept::Kept;
use crate::numbered::Numbered;
use crate::numbering::numbered_tokens;
use crate::read_fault::ReadFault;
use crate::telling::told_tokens;
use crate::whole_text::{WholeText, all_tokens};
use kl1_model::Rules;
use kl1_term::Term;
use std::alloc::Global;

/// The goal that a text is: one expression that may be started, without an end. Its variables are numbered from 1 by
/// first occurrence.
pub fn read_goal(alloc: Global, text: &[u8]) -> Result<Term, ReadFault>
    ensures goal { IfOk result (λ goal. read_goal text.now ≡ good goal) }
    ensures fault { IfErr result (IsFaultOf (read_goal text.now)) }
{
    let WholeText { line, tokens } = all_tokens(alloc, text)?;
    match tokens {
        None => Err(ReadFault::Bad { line }),
        Some(tokens) => goal_of(alloc, line, tokens),
    }
}

/// The goal that a text is in an answer that tells variables of the account: like `read_goal`, but a variable `_n` has the number n, from 1
/// below 2^62, and the others have the numbers from 2^62 on, by first occurrence.
pub fn read_told_goal(alloc: Global, text: &[u8]) -> Result<Term, ReadFault>
    ensures goal { IfOk result (λ goal. read_told_goal text.now ≡ good goal) }
    ensures fault { IfErr result (IsFaultOf (read_told_goal text.now)) }
{
    let WholeText { line, tokens } = all_tokens(alloc, text)?;
    match tokens {
        None => Err(ReadFault::Bad { line }),
        Some(tokens) => told_goal_of(alloc, line, tokens),
    }
}

/// The goal that a text is in an answer, as these rules read it.
pub fn read_answer(alloc: Global, rules: Rules, text: &[u8]) -> Result<Term, ReadFault>
    ensures goal { IfOk result (λ goal. read_answer rules text.now ≡ good goal) }
    ensures fault { IfErr result (IsFaultOf (read_answer rules text.now)) }
{
    if rules.has_told() {
        read_told_goal(alloc, text)
    } else {
        read_goal(alloc, text)
    }
}

/// The goal that tokens are, of which the first one is on this line.
fn goal_of(alloc: Global, line: u64, tokens: Vec<Kept>) -> Result<Term, ReadFault>
    ensures goal { IfOk result (λ goal. startable line (term_of_tokens (map kept_token tokens.items)) ≡ good goal) }
    ensures fault { IfErr result (IsFaultOf (startable line (term_of_tokens (map kept_token tokens.items)))) }
{
    let numbered = numbered_tokens(alloc, tokens.as_slice())?;
    drop(tokens);
    start_of(alloc, line, numbered.as_slice())
}

/// The goal that tokens are that tell variables, of which the first one is on this line.
fn told_goal_of(alloc: Global, line: u64, tokens: Vec<Kept>) -> Result<Term, ReadFault>
    ensures goal { IfOk result (λ goal. startable line (told_term (map kept_token tokens.items)) ≡ good goal) }
    ensures fault { IfErr result (IsFaultOf (startable line (told_term (map kept_token tokens.items)))) }
{
    let told = told_tokens(alloc, tokens.as_slice())?;
    drop(tokens);
    start_of(alloc, line, told.as_slice())
}

/// The goal that numbered tokens are, if they are one.
fn start_of(alloc: Global, line: u64, tokens: &[Numbered]) -> Result<Term, ReadFault>
    ensures goal { IfOk result (λ goal. started line (expression_read (map numbered_token tokens.now)) ≡ good goal) }
    ensures fault { IfErr result (IsFaultOf (started line (expression_read (map numbered_token tokens.now)))) }
{
    match read_expression(alloc, tokens)? {
        None => Err(ReadFault::Bad { line }),
        Some(piece) => {
            let term = piece.into_term(alloc)?;
            if is_goal(&term) {
                Ok(term)
            } else {
                Err(ReadFault::Bad { line })
            }
        }
    }
}
