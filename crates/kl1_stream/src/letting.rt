// Reports that are let go.

ghost use Rattle.std.specs.Prelude.{◌≡◌, ℕ, List, false, IfSome, MatchOption};
ghost use Rattle.kl1_model.specs.Forgetting.{waits};
ghost use Rattle.kl1_text.specs.Reading.{Reads};
ghost use Rattle.kl1_store.specs.Held.{IsIn};
ghost use Rattle.kl1_store.specs.Meaning.{term_of};
ghost use Rattle.kl1_stream.specs.Letting.{may_leave, LeavesAfter};

use crate::answers::asked;
use crate::elements::next_element;
use kl1_store::{Cell, Store};
use kl1_text::NameValue;

/// Whether a substitute waits by a report.
fn waits<N: NameValue>(store: &Store<N>, report: Cell<N>) -> bool
    requires { IsIn store.now.held report }
    ensures { (f : N → List ℕ) → Reads N.built f → result ≡ waits (term_of f store.now.held report) }
{
    asked(store, report).is_some()
}

/// What is left of a stream of reports after its first `count`, if they are there, and, where substitutes wait, none waits by one of them.
pub fn without_reports<N: NameValue>(
    store: &Store<N>,
    reports: Cell<N>,
    count: u64,
    lives: bool,
) -> Option<Cell<N>>
    requires { IsIn store.now.held reports }
    ensures inside { IfSome result (IsIn store.now.held) }
    ensures goes { (f : N → List ℕ) → Reads N.built f → MatchOption result (may_leave lives count (term_of f store.now.held reports) ≡ false) (LeavesAfter f store.now.held lives count (term_of f store.now.held reports)) }
{
    let mut at = reports;
    let mut left = count;
    while 0 < left {
        let (report, rest) = next_element(store, at)?;
        if lives && waits(store, report) {
            return None;
        }
        at = rest;
        left -= 1;
    }
    Some(at)
}
