// Which clauses may follow others, and in which section.

ghost use Rattle.std.specs.Prelude.{◌≡◌, ◌≤◌, nat_lt, length, map};
ghost use Rattle.kl1_model.specs.declared.limits.TheConstants.{MOST_CLAUSES};
ghost use Rattle.kl1_read.specs.Sources.{clause_of_parts};
ghost use Rattle.kl1_read.specs.Followings.{is_one_of, section_within, holds, last_section, section_for};

use crate::clause_parts::ClauseParts;
use kl1_model::limits::MOST_CLAUSES;
use kl1_text::AtomText;

/// The section of a clause after these, directly after an `otherwise` or not, if it may follow them: there is room, clauses
/// of one name and number of arguments stand together, and an `otherwise` stands between two of them. After an `otherwise` a
/// section begins.
pub(crate) fn section_for(before: &[ClauseParts], behind: bool, clause: &ClauseParts) -> Option<u64>
    requires { last_section before.now ≤ length before.now }
    ensures { result ≡ section_for (map clause_of_parts before.now) behind (clause_of_parts clause.now) }
{
    if !has_room(before) {
        return None;
    }
    let count = clause.patterns.len();
    match section_within(before, &clause.name, count) {
        Some(section) => Some(if behind { section + 1 } else { section }),
        None => {
            if behind {
                return None;
            }
            if holds(before, &clause.name, count) {
                None
            } else {
                Some(0)
            }
        }
    }
}

/// Whether one clause more may be in a module with these.
fn has_room(clauses: &[ClauseParts]) -> bool
    ensures { result ≡ nat_lt (length clauses.now) MOST_CLAUSES }
{
    clauses.len() < MOST_CLAUSES
}

/// The section of the last of clauses, if it is one of a predicate.
fn section_within(clauses: &[ClauseParts], name: &AtomText, count: usize) -> Option<u64>
    ensures { result ≡ section_within name.now count clauses.now }
{
    match clauses {
        [] => None,
        [.., last] => {
            if is_one_of(last, name, count) {
                Some(last.section)
            } else {
                None
            }
        }
    }
}

/// Whether one of clauses is one of a predicate.
fn holds(clauses: &[ClauseParts], name: &AtomText, count: usize) -> bool
    ensures { result ≡ holds name.now count clauses.now }
{
    let mut rest = clauses;
    while let [first, others @ ..] = rest {
        if is_one_of(first, name, count) {
            return true;
        }
        rest = others;
    }
    false
}

/// Whether a clause is one of a predicate.
fn is_one_of(clause: &ClauseParts, name: &AtomText, count: usize) -> bool
    ensures { result ≡ is_one_of name.now count clause.now }
{
    clause.name.is(name) && clause.patterns.len() == count
}
