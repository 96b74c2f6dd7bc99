// How much an account has of what is limited.

ghost use Rattle.std.specs.Prelude.{◌≡◌, nat_lt, not, None};
ghost use Rattle.kl1_model.specs.Event.{Transition, unless};
ghost use Rattle.kl1_model.specs.State.{State};
ghost use Rattle.kl1_clause.specs.NameList.{IsNameList};
ghost use Rattle.kl1_user_account.specs.Answering.{has_room_to_answer_beside};
ghost use Rattle.kl1_user_account.specs.Starting.{has_room_beside, refusals_of, refused_or, IsFree};

use kl1_model::Limits;
use kl1_text::AtomText;
use kl1_user_effects::{AccountNames, is_within};
use kl1_user_events::Refusal;

/// How much an account has of what is limited: its goals, without monitors; the variables and the structures of its starts, messages,
/// answers and commits; the shoens that it opened; and the entries of its journal; with the most that its rules allow of each.
#[derive(Clone, Copy)]
pub(crate) struct Counted {
    pub goals: u64,
    pub variables: u64,
    pub nodes: u64,
    pub shoens: u64,
    pub entries: u64,
    pub most: Limits,
}

impl Counted {
    /// Whether there is room to start a goal of `variables` variables and `nodes` structures, in a shoen of its own with two tails.
    pub(crate) fn has_room_to_start(&self, variables: u64, nodes: u64) -> bool
        ensures { result ≡ has_room_beside self.now variables nodes }
    {
        let most = self.most;
        self.goals < most.goals
            && most.variables >= 2
            && is_within(self.variables, variables, most.variables - 2)
            && is_within(self.nodes, nodes, most.nodes)
            && self.shoens < most.shoens
    }

    /// Whether there is room for an answer of `variables` variables and `nodes` structures.
    pub(crate) fn has_room_to_answer(&self, variables: u64, nodes: u64) -> bool
        ensures { result ≡ has_room_to_answer_beside self.now variables nodes }
    {
        is_within(self.variables, variables, self.most.variables)
            && is_within(self.nodes, nodes, self.most.nodes)
    }

    /// Whether the journal has no room for one entry more.
    pub(crate) fn is_full(&self) -> bool
        ensures { result ≡ not (nat_lt self.now.entries self.now.most.entries) }
    {
        self.most.entries <= self.entries
    }

    /// Why a goal of the console with these names is refused, by an account with names, if there is room for it or not. `None` if it isn't.
    pub(crate) fn refusal_of(
        &self,
        names: &AccountNames,
        texts: &[AtomText],
        has_room: bool,
    ) -> Option<Refusal>
        requires { IsNameList texts.now }
        ensures refuses { (s : State) (after : Transition) → unless s (refusals_of self.now names.now.names texts.now has_room) after ≡ refused_or s after result }
        ensures free { result ≡ None → IsFree self.now names.now.names texts.now has_room }
    {
        if names.are_too_many(texts, self.most.names) {
            return Some(Refusal::Names);
        }
        if !has_room {
            return Some(Refusal::Limit);
        }
        if self.is_full() {
            return Some(Refusal::Journal);
        }
        None
    }
}
