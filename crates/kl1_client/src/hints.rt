// What a user can do about a refusal, or about a shoen that stands still.

/// What is told of refusals, by their numbers from 1.
const HINTS: [&str; 13] = [
    "this is no command, or its numbers or its goal are none: help tells them",
    "the module is bad at this line: kl1_run --check FILE tells it too",
    "a module of this name is loaded; only reset takes it away",
    "there is no such shoen, or no start of yours made it",
    "this shoen has ended: start another",
    "this goal can't take this clause now",
    "the account would use too many names, and reset keeps them: use fewer",
    "a limit of the account would be passed: reset begins it anew",
    "the journal is full: save it, then reset",
    "the server has no memory for this now: try again later",
    "the name or the key is wrong, or a session is open already",
    "the account has 4 open sessions: end one of them",
    "this report waits for no answer, or has one; or what was to be let go is still waited for, or gone",
];

/// What is told of the refusal of a number, if it is known.
pub fn refusal_hint(number: u64) -> Option<&'static str> {
    let place = usize::try_from(number).ok()?.checked_sub(1)?;
    HINTS.get(place).copied()
}

/// What is told of a shoen that was waited for, by the reply to the last question for its status.
pub fn standstill_hint(status: &[u8], is_late: bool) -> &'static str {
    if is_late {
        "the seconds are over, and the shoen has not ended"
    } else if status.starts_with(b"+ stopped ") {
        "the shoen is stopped: resume S lets it go on"
    } else if status.starts_with(b"+ exhausted ") {
        "the shoen's allowance is used up: allow S N gives it more"
    } else {
        "no goal of the account can go on: they wait for values that nothing gives them"
    }
}
