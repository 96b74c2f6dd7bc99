// What went wrong in a talk, and the status of a program that held it.

ghost use Rattle.std.specs.Prelude.{◌≡◌, IfOk, IsErr, true, if◌then◌else◌};

use crate::fault::Fault;

/// The status if each reply was none of a refusal.
pub const ALL_WELL: u8 = 0;

/// The status if a reply was a refusal.
pub const REFUSED: u8 = 1;

/// The status if the words of the program, the account's name or its key are no good.
pub const BAD_WORDS: u8 = 2;

/// The status if the talk ended before its commands did, and if a file could not be loaded or written.
pub const TROUBLE: u8 = 3;

/// The status if a shoen that was waited for has not ended.
pub const STOOD_STILL: u8 = 4;

/// What went wrong in a talk that came to its end.
#[derive(Clone, Copy)]
pub struct TalkSummary {
    /// Whether a reply was a refusal.
    pub was_refused: bool,
    /// Whether a file could not be loaded or written.
    pub lacked_file: bool,
    /// Whether a shoen that was waited for had not ended when its wait did.
    pub stood_still: bool,
}

/// The status of a talk.
pub fn status_of(talked: Result<TalkSummary, Fault>) -> u8
    ensures fault { IsErr talked → result ≡ 3 }
    ensures ok { IfOk talked (λ o. result ≡ (if o.stood_still then 4 else if o.lacked_file then 3 else if o.was_refused then 1 else 0)) }
{
    match talked {
        Err(_) => TROUBLE,
        Ok(
            TalkSummary {
                stood_still: true,
                ..
            },
        ) => STOOD_STILL,
        Ok(
            TalkSummary {
                lacked_file: true,
                ..
            },
        ) => TROUBLE,
        Ok(
            TalkSummary {
                was_refused: true,
                ..
            },
        ) => REFUSED,
        Ok(_) => ALL_WELL,
    }
}
