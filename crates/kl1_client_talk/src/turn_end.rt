// How a turn of a talk ends.

/// How a turn of a talk ends, in which one line of the user is answered.
#[derive(Clone, Copy)]
pub enum TurnEnd {
    /// The talk goes on.
    GoesOn,
    /// The talk goes on, and a file could not be loaded or written.
    LacksFile,
    /// The talk goes on, and a shoen that was waited for has not ended.
    StandsStill,
    /// The talk is over.
    Over,
}

impl TurnEnd {
    /// Whether the talk is over.
    pub(crate) fn is_over(self) -> bool {
        match self {
            TurnEnd::Over => true,
            TurnEnd::GoesOn | TurnEnd::LacksFile | TurnEnd::StandsStill => false,
        }
    }

    /// Whether a file could not be loaded or written in this turn or, as `before` tells, in an earlier one.
    pub(crate) fn lacks_file(self, before: bool) -> bool {
        match self {
            TurnEnd::LacksFile => true,
            TurnEnd::GoesOn | TurnEnd::StandsStill | TurnEnd::Over => before,
        }
    }

    /// Whether a shoen that was waited for has not ended, in this turn or, as `before` tells, in an earlier one.
    pub(crate) fn stands_still(self, before: bool) -> bool {
        match self {
            TurnEnd::StandsStill => true,
            TurnEnd::GoesOn | TurnEnd::LacksFile | TurnEnd::Over => before,
        }
    }
}
