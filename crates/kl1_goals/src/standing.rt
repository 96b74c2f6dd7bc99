// What goals could do.

ghost use Rattle.std.specs.Prelude.{◌≡◌};
ghost use Rattle.kl1_goals.specs.Readies.{clause_in};

/// What a goal could do as of the last change, whether it may step or not.
#[derive(Clone, Copy)]
pub enum Standing {
    /// It waits, or is no goal.
    Waits,
    /// It calls, and commits to the clause with this number, from 1, of the predicate at a place among the account's modules.
    Commits(u64, u64),
    /// It calls, and each clause rejects it.
    Fails,
    /// It unifies its two arguments.
    Unifies,
    /// Its first argument becomes this integer.
    Becomes(i64),
    /// It raises an exception of overflow.
    Overflows,
    /// It raises an exception of illegal input.
    Misuses,
    /// It uses the text that its codes spell as a name.
    Names,
    /// It opens a shoen.
    Opens,
    /// It goes.
    Goes,
    /// A monitor reads its control stream.
    Reads,
    /// A substitute gives way to a goal of what it waited for.
    GivesWay,
}

impl Standing {
    /// The number of the clause by which the goal could step, from 1, and 0 if it needs none; nothing if it waits.
    pub fn clause(&self) -> Option<u64>
        ensures { result ≡ clause_in self.now }
    {
        match *self {
            Standing::Waits => None,
            Standing::Commits(clause, _) => Some(clause),
            Standing::Fails => Some(0),
            Standing::Unifies => Some(0),
            Standing::Becomes(_) => Some(0),
            Standing::Overflows => Some(0),
            Standing::Misuses => Some(0),
            Standing::Names => Some(0),
            Standing::Opens => Some(0),
            Standing::Goes => Some(0),
            Standing::Reads => Some(0),
            Standing::GivesWay => Some(0),
        }
    }
}
