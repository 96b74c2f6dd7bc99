// What an account has of what is limited.

/// How much there is of what is counted, and the most that there may be.
#[derive(Clone, Copy)]
pub struct Used {
    pub count: u64,
    pub most: u64,
}

/// What an account has of what is limited: goals at one time, monitors not among them; names that it uses; since the last reset the
/// shoens that were opened, the variables and the structures that starts, messages, answers and commits had, and the reports that were
/// made; and entries of the journal.
#[derive(Clone, Copy)]
pub struct Usage {
    pub goals: Used,
    pub names: Used,
    pub shoens: Used,
    pub variables: Used,
    pub structures: Used,
    pub reports: Used,
    pub entries: Used,
}
