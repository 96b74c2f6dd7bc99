//! Laws of accounts with other numbers for their variables.
ghost use Rattle.kl1_model.specs.laws.RelabelLaws.{MguRenamed, MatchRenamed, VerdictRenamed, StepRelabelled, ShiftsStay, FirstRelabelled, QuietRelabelled, RunRelabelled, GivenIsRenamed, AnswerRelabelled};
ghost use Rattle.kl1_model.specs.laws.WorkLaws.{OrderOfWorkIsNothing, OrderOfWorkIsNotSeen};

/// Equations, matches and verdicts of terms with other numbers for their variables, in the same order, come to the same with these
/// numbers. It does nothing: its contract is this law.
pub fn terms_keep_to_other_numbers()
    ensures equations { MguRenamed }
    ensures matches { MatchRenamed }
    ensures verdicts { VerdictRenamed }
{}

/// What an event does to an account, and the reply, are the same with other numbers in the same order, if those after the last
/// are shifted; so they stay unless the account begins anew. Of an answer that tells variables by their numbers it holds with the
/// goal that it comes to. It does nothing: its contract is this law.
pub fn steps_keep_to_other_numbers()
    ensures steps { StepRelabelled }
    ensures shifts { ShiftsStay }
    ensures given { GivenIsRenamed }
    ensures answers { AnswerRelabelled }
{}

/// Which reduction comes first, whether none can be done, and which are noted in runs are the same with other numbers. It does
/// nothing: its contract is this law.
pub fn choices_keep_to_other_numbers()
    ensures first { FirstRelabelled }
    ensures quiet { QuietRelabelled }
    ensures runs { RunRelabelled }
{}

/// In which order the reductions were done that are charged makes no difference to what an event does, to its reply, or to what
/// comes first. It does nothing: its contract is this law.
pub fn order_of_work_is_nothing()
    ensures steps { OrderOfWorkIsNothing }
    ensures choices { OrderOfWorkIsNotSeen }
{}
