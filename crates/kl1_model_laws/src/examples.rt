//! Example scripts and journals, rows of accounts, and rows of arithmetic, tests, verdicts and the grammar.
ghost use Rattle.kl1_model_laws.specs.AccountRows.{AccountRowsHold};
ghost use Rattle.kl1_model_laws.specs.Examples.{ExamplesHold};
ghost use Rattle.kl1_model_laws.specs.GuardRows.{GuardRowsHold};
ghost use Rattle.kl1_model_laws.specs.HistoryRows.{HistoryRowsHold};
ghost use Rattle.kl1_model_laws.specs.JournalExamples.{JournalsHold};
ghost use Rattle.kl1_model_laws.specs.RunRows.{RunRowsHold};
ghost use Rattle.kl1_model_laws.specs.ShoenRows.{ShoenRowsHold};
ghost use Rattle.kl1_model_laws.specs.SpellingRows.{SpellingRowsHold};
ghost use Rattle.kl1_model_laws.specs.StreamRows.{StreamRowsHold};
ghost use Rattle.kl1_model_laws.specs.SubstituteRows.{SubstituteRowsHold};

/// Each script in `examples/scripts` has the output that stands beside it, computed from the definitions. It does nothing: this is
/// its contract.
pub fn example_scripts_hold()
    ensures { ExamplesHold }
{}

/// For each journal in `examples/journals` a replay writes what stands beside it, computed from the definitions. It does nothing:
/// this is its contract.
pub fn example_journals_hold()
    ensures { JournalsHold }
{}

/// Accounts come to what the rows say, by the events that they say, computed from the definitions. It does nothing: this is its
/// contract.
pub fn account_rows_hold()
    ensures { AccountRowsHold }
{}

/// Sessions, resets, journals and replays come to what the rows say, and so do the lines of journals, computed from the
/// definitions. It does nothing: this is its contract.
pub fn history_rows_hold()
    ensures { HistoryRowsHold }
{}

/// Accounts that keep to the fourth rules come to what the rows say, and so do their journals, computed from the definitions. It does
/// nothing: this is its contract.
pub fn run_rows_hold()
    ensures { RunRowsHold }
{}

/// Accounts at their limits, and their shoens, come to what the rows say, computed from the definitions. It does nothing: this is
/// its contract.
pub fn shoen_rows_hold()
    ensures { ShoenRowsHold }
{}

/// Accounts come to what the rows say by exceptions and by answers to them, computed from the definitions. It does nothing: its
/// contract is this law.
pub fn substitute_rows_hold()
    ensures { SubstituteRowsHold }
{}

/// What `atom_from` makes of lists of codes by each of the rules, and what it waits for, is what the rows say, computed from the
/// definitions. It does nothing: its contract is this law.
pub fn spelling_rows_hold()
    ensures { SpellingRowsHold }
{}

/// Arithmetic, tests, verdicts and the reader come to what the rows say, computed from the definitions. It does nothing: this is
/// its contract.
pub fn guard_rows_hold()
    ensures { GuardRowsHold }
{}

/// Bytes of a session come to the inputs that the rows say, and to what is left of them, computed from the definitions. It does
/// nothing: this is its contract.
pub fn stream_rows_hold()
    ensures { StreamRowsHold }
{}
