//! Definitions of journals, commands, scripts and replays, and of what an account does alone; and that an account is the replay of its journal.
#![tactic(auto)]

ghost use Rattle.kl1_model_server.specs.laws.HistoryLaws.{StaysBeside, FreshIsReplay, ReplaysStay, NamesStay, RulesStay};
ghost use Rattle.kl1_model_server.specs.laws.ReplayLaws.{RepliesOfReplays, FreshIsReplayable, ReplayableStays};
ghost use Rattle.kl1_model_server.specs.laws.TextLaws.{EntriesReadBack, StrictLinesAreEntries, NamesReadBack, StrictLinesAreNames, HeadingsReadBack, StrictLinesAreHeadings, LinesOfLines, TextsAreLines, JournalsReadBack, StrictTextsAreJournals, FreshIsWritten, WrittenStays};

/// An account is the replay of its journal: so is a fresh one, and it stays so through each event. What an entry does
/// depends neither on the own name nor on the number of open sessions, and no event changes the own name or the rules. It does
/// nothing: its contract is for callers' proofs.
pub fn replays_stay()
    ensures beside { StaysBeside }
    ensures names { NamesStay }
    ensures rules { RulesStay }
    ensures fresh { FreshIsReplay }
    ensures stay { ReplaysStay }
{}

/// The text of a journal reads back as that journal, and no other text is read as one: so are the lines of its entries and names and
/// its first line, and lines as they are written are the lines of that text. It does nothing: its contract is this law.
pub fn journal_texts_read_back()
    ensures entries { EntriesReadBack }
    ensures strict_entries { StrictLinesAreEntries }
    ensures names { NamesReadBack }
    ensures strict_names { StrictLinesAreNames }
    ensures headings { HeadingsReadBack }
    ensures strict_headings { StrictLinesAreHeadings }
    ensures lines { LinesOfLines }
    ensures texts { TextsAreLines }
    ensures journals { JournalsReadBack }
    ensures strict_journals { StrictTextsAreJournals }
{}

/// The journal of an account has a text: so has that of a fresh one, and each event, whatever becomes of it, leaves a journal that has
/// one, if the source of a load is bytes. It does nothing: its contract is this law.
pub fn journals_stay_written()
    ensures fresh { FreshIsWritten }
    ensures stay { WrittenStays }
{}

/// For the text of an account's journal there are written the replies to its entries, and then how many they are: the entries of such a
/// journal are all accepted if it is replayed, and stay so through each event. It does nothing: its contract is this law.
pub fn replays_tell_replies()
    ensures replies { RepliesOfReplays }
    ensures fresh { FreshIsReplayable }
    ensures stay { ReplayableStays }
{}
