// What was asked of accounts, for contracts alone.

ghost use Rattle.std.specs.Prelude.{◌≡◌, [], ◌++◌, ◌∷◌};
ghost use Rattle.kl1_command.specs.Commands.{command_view};
ghost use Rattle.kl1_host_web.specs.Asking.{did, looked, changed, let_in};
ghost use Rattle.kl1_host_web.specs.Records.{asked_in};

use kl1_command::{Command, Performed};
use kl1_host_door::{BookChange, BookStep, LoginKeys, WebSession};
use logbook::{Opening, Rule, Seen, Start};
use std::snapshot::Snapshot;

/// What was asked: a command was done to an account, with what was answered; an account was looked at; something was done to the book of
/// sessions; or it was told that a request was let in.
#[derive(Drop)]
enum Note {
    Did {
        account: Snapshot<usize>,
        command: Snapshot<Command>,
        performed: Snapshot<Performed>,
    },
    Looked(Snapshot<usize>),
    Changed {
        step: Snapshot<BookStep>,
        sessions: Snapshot<Vec<WebSession>>,
    },
    LetIn,
}

/// A book without words: it is there for its log.
struct Unruled;

impl Rule<Note, ()> for Unruled {
    ghost use Rattle.std.specs.Prelude.{[]};
    ghost use base.Fml.{ftrue};

    ghost holds = { λ cells log. Unit {0} };

    ghost first = { [] };

    ghost hinted = { λ n log. Unit {0} };

    ghost shows = { λ log. [] };

    ghost keeps = { λ names log. ftrue };

    ghost moves = { λ ask before after answer. Unit {0} };
}

/// What was asked of accounts, in order. It has no bytes, so only a contract can tell it.
#[derive(Drop)]
pub struct AskedRecord {
    seen: Seen<Note, (), Unruled>,
}

/// No entries.
struct Nothing;

impl Opening<(), Note> for Nothing {
    ghost log = { λ count x. [] };
}

/// An entry, and those before it.
#[derive(Drop)]
struct Longer {
    before: Snapshot<Seen<Note, (), Unruled>>,
    entry: Note,
}

/// One more entry, at the end.
struct More;

impl Opening<Longer, Note> for More {
    ghost log = { λ count l. l.before.value.log ++ l.entry ∷ [] };
}

impl AskedRecord {
    /// Nothing was asked.
    pub fn new() -> AskedRecord
        ensures { asked_in result ≡ [] }
    {
        let (seen, _pens) = Seen::open_row::<(), Nothing>(&(), Start::alone(), 0);
        AskedRecord { seen }
    }

    /// Takes in a command that was done to an account, and what was answered.
    pub fn did(
        &mut self,
        account: Snapshot<usize>,
        command: Snapshot<Command>,
        performed: &Performed,
    )
        ensures { asked_in self.new ≡ asked_in self.old ++ did account.value (command_view command.value) performed.now ∷ [] }
    {
        let longer = Longer {
            before: Snapshot::of(&self.seen),
            entry: Note::Did {
                account,
                command,
                performed: Snapshot::of(performed),
            },
        };
        let (seen, _pens) = Seen::open_row::<Longer, More>(&longer, Start::alone(), 0);
        self.seen = seen;
    }

    /// Takes in that an account was looked at.
    pub fn looked(&mut self, account: usize)
        ensures { asked_in self.new ≡ asked_in self.old ++ looked account ∷ [] }
    {
        let longer = Longer {
            before: Snapshot::of(&self.seen),
            entry: Note::Looked(Snapshot::of(&account)),
        };
        let (seen, _pens) = Seen::open_row::<Longer, More>(&longer, Start::alone(), 0);
        self.seen = seen;
    }

    /// Takes in that it was told that a request was let in.
    pub fn let_in(&mut self)
        ensures { asked_in self.new ≡ asked_in self.old ++ let_in ∷ [] }
    {
        let longer = Longer {
            before: Snapshot::of(&self.seen),
            entry: Note::LetIn,
        };
        let (seen, _pens) = Seen::open_row::<Longer, More>(&longer, Start::alone(), 0);
        self.seen = seen;
    }

    /// Takes in that something was done to the book of sessions.
    pub fn changed<K: LoginKeys>(&mut self, change: BookChange<K>)
        ensures { asked_in self.new ≡ asked_in self.old ++ changed change.step.value change.before.value.items ∷ [] }
    {
        let (step, sessions) = change.into_parts();
        let longer = Longer {
            before: Snapshot::of(&self.seen),
            entry: Note::Changed { step, sessions },
        };
        let (seen, _pens) = Seen::open_row::<Longer, More>(&longer, Start::alone(), 0);
        self.seen = seen;
    }
}
