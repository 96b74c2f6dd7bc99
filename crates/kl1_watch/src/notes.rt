// What is known of where variables and exceptions came from.

use crate::standing::Standing;
use kl1_user_events::Usage;
use std::alloc::AllocError;

/// What is told of a variable after its number, or of the exception for which a goal waits.
#[derive(Drop)]
pub struct Note {
    /// The number of the variable, or of the goal.
    pub number: u64,
    pub text: Vec<u8>,
}

/// What is told of variables and exceptions.
#[derive(Drop)]
pub struct Notes {
    pub variables: Vec<Note>,
    pub exceptions: Vec<Note>,
    /// What the account had when the first of these exceptions that are by a limit was raised, if one was.
    pub limit: Option<Usage>,
}

/// What finds where the variables and exceptions of an account that stands still came from.
pub trait Origins {
    /// What is told of them.
    fn notes_of(&mut self, standing: &Standing) -> Result<Notes, AllocError>;
}

/// The text of the note of a number, if there is one.
pub(crate) fn note_of(notes: &[Note], number: u64) -> Option<&[u8]> {
    for note in notes {
        if note.number == number {
            return Some(note.text.as_slice());
        }
    }
    None
}
