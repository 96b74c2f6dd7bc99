// The rule of the shared table, and what each step on it tells.

ghost use Rattle.kl1_atoms.specs.Rule.{Kept};
ghost use Rattle.kl1_atoms.specs.Plays.{LooksAt, ReadsAt, DraftsAt, PublishesAt, LearnsAt};
ghost use Rattle.kl1_atoms.specs.Seats.{all_faces, own_part, other_part, joint_view, spent_view};

use crate::face::{Size, View};
use atomic_table::{Join, Play, Split, TableRule};

/// The rule of the shared table; the key is its size.
pub struct Law;

impl TableRule<(), View, Size> for Law {
    ghost holds = { λ size. Kept size.entries };

    ghost first = { λ size. all_faces size };
}

/// A look at a bucket.
pub struct Look;

impl Play<(), View> for Look {
    ghost then = { LooksAt };
}

/// A read of an entry's word.
pub struct Read;

impl Play<(), View> for Read {
    ghost then = { ReadsAt };
}

/// A word of one's own entry.
pub struct Draft;

impl Play<(), View> for Draft {
    ghost then = { DraftsAt };
}

/// One's own entry in a free bucket.
pub struct Publish;

impl Play<(), View> for Publish {
    ghost then = { PublishesAt };
}

/// A second look at a bucket, by which its text is known.
pub struct Learn;

impl Play<(), View> for Learn {
    ghost then = { LearnsAt };
}

/// A seat cut in two: its own account, and the others.
pub struct Parted;

impl Split<View> for Parted {
    ghost left = { own_part };

    ghost right = { other_part };
}

/// Two seats made one, which speaks for the accounts of both.
pub struct Joined;

impl Join<View> for Joined {
    ghost both = { joint_view };

    ghost spent = { spent_view };
}
