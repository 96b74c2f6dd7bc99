// Wrong keys that are remembered.

ghost use Rattle.std.specs.Prelude.{◌≤◌, length, vec_capacity};
ghost use Rattle.kl1_host_front.specs.declared.wrong_keys.TheConstants.{MOST_REMEMBERED};

/// How many names and addresses with wrong keys are remembered.
pub const MOST_REMEMBERED: usize = 1_024;

/// The wrong keys that count: more make no longer pause.
pub const MOST_COUNTED: u8 = 8;

/// After how many milliseconds without another wrong key those of a name or an address are forgotten: ten minutes.
pub const FORGOTTEN_AFTER: u64 = 600_000;

/// The longest pause, in milliseconds.
pub(crate) const LONGEST_PAUSE: u64 = 10_000;

/// Who tries a key: from an address, for an account if the name is one's, each by its number.
#[derive(Clone, Copy)]
pub struct Trier {
    pub address: u128,
    pub account: Option<u128>,
}

/// Wrong keys of a name or an address.
#[derive(Clone, Copy)]
pub(crate) struct Wrong {
    /// The number of the name or the address.
    pub(crate) who: u128,
    /// How many in a row, at most `MOST_COUNTED`.
    pub(crate) count: u8,
    /// When the last was tried, in milliseconds.
    pub(crate) last: u64,
}

/// Wrong keys by the numbers of those for whom they were tried, the last first. There is room for as many as are remembered.
#[derive(Drop)]
pub struct Pauses {
    pub(crate) wrongs: Vec<Wrong>,
    ghost few: { length wrongs.items ≤ MOST_REMEMBERED },
    ghost room: { MOST_REMEMBERED ≤ vec_capacity wrongs },
}
