// Places of a journal.

/// An entry in the row of a journal: a reduction, a message or a run in numbers of 32 bits, or the number of an entry that is kept whole, from 0.
#[derive(Clone, Copy)]
pub(crate) enum PackedEntry {
    Step { goal: u32, clause: u32 },
    Stop(u32),
    Resume(u32),
    Abort(u32),
    /// How many reductions the run has.
    Run(u32),
    Kept(u32),
}

const _: () = prove!(size_of::<PackedEntry>() == 12);
