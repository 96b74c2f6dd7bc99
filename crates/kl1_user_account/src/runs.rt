// How a journal counts reductions: in runs, or as entries of their own.

ghost use Rattle.std.specs.Prelude.{◌≡◌, ◌==◌, ◌||◌, ◌<◌, ◌^◌, not, suc, if◌then◌else◌};
ghost use Rattle.kl1_model.specs.Event.{run_after};

use kl1_model::limits::MOST_RUN;

/// How many reductions the last run has after one more, if it had `run`, or if `run` is 0 and there was no run; after the longest a
/// new one begins.
fn run_after(run: u32) -> u32
    ensures { result ≡ run_after run }
{
    if run as u64 >= MOST_RUN {
        return 1;
    }
    run + 1
}

/// Whether a reduction needs one entry more: it is in no run, or in a new one.
pub(crate) fn needs_entry(in_run: bool, run: u32) -> bool
    ensures { result ≡ (not in_run || run_after run == 1) }
{
    if !in_run {
        return true;
    }
    run_after(run) == 1
}

/// Counts an entry that is no run.
pub(crate) fn note_entry(entries: &mut u64, run: &mut u32)
    requires { entries.old < 2 ^ 63 }
    ensures entries { entries.new ≡ suc entries.old }
    ensures run { run.new ≡ 0 }
{
    *entries += 1;
    *run = 0;
}

/// Counts a reduction, in a run or as an entry.
pub(crate) fn note_reduction(entries: &mut u64, run: &mut u32, in_run: bool)
    requires { entries.old < 2 ^ 63 }
    ensures entries { entries.new ≡ (if not in_run || run_after run.old == 1 then suc entries.old else entries.old) }
    ensures run { run.new ≡ (if in_run then run_after run.old else 0) }
{
    if !in_run {
        note_entry(entries, run);
        return;
    }
    let after = run_after(*run);
    *run = after;
    if after != 1 {
        return;
    }
    *entries += 1;
}
