// What a run used, as lines.

use kl1_user_events::{Usage, Used};
use std::io;

/// Tells what is used of one limit.
fn tell_used<R: Eprint>(rt: &R, name: &str, used: Used) -> io::Result<()> {
    let Used { count, most } = used;
    eprintln!(rt; "kl1_run: {name}: {count} of {most}")
}

/// Tells the reductions of a run, and what its account has of what is limited.
pub fn tell_stats<R: Eprint>(rt: &R, reductions: u64, usage: &Usage) -> io::Result<()> {
    eprintln!(rt; "kl1_run: reductions: {reductions}")?;
    tell_used(rt, "goals alive", usage.goals)?;
    tell_used(rt, "shoens", usage.shoens)?;
    tell_used(rt, "names", usage.names)?;
    tell_used(rt, "variables", usage.variables)?;
    tell_used(rt, "structures", usage.structures)?;
    tell_used(rt, "reports", usage.reports)?;
    tell_used(rt, "journal entries", usage.entries)
}
