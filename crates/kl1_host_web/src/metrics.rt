// What the host has done, for Prometheus.

ghost use Rattle.std.specs.Prelude.{◌<◌};

use crate::accounts::Accounts;
use kl1_lines::put_decimal;
use std::alloc::AllocError;

/// A measure: its name, its kind and what it is.
struct Measure {
    name: &'static [u8],
    kind: &'static [u8],
    help: &'static [u8],
}

const ACCOUNTS: Measure = Measure {
    name: b"kl1_accounts",
    kind: b"gauge",
    help: b"Accounts of the host.",
};

const SESSIONS: Measure = Measure {
    name: b"kl1_sessions",
    kind: b"gauge",
    help: b"Sessions that are open.",
};

const EVENTS: Measure = Measure {
    name: b"kl1_events_total",
    kind: b"counter",
    help: b"Events that were done, those that the start restored among them.",
};

const STEPS: Measure = Measure {
    name: b"kl1_steps_total",
    kind: b"counter",
    help: b"Steps that were done, those that the start restored among them.",
};

const ENTRIES: Measure = Measure {
    name: b"kl1_journal_entries",
    kind: b"gauge",
    help: b"Entries of the journal of an account.",
};

const BYTES: Measure = Measure {
    name: b"kl1_journal_bytes",
    kind: b"gauge",
    help: b"Bytes of the journal of an account on disk.",
};

/// Puts the lines that say what a measure is.
fn put_kind(out: &mut Vec<u8>, measure: &Measure) -> Result<(), AllocError> {
    out.extend_from_slice(b"# HELP ")?;
    out.extend_from_slice(measure.name)?;
    out.extend_from_slice(b" ")?;
    out.extend_from_slice(measure.help)?;
    out.extend_from_slice(b"\n# TYPE ")?;
    out.extend_from_slice(measure.name)?;
    out.extend_from_slice(b" ")?;
    out.extend_from_slice(measure.kind)?;
    out.extend_from_slice(b"\n")
}

/// Puts a measure of the host.
fn put_sum(out: &mut Vec<u8>, measure: &Measure, value: u64) -> Result<(), AllocError> {
    put_kind(out, measure)?;
    out.extend_from_slice(measure.name)?;
    out.extend_from_slice(b" ")?;
    put_decimal(out, value)?;
    out.extend_from_slice(b"\n")
}

/// Puts a measure of an account.
fn put_each<A: Accounts>(
    out: &mut Vec<u8>,
    measure: &Measure,
    accounts: &A,
    account: usize,
    value: u64,
) -> Result<(), AllocError>
    requires { account < (A.house accounts.now).accounts }
{
    out.extend_from_slice(measure.name)?;
    out.extend_from_slice(b"{account=\"")?;
    accounts.put_name(account, out)?;
    out.extend_from_slice(b"\"} ")?;
    put_decimal(out, value)?;
    out.extend_from_slice(b"\n")
}

/// Puts what the host has done after the bytes.
pub(crate) fn put_metrics<A: Accounts>(out: &mut Vec<u8>, accounts: &A) -> Result<(), AllocError> {
    let sums = accounts.sums();
    put_sum(out, &ACCOUNTS, sums.accounts)?;
    put_sum(out, &SESSIONS, sums.sessions)?;
    put_sum(out, &EVENTS, sums.events)?;
    put_sum(out, &STEPS, sums.steps)?;
    put_kind(out, &ENTRIES)?;
    for account in 0..accounts.count() {
        if accounts.has(account) {
            put_each(
                out,
                &ENTRIES,
                accounts,
                account,
                accounts.measures(account).entries,
            )?;
        }
    }
    put_kind(out, &BYTES)?;
    for account in 0..accounts.count() {
        if accounts.has(account) {
            put_each(
                out,
                &BYTES,
                accounts,
                account,
                accounts.measures(account).bytes,
            )?;
        }
    }
    Ok(())
}
