// A profile as JSON.

use crate::predicates::Predicates;
use crate::profile::Row;
use crate::texts::put_name;
use kl1_user_events::{Usage, Used};
use serde_json::{Value, json, push};
use std::alloc::{AllocError, Global};
use std::str;

/// What is used of a limit.
fn used_json(alloc: Global, used: Used) -> Result<Value, AllocError> {
    json!(in alloc; {"count": (used.count), "most": (used.most)})
}

/// What a predicate did.
fn row_json(alloc: Global, predicates: &Predicates, row: &Row) -> Result<Value, AllocError> {
    let mut name = Vec::new(alloc);
    put_name(predicates.calling(row.predicate), &mut name)?;
    let name = str::from_utf8(name.as_slice()).unwrap_or("");
    let counts = row.counts;
    json!(in alloc; {
        "predicate": name,
        "reductions": (counts.reductions),
        "new": (counts.new),
        "waited": (counts.waited),
        "exceptions": (counts.exceptions)
    })
}

/// What each predicate did, and all steps, with the most goals that were alive after one, and what the account has of its limits.
pub fn profile_json(
    alloc: Global,
    predicates: &Predicates,
    rows: &[Row],
    steps: u64,
    alive: u64,
    usage: &Usage,
) -> Result<Value, AllocError> {
    let mut values = Vec::new(alloc);
    for row in rows {
        push(&mut values, row_json(alloc, predicates, row)?)?;
    }
    let goals = used_json(
        alloc,
        Used {
            count: alive,
            most: usage.goals.most,
        },
    )?;
    let variables = used_json(alloc, usage.variables)?;
    let structures = used_json(alloc, usage.structures)?;
    let shoens = used_json(alloc, usage.shoens)?;
    let reports = used_json(alloc, usage.reports)?;
    let values = Value::Array(values);
    json!(in alloc; {
        "predicates": values,
        "reductions": steps,
        "goals": goals,
        "variables": variables,
        "structures": structures,
        "shoens": shoens,
        "reports": reports
    })
}
