// A goal on an account of its own.

use crate::run::{NoWatch, copies_of};
use crate::world::fresh_world;
use kl1_run_work::{
    Answers, Extent, MOST_ALLOWANCE, SourceFile, Stop, Wanted, Work, answers_of, do_work,
};
use kl1_test_lines::{Expectation, Test};
use kl1_world::Rules;
use std::alloc::{AllocError, Global};

/// The most reductions of a test that names no number.
const MOST_REDUCTIONS: u64 = 10_000_000;

/// The allowance of a test.
pub fn allowance_of(wanted: &Expectation) -> u64 {
    match wanted {
        Expectation::Exhausted(allowance) => (*allowance).min(MOST_ALLOWANCE),
        Expectation::Bindings(_equations) => MOST_REDUCTIONS,
        Expectation::Failure => MOST_REDUCTIONS,
        Expectation::Waits(_count) => MOST_REDUCTIONS,
    }
}

/// The work of a test.
fn work_of(alloc: Global, files: &[SourceFile], test: &Test) -> Result<Work, AllocError> {
    Ok(Work {
        files: copies_of(alloc, files)?,
        goal: test.goal.clone()?,
        allowance: allowance_of(&test.wanted),
        steps: MOST_ALLOWANCE,
    })
}

/// What is told of the goal of a test, on an account of its own by the fifth rules.
pub fn answers_for(alloc: Global, files: &[SourceFile], test: &Test) -> Result<Answers, Stop> {
    let Ok(work) = work_of(alloc, files, test) else {
        return Err(Stop::Memory);
    };
    let Ok(mut world) = fresh_world(alloc, Rules::Five) else {
        return Err(Stop::Memory);
    };
    match do_work(alloc, &mut world, work, &mut NoWatch) {
        Ok(shoen) => {
            let wanted = Wanted {
                reports: false,
                value: Extent::Whole,
            };
            match answers_of(alloc, &mut world, shoen, wanted) {
                Ok(answers) => Ok(answers),
                Err(_) => Err(Stop::Memory),
            }
        }
        Err(stop) => Err(stop),
    }
}
