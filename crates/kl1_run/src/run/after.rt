// What is told of an account in which a run is over.

use crate::run::origins::Again;
use crate::run::words::RUN;
use kl1_command::Views;
use kl1_run_work::{Ending, Stop};
use kl1_user_events::{ShoenNo, Usage};
use kl1_watch::{Names, Origins, Standing, Told, put_standing, standing_of};
use std::alloc::{AllocError, Global};

/// How what stands still is told.
#[derive(Drop)]
pub struct Looks {
    /// The most goals that wait of which it is told for what.
    pub most: usize,
    /// The names of the goal's variables.
    pub names: Names,
    /// What finds where variables and exceptions came from.
    pub origins: Again,
}

/// What is told of an account in which a run is over.
#[derive(Drop)]
pub struct After {
    /// What stands still, if the goal's shoen didn't terminate and all steps are done.
    pub standing: Option<Standing>,
    /// The lines that tell of it.
    pub lines: Vec<u8>,
    /// What the first shoen was charged, in reductions.
    pub reductions: u64,
    /// What the account has of what is limited.
    pub usage: Usage,
}

/// Whether nothing goes on though the shoen that ended so didn't terminate.
fn stands(ending: &Result<Ending, Stop>) -> bool {
    match ending {
        Ok(Ending::Raised | Ending::Waits(_) | Ending::Exhausted) => true,
        Ok(Ending::Terminated | Ending::Unfinished) => false,
        Err(_stop) => false,
    }
}

/// What the first shoen was charged.
fn charged_first<H: Views>(host: &H) -> Result<u64, AllocError> {
    match host.shoens_from(ShoenNo(0), 1)?.as_slice() {
        [first, ..] => Ok(first.charged),
        [] => Ok(0),
    }
}

/// What is told of an account in which a run is over.
pub fn after_run<H: Views>(
    alloc: Global,
    host: &mut H,
    ending: &Result<Ending, Stop>,
    looks: &mut Looks,
) -> Result<After, AllocError> {
    let mut lines = Vec::new(alloc);
    let usage = host.usage();
    let reductions = charged_first(host)?;
    if !stands(ending) {
        return Ok(After {
            standing: None,
            lines,
            reductions,
            usage,
        });
    }
    let standing = standing_of(alloc, host, looks.most)?;
    let notes = looks.origins.notes_of(&standing)?;
    let told = Told {
        program: RUN.name.as_bytes(),
        names: &looks.names,
        notes: &notes,
    };
    put_standing(alloc, host, &standing, &told, &mut lines)?;
    Ok(After {
        standing: Some(standing),
        lines,
        reductions,
        usage,
    })
}
