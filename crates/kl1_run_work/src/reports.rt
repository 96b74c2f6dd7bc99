// The reports of a shoen, and the exceptions among them.

ghost use Rattle.std.specs.Prelude.{◌<◌};

use crate::asked::ask;
use crate::exceptions::is_exception;
use kl1_command::UnbookedHost;
use kl1_model::limits::MOST_LISTED;
use kl1_user_events::{Listed, Query, ShoenNo};
use std::alloc::{AllocError, Global};

/// The reports that one reply lists.
pub(crate) const PAGE: u64 = 64;

/// The most replies that list the reports of an account.
const MOST_PAGES: u64 = 262_144;

/// The lines of a shoen's reports, and the exceptions among them.
#[derive(Drop)]
pub(crate) struct Reported {
    pub(crate) reports: Vec<u8>,
    pub(crate) exceptions: Vec<Vec<u8>>,
}

/// Puts a line after the bytes. After an `Err` some of it may be there.
pub(crate) fn put_line(out: &mut Vec<u8>, line: &[u8]) -> Result<(), AllocError> {
    out.extend_from_slice(line)?;
    out.extend_from_slice(b"\n")
}

/// Puts the lines of reports, and the exceptions among them, after those before. After an `Err` some of them may be there.
fn put_page(alloc: Global, texts: &[Vec<u8>], reported: &mut Reported) -> Result<(), AllocError> {
    for text in texts {
        put_line(&mut reported.reports, text.as_slice())?;
        if is_exception(text.as_slice()) {
            let exception = Vec::from_slice(alloc, text.as_slice())?;
            reported.exceptions.push(exception)?;
        }
    }
    Ok(())
}

/// The reports of a shoen from one on, the first being 1: at most 64.
fn page_from<H: UnbookedHost>(
    alloc: Global,
    host: &mut H,
    shoen: ShoenNo,
    done: u64,
) -> Result<Listed, AllocError>
    requires { done < 16777216 }
{
    let from = done + 1;
    let reply = ask(host, Query::Reports { shoen, from })?;
    Ok(reply.into_listed(alloc))
}

/// The lines of a shoen's reports, and the exceptions among them.
pub(crate) fn reported_by<H: UnbookedHost>(
    alloc: Global,
    host: &mut H,
    shoen: ShoenNo,
) -> Result<Reported, AllocError> {
    let mut reported = Reported {
        reports: Vec::new(alloc),
        exceptions: Vec::new(alloc),
    };
    for page in 0..MOST_PAGES {
        let listed = page_from(alloc, host, shoen, PAGE * page)?;
        put_page(alloc, listed.texts(), &mut reported)?;
        // No report comes after a page that isn't full.
        if listed.texts().len() < MOST_LISTED {
            return Ok(reported);
        }
    }
    Ok(reported)
}
