// Sources that are loaded.

use crate::source_file::SourceFile;
use crate::stop::Stop;
use kl1_command::UnbookedHost;
use kl1_user_events::{Event, Refusal, Reply};
use std::alloc::{AllocError, Global};

/// Why a reply refuses, if it does.
pub(crate) fn refusal_in(reply: &Reply) -> Option<Refusal> {
    match reply {
        Reply::Refused(refusal) => Some(*refusal),
        _ => None,
    }
}

/// Loads a source, or answers why it is refused.
fn load<H: UnbookedHost>(
    alloc: Global,
    host: &mut H,
    text: &[u8],
) -> Result<Option<Refusal>, AllocError> {
    let source = Vec::from_slice(alloc, text)?;
    let reply = host.apply(&Event::Load { source })?;
    Ok(refusal_in(&reply))
}

/// Loads the sources in order, until one is refused.
pub(crate) fn load_each<H: UnbookedHost>(
    alloc: Global,
    host: &mut H,
    files: &[SourceFile],
) -> Result<(), Stop> {
    for (place, file) in files.iter().enumerate() {
        match load(alloc, host, file.text.as_slice()) {
            Ok(None) => {}
            Ok(Some(refusal)) => return Err(Stop::Source { place, refusal }),
            Err(_) => return Err(Stop::Memory),
        }
    }
    Ok(())
}
