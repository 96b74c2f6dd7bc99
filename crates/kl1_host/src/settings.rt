// The settings of a folder.

use crate::fault::{BAD, Fault, fault_in_folder};
use crate::folder::{SETTINGS, path_in, read_text, refuse_pipe};
use kl1_host_front::{BadSettings, Settings, settings_in};
use std::alloc::Global;
use std::rt::Files;

/// The words for settings that aren't taken.
fn bad_settings(alloc: Global, path: &str, bad: &BadSettings) -> Result<Fault, Fault> {
    let words = match bad {
        BadSettings::Memory => return Ok(Fault::Memory),
        BadSettings::Syntax { line, why } => format!(in alloc; "{path}:{line}: {why}")?,
        BadSettings::Setting {
            line: Some(line),
            name,
            why,
        } => format!(in alloc;
            "{path}:{line}: {} {}",
            name.as_str().escape_debug(),
            why.words()
        )?,
        BadSettings::Setting {
            line: None,
            name,
            why,
        } => format!(in alloc; "{path}: {} {}", name.as_str().escape_debug(), why.words())?,
    };
    Ok(Fault::Words(BAD, words))
}

/// What the host of a folder is set to.
pub fn settings_of<R: Files>(rt: &R, alloc: Global, folder: &str) -> Result<Settings, Fault> {
    let path = path_in(alloc, folder, SETTINGS)?;
    if let Err(error) = refuse_pipe(rt, path.as_str()) {
        return Err(fault_in_folder(alloc, path.as_str(), &error));
    }
    let text = match read_text(rt, alloc, path.as_str()) {
        Ok(text) => text,
        Err(error) => return Err(fault_in_folder(alloc, path.as_str(), &error)),
    };
    match settings_in(alloc, text.as_str()) {
        Ok(settings) => Ok(settings),
        Err(bad) => Err(bad_settings(alloc, path.as_str(), &bad)?),
    }
}
