// The files to which journals and pictures are written.

use kl1_words::{Fault, FileId, NotOpened, Program, named_line, open_over, put_named_line};
use std::fs::File;

/// What is written to a file.
#[derive(Clone, Copy)]
pub struct Kind {
    /// How each begins.
    beginning: &'static [u8],
    /// Why a file that has something else in it isn't written over.
    is_other: &'static str,
}

/// Journals.
pub const JOURNAL: Kind = Kind {
    beginning: b"journal ",
    is_other: "it is neither empty nor a journal, and stays as it is",
};

/// Pictures.
pub const PICTURE: Kind = Kind {
    beginning: b"<svg ",
    is_other: "it is neither empty nor a picture, and stays as it is",
};

/// Why a module isn't written over.
const IS_MODULE: &str = "it is a module that is to be run, and stays as it is";

/// The file of a name, made or emptied. A module, and whatever isn't empty and of another kind, is refused.
pub fn file_for(
    rt: &HostRuntime,
    program: &Program,
    kind: Kind,
    name: &str,
    modules: &[FileId],
) -> Result<File, Fault> {
    let alloc = rt.alloc();
    let why = match open_over(rt, name, modules, kind.beginning) {
        Ok(Ok(file)) => return Ok(file),
        Ok(Err(NotOpened::Kept)) => IS_MODULE,
        Ok(Err(NotOpened::Other)) => kind.is_other,
        Err(error) => {
            let mut line = Vec::new(alloc);
            put_named_line(alloc, program, name, &error, &mut line)?;
            return Err(Fault::Lines(line));
        }
    };
    Err(named_line(alloc, program, name, why))
}
