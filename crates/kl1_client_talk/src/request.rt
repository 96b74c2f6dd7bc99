// What is asked of a server.

use kl1_lines::put_decimal;
use std::alloc::AllocError;

/// Reports of a shoen, or lines of the journal, that are asked for one page after another.
#[derive(Clone, Copy)]
pub enum Page {
    /// Reports of this shoen.
    Reports { shoen: u64 },
    /// Lines of the journal, at most this number at a time.
    Journal { count: u64 },
}

/// What is asked of a server.
#[derive(Clone, Copy)]
pub enum Request<'a> {
    /// What this line says.
    Line(&'a [u8]),
    /// To load this source.
    Load(&'a [u8]),
    /// The page that begins at this number.
    Page(Page, u64),
    /// The status of the shoen of this number.
    Status(u64),
    /// To log in to the account of this name by this key.
    Login(&'a [u8], &'a [u8]),
}

/// Puts the text of a request after the bytes.
pub fn put_request(out: &mut Vec<u8>, request: Request<'_>) -> Result<(), AllocError> {
    match request {
        Request::Line(line) => put_line(out, line),
        Request::Load(source) => put_load(out, source),
        Request::Page(page, from) => put_page(out, page, from),
        Request::Status(shoen) => put_status(out, shoen),
        Request::Login(name, key) => put_login(out, name, key),
    }
}

/// Puts a line and its end after the bytes.
fn put_line(out: &mut Vec<u8>, line: &[u8]) -> Result<(), AllocError> {
    out.extend_from_slice(line)?;
    out.push(b'\n')?;
    Ok(())
}

/// Puts the load of a source after the bytes: its line, the source and a line's end.
fn put_load(out: &mut Vec<u8>, source: &[u8]) -> Result<(), AllocError> {
    out.extend_from_slice(b"load ")?;
    put_decimal(out, source.len() as u64)?;
    out.push(b'\n')?;
    put_line(out, source)
}

/// Puts the line that asks for a page from a number on after the bytes.
fn put_page(out: &mut Vec<u8>, page: Page, from: u64) -> Result<(), AllocError> {
    let (word, first, second): (&[u8], u64, u64) = match page {
        Page::Reports { shoen } => (b"reports ", shoen, from),
        Page::Journal { count } => (b"journal ", from, count),
    };
    out.extend_from_slice(word)?;
    put_decimal(out, first)?;
    out.push(b' ')?;
    put_decimal(out, second)?;
    out.push(b'\n')?;
    Ok(())
}

/// Puts the line that asks for the status of a shoen after the bytes.
fn put_status(out: &mut Vec<u8>, shoen: u64) -> Result<(), AllocError> {
    out.extend_from_slice(b"status ")?;
    put_decimal(out, shoen)?;
    out.push(b'\n')?;
    Ok(())
}

/// Puts the line that asks to log in after the bytes.
fn put_login(out: &mut Vec<u8>, name: &[u8], key: &[u8]) -> Result<(), AllocError> {
    out.extend_from_slice(b"login ")?;
    out.extend_from_slice(name)?;
    out.push(b' ')?;
    put_line(out, key)
}
