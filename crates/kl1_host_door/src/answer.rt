// The bytes of an answer.

ghost use Rattle.std.specs.Prelude.{◌≡◌, ◌++◌, OnOk, OnErr};
ghost use Rattle.kl1_host_door.specs.Answers.{kind_of, cookie_front, cookie_end, cookie_text, connection_of, head_text, answer_text};

use crate::limits::SECRET_BYTES;
use crate::status::{Status, text_of};
use kl1_lines::put_decimal;
use std::alloc::AllocError;

/// What the bytes of an answer are.
#[derive(Clone, Copy)]
pub enum Content {
    Html,
    Css,
    Script,
    Json,
    Text,
}

/// What a browser is told of the cookie of its session.
#[derive(Clone, Copy)]
pub enum Cookie {
    /// It stays.
    Kept,
    /// It is the name of this session.
    Set([u8; SECRET_BYTES]),
    /// It goes.
    Cleared,
}

/// An answer.
#[derive(Drop)]
pub struct Answer {
    pub status: Status,
    pub content: Content,
    pub cookie: Cookie,
    pub body: Vec<u8>,
}

/// The first words of each answer's first line.
const VERSION: &[u8] = b"HTTP/1.1 ";

/// What each answer says: that no page of another host may use it, and that nothing comes from another host.
const GUARDS: &[u8] =
    b"\r\ncontent-security-policy: default-src 'none'; script-src 'self'; style-src 'self'; connect-src 'self'; img-src data:; base-uri 'none'; form-action 'none'; frame-ancestors 'none'\r\nx-content-type-options: nosniff\r\nreferrer-policy: no-referrer\r\ncache-control: no-store\r\n";

/// What a browser is told the bytes are.
fn kind_of(content: Content) -> &'static [u8]
    ensures { result.now ≡ kind_of content }
{
    match content {
        Content::Html => b"text/html; charset=utf-8",
        Content::Css => b"text/css; charset=utf-8",
        Content::Script => b"text/javascript; charset=utf-8",
        Content::Json => b"application/json",
        Content::Text => b"text/plain; charset=utf-8",
    }
}

/// Whether the connection goes on after an answer, as it is told.
fn connection_of(goes_on: bool) -> &'static [u8]
    ensures { result.now ≡ connection_of goes_on }
{
    if goes_on {
        b"connection: keep-alive\r\n\r\n"
    } else {
        b"connection: close\r\n\r\n"
    }
}

/// How the line begins by which a browser is told of its cookie. One that came by https has a name that browsers let no page but one by https
/// set, and for this host alone.
fn cookie_front(secure: bool) -> &'static [u8]
    ensures { result.now ≡ cookie_front secure }
{
    if secure {
        b"set-cookie: __Host-kl1="
    } else {
        b"set-cookie: kl1="
    }
}

/// How that line ends: by which requests the cookie goes, and that no script reads it.
fn cookie_end(secure: bool) -> &'static [u8]
    ensures { result.now ≡ cookie_end secure }
{
    if secure {
        b"; Secure; HttpOnly; SameSite=Strict; Path=/\r\n"
    } else {
        b"; HttpOnly; SameSite=Strict; Path=/\r\n"
    }
}

/// Puts the line by which a browser is told of its cookie, if one is; `secure` tells whether its page came by https.
fn put_cookie(out: &mut Vec<u8>, cookie: &Cookie, secure: bool) -> Result<(), AllocError>
    ensures { OnOk result (out.new.items ≡ out.old.items ++ cookie_text secure cookie.now) }
{
    match cookie {
        Cookie::Kept => {}
        Cookie::Set(id) => {
            out.extend_from_slice(cookie_front(secure))?;
            out.extend_from_slice(id.as_slice())?;
            out.extend_from_slice(cookie_end(secure))?;
        }
        Cookie::Cleared => {
            out.extend_from_slice(cookie_front(secure))?;
            out.extend_from_slice(b"; Max-Age=0")?;
            out.extend_from_slice(cookie_end(secure))?;
        }
    }
    Ok(())
}

/// Puts the head of an answer.
fn put_head(out: &mut Vec<u8>, answer: &Answer, secure: bool) -> Result<(), AllocError>
    ensures { OnOk result (out.new.items ≡ out.old.items ++ head_text answer.now secure) }
{
    out.extend_from_slice(VERSION)?;
    out.extend_from_slice(text_of(answer.status))?;
    out.extend_from_slice(b"\r\ncontent-type: ")?;
    out.extend_from_slice(kind_of(answer.content))?;
    out.extend_from_slice(b"\r\ncontent-length: ")?;
    put_decimal(out, answer.body.as_slice().len() as u64)?;
    out.extend_from_slice(GUARDS)?;
    put_cookie(out, &answer.cookie, secure)?;
    Ok(())
}

/// Puts an answer after the bytes, and whether the connection goes on; `secure` tells whether the browser's page came by https. After an `Err`
/// some of it may be there.
pub fn put_answer(
    out: &mut Vec<u8>,
    answer: &Answer,
    secure: bool,
    goes_on: bool,
) -> Result<(), AllocError>
    ensures { OnOk result (out.new.items ≡ out.old.items ++ answer_text answer.now secure goes_on) }
{
    put_head(out, answer, secure)?;
    out.extend_from_slice(connection_of(goes_on))?;
    out.extend_from_slice(answer.body.as_slice())?;
    Ok(())
}
