// Sessions of browsers.

ghost use Rattle.std.specs.Prelude.{◌≡◌, true};
ghost use Rattle.kl1_host_door.specs.Sessions.{is_end, is_of, session_at, is_sought, sought_at, bare, sought_here, sought_from, sought, session_of, owner_of, has_token};

use crate::field::{Field, value_of};
use crate::limits::{MARK_BYTES, SECRET_BYTES};
use kl1_session::is_same_key;

/// A session of a browser: its name, which only the browser's cookie has; the token that each request tells; the number of its account,
/// from 0, and the mark of the key by which it was opened; and the second of its last request.
#[derive(Clone, Copy)]
pub struct WebSession {
    pub id: [u8; SECRET_BYTES],
    pub token: [u8; SECRET_BYTES],
    pub account: usize,
    pub mark: [u8; MARK_BYTES],
    pub last: u64,
}

/// How the cookie of a session begins.
const COOKIE: &[u8] = b"kl1=";

/// What stands before that if the page came by https.
const BY_HTTPS: &[u8] = b"__Host-";

/// Whether a cookie ends before this.
fn is_end(text: &[u8]) -> bool
    ensures { result ≡ is_end text.now }
{
    match text {
        [] => true,
        [first, ..] => *first == b';',
    }
}

/// Whether what stands after the name of a cookie is the name of this session.
fn is_of(text: &[u8], session: &WebSession) -> bool
    ensures { result ≡ is_of text.now session.now }
{
    if text.len() < SECRET_BYTES {
        return false;
    }
    is_same_key(&text[..SECRET_BYTES], &session.id) && is_end(&text[SECRET_BYTES..])
}

/// The session whose name this is.
fn session_at(text: &[u8], sessions: &[WebSession]) -> Option<WebSession>
    ensures { result ≡ session_at text.now sessions.now }
{
    let mut rest = sessions;
    while let [first, others @ ..] = rest {
        if is_of(text, first) {
            return Some(*first);
        }
        rest = others;
    }
    None
}

/// Whether a request has the token of this session.
pub(crate) fn has_token(fields: &[Field], session: &WebSession) -> bool
    ensures { result ≡ has_token fields.now session.now }
{
    match value_of(fields, b"x-kl1-token") {
        None => false,
        Some(token) => is_same_key(token, &session.token),
    }
}

/// What is looked for among the sessions that cookies tell: whether one is there, or, if `owned`, one whose token a request has.
fn is_sought(owned: bool, fields: &[Field], session: &WebSession) -> bool
    ensures { result ≡ is_sought owned fields.now session.now }
{
    if owned {
        has_token(fields, session)
    } else {
        true
    }
}

/// The session that is sought, if it is the one of which this is the name.
fn sought_at(
    owned: bool,
    fields: &[Field],
    sessions: &[WebSession],
    text: &[u8],
) -> Option<WebSession>
    ensures { result ≡ sought_at owned fields.now sessions.now text.now }
{
    let session = session_at(text, sessions)?;
    if is_sought(owned, fields, &session) {
        Some(session)
    } else {
        None
    }
}

/// A cookie without what stands before its name if the page came by https.
#[tactic(auto, using(crate::proofs::Texts::rest_of))]
fn bare(text: &[u8]) -> &[u8]
    ensures { result.now ≡ bare text.now }
{
    if text.starts_with(BY_HTTPS) {
        &text[BY_HTTPS.len()..]
    } else {
        text
    }
}

/// The session that is sought, if its cookie stands in front of a text, where one may begin or not.
fn sought_here(
    owned: bool,
    fields: &[Field],
    sessions: &[WebSession],
    begins: bool,
    text: &[u8],
) -> Option<WebSession>
    ensures { result ≡ sought_here owned fields.now sessions.now begins text.now }
{
    let text = bare(text);
    if begins && text.starts_with(COOKIE) {
        let cookie = &text[COOKIE.len()..];
        sought_at(owned, fields, sessions, cookie)
    } else {
        None
    }
}

/// The session that is sought by a header of cookies, of which each is looked at.
fn sought_in(
    owned: bool,
    fields: &[Field],
    sessions: &[WebSession],
    header: &[u8],
) -> Option<WebSession>
    ensures { result ≡ sought_from owned fields.now sessions.now true header.now }
{
    let mut begins = true;
    let mut rest = header;
    while let [first, others @ ..] = rest {
        if let Some(session) = sought_here(owned, fields, sessions, begins, rest) {
            return Some(session);
        }
        begins = *first == b';' || (begins && *first == b' ');
        rest = others;
    }
    None
}

/// The session that is sought by the cookies of a request.
fn sought(owned: bool, fields: &[Field], sessions: &[WebSession]) -> Option<WebSession>
    ensures { result ≡ sought owned fields.now sessions.now }
{
    match value_of(fields, b"cookie") {
        None => None,
        Some(header) => sought_in(owned, fields, sessions, header),
    }
}

/// The first session whose name a cookie of a request tells.
pub(crate) fn session_of(fields: &[Field], sessions: &[WebSession]) -> Option<WebSession>
    ensures { result ≡ session_of fields.now sessions.now }
{
    sought(false, fields, sessions)
}

/// The first session whose name a cookie of a request tells and whose token the request has.
pub(crate) fn owner_of(fields: &[Field], sessions: &[WebSession]) -> Option<WebSession>
    ensures { result ≡ owner_of fields.now sessions.now }
{
    sought(true, fields, sessions)
}
