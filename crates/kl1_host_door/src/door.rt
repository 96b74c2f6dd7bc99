// Who is let in, and to what.

ghost use Rattle.std.specs.Prelude.{◌≡◌};
ghost use Rattle.kl1_session.specs.Views.{entries_view};
ghost use Rattle.kl1_host_door.specs.Fields.{are_single};
ghost use Rattle.kl1_host_door.specs.Doors.{is_host, is_origin, is_by_https, is_secure, site_refusal, right_of, mark_at, by_session, by_owner, admitted, ask_in, authorized};

use crate::ask::{Ask, ask_of, method_in};
use crate::field::{Field, is_single, value_of};
use crate::head::Head;
use crate::limits::SECRET_BYTES;
use crate::refusal::Refusal;
use crate::session::{WebSession, owner_of, session_of};
use kl1_session::{Key, is_same_key};

/// A name by which a host is known, as a browser tells it, and where its page comes from: as `localhost:7480` and
/// `http://localhost:7480`.
#[derive(Drop)]
pub struct Site {
    pub host: Vec<u8>,
    pub origin: Vec<u8>,
}

/// What a request may have.
#[derive(Clone, Copy)]
pub enum Allowed {
    /// What is asked for is of no account.
    Anyone(Ask),
    /// It is of the account of this number, whose session has this name. The session's token isn't here: no answer needs it.
    Owner {
        id: [u8; SECRET_BYTES],
        account: usize,
        ask: Ask,
    },
}

/// Who may have what is asked for.
#[derive(Clone, Copy)]
enum Right {
    Anyone,
    /// A program on the machine of the host.
    Machine,
    /// Who has the cookie of a session, and its token.
    Owner,
}

/// Whether the host is known by this name.
fn is_host(sites: &[Site], host: &[u8]) -> bool
    ensures { result ≡ is_host sites.now host.now }
{
    sites.iter().any(|site| site.host.as_slice() == host)
}

/// Whether a page of this name comes from there.
fn is_origin(sites: &[Site], host: &[u8], origin: &[u8]) -> bool
    ensures { result ≡ is_origin sites.now host.now origin.now }
{
    sites.iter().any(|site| site.host.as_slice() == host && site.origin.as_slice() == origin)
}

/// How the origin of a page begins that comes by https.
const HTTPS: &[u8] = b"https:";

/// Whether a page of this name comes by https.
fn is_by_https(sites: &[Site], host: &[u8]) -> bool
    ensures { result ≡ is_by_https sites.now host.now }
{
    sites.iter().any(|site| site.host.as_slice() == host
        && site.origin.as_slice().starts_with(HTTPS))
}

/// Whether a request is of a page that comes by https.
pub fn is_secure(head: &Head, sites: &[Site]) -> bool
    ensures { result ≡ is_secure head.now sites.now }
{
    match value_of(head.fields.as_slice(), b"host") {
        None => false,
        Some(host) => is_by_https(sites, host),
    }
}

/// Why a request isn't one to the host from its own page, or from none; `None` if it is.
fn site_refusal(fields: &[Field], sites: &[Site]) -> Option<Refusal>
    ensures { result ≡ site_refusal fields.now sites.now }
{
    let Some(host) = value_of(fields, b"host") else {
        return Some(Refusal::NoHost);
    };
    if !is_host(sites, host) {
        return Some(Refusal::OtherHost);
    }
    match value_of(fields, b"origin") {
        None => None,
        Some(origin) => {
            if is_origin(sites, host, origin) {
                None
            } else {
                Some(Refusal::OtherOrigin)
            }
        }
    }
}

/// Who may have what is asked for.
fn right_of(ask: Ask) -> Right
    ensures { result ≡ right_of ask }
{
    match ask {
        Ask::File => Right::Anyone,
        Ask::Login => Right::Anyone,
        Ask::Session => Right::Owner,
        Ask::Logout => Right::Owner,
        Ask::Command => Right::Owner,
        Ask::Load => Right::Owner,
        Ask::Account => Right::Owner,
        Ask::Shoens(_) => Right::Owner,
        Ask::Waiting => Right::Owner,
        Ask::Metrics => Right::Machine,
        Ask::Health => Right::Machine,
    }
}

/// The mark of the key of an account; nothing if there is none.
pub fn mark_at(keys: &[Key], account: usize) -> &[u8]
    ensures { result.now ≡ mark_at (entries_view keys.now) account }
{
    match keys.get(account) {
        Some(key) => key.key.as_slice(),
        None => &[],
    }
}

/// Lets in to the account of a session, unless its last request was before the second `since`, or the account has another key now.
fn by_session(ask: Ask, session: WebSession, since: u64, keys: &[Key]) -> Result<Allowed, Refusal>
    ensures { result ≡ by_session ask session since (entries_view keys.now) }
{
    if session.last < since || !is_same_key(mark_at(keys, session.account), &session.mark) {
        return Err(Refusal::Nobody);
    }
    let id = session.id;
    Ok(Allowed::Owner {
        id,
        account: session.account,
        ask,
    })
}

/// Lets in who has the cookie of a session and its token.
fn by_owner(
    ask: Ask,
    fields: &[Field],
    sessions: &[WebSession],
    since: u64,
    keys: &[Key],
) -> Result<Allowed, Refusal>
    ensures { result ≡ by_owner ask fields.now sessions.now since (entries_view keys.now) }
{
    match owner_of(fields, sessions) {
        Some(session) => by_session(ask, session, since, keys),
        None => match session_of(fields, sessions) {
            None => Err(Refusal::Nobody),
            Some(_) => Err(Refusal::Token),
        },
    }
}

/// Lets in who may have what is asked for.
fn admitted(
    ask: Ask,
    fields: &[Field],
    sessions: &[WebSession],
    is_local: bool,
    since: u64,
    keys: &[Key],
) -> Result<Allowed, Refusal>
    ensures { result ≡ admitted ask fields.now sessions.now is_local since (entries_view keys.now) }
{
    match right_of(ask) {
        Right::Anyone => Ok(Allowed::Anyone(ask)),
        Right::Machine => {
            if is_local {
                Ok(Allowed::Anyone(ask))
            } else {
                Err(Refusal::NotLocal)
            }
        }
        Right::Owner => by_owner(ask, fields, sessions, since, keys),
    }
}

/// What a head asks for.
fn ask_in(head: &Head) -> Result<Ask, Refusal>
    ensures { result ≡ ask_in head.now }
{
    match method_in(head.method.as_slice()) {
        None => Err(Refusal::Method),
        Some(method) => ask_of(method, head.target.as_slice()),
    }
}

/// Whether none of the fields by which a request is let in, and by which its body is found, stands twice.
fn are_single(fields: &[Field]) -> bool
    ensures { result ≡ are_single fields.now }
{
    is_single(fields, b"host")
        && is_single(fields, b"origin")
        && is_single(fields, b"cookie")
        && is_single(fields, b"x-kl1-token")
        && is_single(fields, b"content-length")
        && is_single(fields, b"transfer-encoding")
}

/// What a request may have, of a host that is known by these names and has these sessions open; `is_local` tells whether it comes from
/// the machine of the host. A session whose last request was before the second `since` lets in nobody, nor does one that was opened by another
/// key than that of its account among these.
pub fn authorize(
    head: &Head,
    sessions: &[WebSession],
    sites: &[Site],
    is_local: bool,
    since: u64,
    keys: &[Key],
) -> Result<Allowed, Refusal>
    ensures { result ≡ authorized head.now sessions.now sites.now is_local since (entries_view keys.now) }
{
    let fields = head.fields.as_slice();
    if !are_single(fields) {
        return Err(Refusal::Repeated);
    }
    if let Some(refusal) = site_refusal(fields, sites) {
        return Err(refusal);
    }
    match ask_in(head) {
        Err(refusal) => Err(refusal),
        Ok(ask) => admitted(ask, fields, sessions, is_local, since, keys),
    }
}
