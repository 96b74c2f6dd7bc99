// Names and tokens of sessions.

ghost use Rattle.std.specs.Prelude.{◌≡◌, IfSome};
ghost use Rattle.base64.specs.GeneralPurpose.{encode_of};
ghost use Rattle.base64.specs.Engines.{url_safe_no_pad};
ghost use Rattle.kl1_session.specs.Views.{entries_view};
ghost use Rattle.kl1_host_door.specs.Doors.{mark_at};
ghost use Rattle.kl1_host_web.specs.Beginning.{IsDrawn};

use crate::site::Machine;
use base64::engine::general_purpose::URL_SAFE_NO_PAD;
use kl1_host_door::limits::{MARK_BYTES, SECRET_BYTES};
use kl1_host_door::{WebSession, mark_at};
use kl1_session::Key;

/// The bytes of randomness of a secret, which are `SECRET_BYTES` in base64.
const RANDOM_BYTES: usize = 24;

/// Bytes in base64; `None` if these aren't `SECRET_BYTES`.
#[tactic(auto, using(crate::proofs::Drawing::encoded_is))]
fn encoded(bytes: &[u8]) -> Option<[u8; SECRET_BYTES]>
    ensures { IfSome result (λ text. text ≡ encode_of url_safe_no_pad bytes.now) }
{
    let mut text = [0u8; SECRET_BYTES];
    match URL_SAFE_NO_PAD.encode_slice(bytes, &mut text) {
        Ok(count) => {
            if count == SECRET_BYTES {
                Some(text)
            } else {
                None
            }
        }
        Err(_) => None,
    }
}

/// A session of an account that begins now, opened by the key that stands there. Its name and its token are two parts of one text that nobody
/// can guess, so who knows the one doesn't know the other. It counts as asked for last at a second that the machine tells now. `None` if the machine
/// gives no randomness, or if no key stands there.
pub(crate) fn new_session<M: Machine>(
    machine: &M,
    account: usize,
    keys: &[Key],
) -> Option<WebSession>
    ensures account { IfSome result (λ session. session.account ≡ account) }
    ensures mark { IfSome result (λ session. session.mark ≡ mark_at (entries_view keys.now) account) }
    ensures drawn { IfSome result (IsDrawn (M.tells machine.now) (M.gives machine.now)) }
{
    let mark = mark_of(keys, account)?;
    let mut random = [0u8; 2 * RANDOM_BYTES];
    if !machine.fill(&mut random) {
        return None;
    }
    let (front, back) = random.split_at(RANDOM_BYTES);
    let id = encoded(front)?;
    let token = encoded(back)?;
    let last = machine.seconds();
    Some(WebSession {
        id,
        token,
        account,
        mark,
        last,
    })
}

/// The mark of the key of an account; `None` if that has none.
fn mark_of(keys: &[Key], account: usize) -> Option<[u8; MARK_BYTES]>
    ensures { IfSome result (λ mark. mark ≡ mark_at (entries_view keys.now) account) }
{
    let mark = mark_at(keys, account);
    let mut copy = [0u8; MARK_BYTES];
    if mark.len() != copy.len() {
        return None;
    }
    copy.copy_from_slice(mark);
    Some(copy)
}
