// The sessions of browsers that are open.

ghost use Rattle.std.specs.Prelude.{◌≡◌, ◌<◌, ◌≤◌, true, [], length, vec_capacity, IfOk, IfSome};
ghost use Rattle.kl1_host_door.specs.declared.limits.TheConstants.{MOST_SESSIONS};
ghost use Rattle.kl1_host_door.specs.declared.book.BookStep.TheVariants.{Adds, Takes, Looks};
ghost use Rattle.kl1_session.specs.Views.{entries_view};
ghost use Rattle.kl1_host_door.specs.Doors.{authorized};
ghost use Rattle.kl1_host_door.specs.Bodies.{may_send};
ghost use Rattle.kl1_host_door.specs.Books.{passes, place_of, touched, has_room, IsAdded, first_of, without_first, seen_by, after};

use crate::body::may_send;
use crate::door::{Allowed, Site, authorize};
use crate::head::Head;
use crate::limits::{MOST_SESSIONS, SECRET_BYTES};
use crate::login_keys::LoginKeys;
use crate::refusal::Refusal;
use crate::session::WebSession;
use kl1_session::{Key, is_same_key};
use std::alloc::{AllocError, Global};
use std::marker::{Model, PhantomData};
use std::snapshot::Snapshot;

/// What is done to the sessions that are open.
#[derive(Clone, Copy)]
pub enum BookStep {
    /// A session is added, if there is room for it.
    Adds(WebSession),
    /// The first that passes a test is taken out, if there is one.
    Takes(SessionTest),
    /// A request of the session with this name is noted, at this second.
    Touches([u8; SECRET_BYTES], u64),
    /// They are looked at.
    Looks,
}

/// What was done to the sessions that `K` stands for, and which were open before. Only a `SessionBook` makes one, and it can't be dropped: who
/// has something done to the book notes it. It has no bytes, so only contracts see what it tells.
pub struct BookChange<K: LoginKeys> {
    pub step: Snapshot<BookStep>,
    pub before: Snapshot<Vec<WebSession>>,
    of: PhantomData<K>,
}

impl<K: LoginKeys> BookChange<K> {
    /// What was done, and which sessions were open before.
    pub fn into_parts(self) -> (Snapshot<BookStep>, Snapshot<Vec<WebSession>>)
        ensures step { result.0.value ≡ self.step.value }
        ensures before { result.1.value ≡ self.before.value }
    {
        let BookChange {
            step,
            before,
            of: _,
        } = self;
        (step, before)
    }
}

/// The sessions of browsers that are open, at most `MOST_SESSIONS`, in the order in which they were opened.
#[derive(Drop)]
pub struct SessionBook<K: LoginKeys> {
    list: Vec<WebSession>,
    of: PhantomData<K>,
    ghost room: { MOST_SESSIONS ≤ vec_capacity list },
}

impl<K: LoginKeys> Model for SessionBook<K> {
    ghost use Rattle.std.specs.Prelude.{List};
    ghost use Rattle.kl1_host_door.specs.declared.session.WebSession.{WebSession};

    ghost Value = { List WebSession };

    ghost view = { λ b. b.list.items };
}

impl<K: LoginKeys> SessionBook<K> {
    /// No sessions, with room for all that may be.
    pub fn new(alloc: Global) -> Result<Self, AllocError>
        requires { K.begins ≡ true }
        ensures { IfOk result (λ book. book ≡ []) }
    {
        Ok(SessionBook {
            list: Vec::with_capacity(alloc, MOST_SESSIONS)?,
            of: PhantomData,
        })
    }

    /// What tells that this is done to the sessions.
    fn change(&self, step: BookStep) -> BookChange<K>
        ensures step { result.step.value ≡ step }
        ensures before { result.before.value.items ≡ self.now }
    {
        BookChange {
            step: Snapshot::of(&step),
            before: Snapshot::of(&self.list),
            of: PhantomData,
        }
    }

    /// Adds a session, and tells whether it did: as many may be open as `MOST_SESSIONS`.
    pub fn add(&mut self, session: WebSession) -> (bool, BookChange<K>)
        ensures room { result.0 ≡ has_room self.old }
        ensures added { IsAdded result.0 session self.old self.new }
        ensures step { result.1.step.value ≡ Adds session }
        ensures before { result.1.before.value.items ≡ self.old }
    {
        let change = self.change(BookStep::Adds(session));
        if self.list.len() >= MOST_SESSIONS {
            return (false, change);
        }
        self.list.push_reserved(session);
        (true, change)
    }

    /// Takes out the first session that passes a test; `None` if there is none.
    #[tactic(auto, using(crate::proofs::BookPlaces::none_at))]
    pub fn take(&mut self, test: SessionTest) -> (Option<WebSession>, BookChange<K>)
        ensures value { result.0 ≡ first_of (passes test) self.old }
        ensures taken { self.new ≡ without_first (passes test) self.old }
        ensures step { result.1.step.value ≡ Takes test }
        ensures before { result.1.before.value.items ≡ self.old }
    {
        let change = self.change(BookStep::Takes(test));
        let Some(place) = place_of(self.list.as_slice(), test) else {
            return (None, change);
        };
        let session = found(self.list.as_slice(), test);
        let _ = self.list.remove(place);
        (session, change)
    }

    /// Whether a request is let in to an account, whose body of `count` bytes is read, by what it may have by the sessions (see `admit`); or why
    /// that isn't read.
    pub fn may_send(
        &self,
        head: &Head,
        sites: &[Site],
        is_local: bool,
        since: u64,
        keys: &[Key],
        count: u64,
    ) -> (Result<bool, Refusal>, BookChange<K>)
        ensures value { result.0 ≡ may_send count (authorized head.now self.now sites.now is_local since (entries_view keys.now)) }
        ensures step { result.1.step.value ≡ Looks }
        ensures before { result.1.before.value.items ≡ self.now }
    {
        let allowed = authorize(head, self.list.as_slice(), sites, is_local, since, keys);
        (may_send(count, &allowed), self.change(BookStep::Looks))
    }

    /// What a request may have by the sessions, of a host that is known by these names; `is_local` tells whether it comes from the machine
    /// of the host. A session whose last request was before the second `since` lets in nobody, nor does one that was opened by another key than
    /// that of its account among these. If the request is let in by a session, `now` becomes the second of that session's last request.
    pub fn admit(
        &mut self,
        head: &Head,
        sites: &[Site],
        is_local: bool,
        since: u64,
        keys: &[Key],
        now: u64,
    ) -> (Result<Allowed, Refusal>, BookChange<K>)
        ensures allowed { result.0 ≡ authorized head.now self.old sites.now is_local since (entries_view keys.now) }
        ensures seen { self.new ≡ after (seen_by now result.0) self.old }
        ensures step { result.1.step.value ≡ seen_by now result.0 }
        ensures before { result.1.before.value.items ≡ self.old }
    {
        let allowed = authorize(head, self.list.as_slice(), sites, is_local, since, keys);
        if let Ok(Allowed::Owner { id, .. }) = &allowed {
            let change = self.change(BookStep::Touches(*id, now));
            self.touch(*id, now);
            (allowed, change)
        } else {
            (allowed, self.change(BookStep::Looks))
        }
    }

    /// Notes the second of a request of the session with this name.
    #[tactic(auto, using(crate::proofs::BookPlaces::touched_at, crate::proofs::BookPlaces::none_touched))]
    fn touch(&mut self, id: [u8; SECRET_BYTES], now: u64)
        ensures { self.new ≡ touched id now self.old }
    {
        if let Some(place) = place_of(self.list.as_slice(), SessionTest::IsCalled(id)) {
            self.list[place].last = now;
        }
    }
}

/// What is asked of a session.
#[derive(Clone, Copy)]
pub enum SessionTest {
    /// Whether it has this name.
    IsCalled([u8; SECRET_BYTES]),
    /// Whether it is of this account, and its last request was before this second.
    IsIdle { account: usize, before: u64 },
    /// Whether it is of the account of this number.
    IsOf(usize),
}

/// Whether a session passes a test.
fn passes(test: SessionTest, session: &WebSession) -> bool
    ensures { result ≡ passes test session.now }
{
    match test {
        SessionTest::IsCalled(id) => is_same_key(&session.id, &id),
        SessionTest::IsIdle { account, before } => {
            session.account == account && session.last < before
        }
        SessionTest::IsOf(account) => session.account == account,
    }
}

/// The place of the first session that passes a test.
fn place_of(sessions: &[WebSession], test: SessionTest) -> Option<usize>
    ensures value { result ≡ place_of (passes test) sessions.now }
    ensures within { IfSome result (λ n. n < length sessions.now) }
{
    let mut place = 0;
    let mut rest = sessions;
    while let [first, others @ ..] = rest {
        if passes(test, first) {
            return Some(place);
        }
        place += 1;
        rest = others;
    }
    None
}

/// The first session that passes a test.
fn found(sessions: &[WebSession], test: SessionTest) -> Option<WebSession>
    ensures { result ≡ first_of (passes test) sessions.now }
{
    let mut rest = sessions;
    while let [first, others @ ..] = rest {
        if passes(test, first) {
            return Some(*first);
        }
        rest = others;
    }
    None
}
