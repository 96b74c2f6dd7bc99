// One connection of a browser.

ghost use Rattle.std.specs.Prelude.{◌≡◌, ◌⊎◌, ◌<◌, ◌++◌, ◌∷◌, [], ℕ, List, true, false};
ghost use Rattle.std.specs.Io.KnownBytes.{Appends, prepend_known};
ghost use Rattle.kl1_host_door.specs.Answers.{answer_text};
ghost use Rattle.kl1_host_door.specs.declared.session.WebSession.{WebSession};
ghost use Rattle.kl1_host_door.specs.declared.book.BookStep.TheVariants.{Adds, Takes};
ghost use Rattle.kl1_host_door.specs.declared.book.SessionTest.TheVariants.{IsCalled};
ghost use Rattle.kl1_host_door.specs.Books.{has_room};
ghost use Rattle.kl1_command.specs.declared.performed.Performed.{Performed};
ghost use Rattle.kl1_host_web.specs.Asking.{Asked, changed};
ghost use Rattle.kl1_host_web.specs.Telling.{IsOpenedIn};
ghost use Rattle.kl1_host_web.specs.Beginning.{Begun};
ghost use Rattle.kl1_host_web.specs.Serving.{Seeks, logout_of, EndsIdle, SeeksOf, Forgets, Admits, LooksUp, LooksAt, closing, Ends, is_within, AnswersWithin, Attends, is_word, goes_on, Steps};
ghost use Rattle.kl1_host_web.specs.Writing.{BreaksOff, WritesRefusal, Connects};

use crate::accounts::Accounts;
use crate::granting::grant;
use crate::incoming::{Inbox, Incoming};
use crate::json::{refused, told_session};
use crate::outcome::Outcome;
use crate::secret::new_session;
use crate::site::{Machine, Page};
use crate::wish::wish_of;
use kl1_command::Command;
use kl1_host_door::limits::SECRET_BYTES;
use kl1_host_door::{
    Allowed, Answer, Head, LoginKeys, Refusal, SessionTest, WebSession, body_bytes, is_secure,
    put_answer, value_of,
};
use kl1_lines::{Sink, Source, finish};
use kl1_user_events::Event;
use std::alloc::{AllocError, Global};
use std::sync::Wait;

/// What a connection is served by, and whether it comes from the machine of the host.
#[derive(Drop)]
pub struct Service<'p, R: Wait, M: Machine, K: LoginKeys> {
    pub rt: &'p R,
    pub alloc: Global,
    pub machine: &'p M,
    pub page: Page<'p, K>,
    pub is_local: bool,
}

/// What becomes of a request.
#[derive(Drop)]
enum Served {
    /// It is answered, of a page that came by https or not, and the connection goes on or not.
    Answered {
        answer: Answer,
        secure: bool,
        goes_on: bool,
    },
    /// It is refused, and nothing is known of what comes after it.
    Refused(Refusal),
    /// There is none: the connection has ended.
    Ended,
}

/// Closes a session of an account, if there is this account, as a browser's has ended.
#[tactic(auto, using(crate::proofs::Ending::one_logout, crate::proofs::Ending::no_logout))]
fn log_out<A: Accounts>(accounts: &mut A, account: usize)
    ensures house { A.house accounts.new ≡ A.house accounts.old }
    ensures asked { (answer : Performed) × (A.asked accounts.new ≡ A.asked accounts.old ++ logout_of (A.house accounts.old).accounts account answer) }
{
    if account < accounts.count() {
        let _ = accounts.act(account, &Command::Does(Event::Logout));
    }
}

/// Whether a request is of no account, or of one of `accounts`.
fn is_within(accounts: usize, allowed: &Allowed) -> bool
    ensures { result ≡ is_within accounts allowed.now }
{
    match allowed {
        Allowed::Anyone(_) => true,
        Allowed::Owner { account, .. } => *account < accounts,
    }
}

/// Whether a field's value is this word; small and capital letters are the same.
#[tactic(auto, using(kl1_host_door::proofs::Names::named_by))]
fn is_word(value: &[u8], word: &[u8]) -> bool
    ensures { result ≡ is_word word.now value.now }
{
    value.eq_ignore_ascii_case(word)
}

/// Whether the connection goes on after an answer to this head. It doesn't after a HEAD: who asks so takes what comes after the answer's head
/// for the next answer.
fn goes_on(head: &Head) -> bool
    ensures { result ≡ goes_on head.now }
{
    if head.method.as_slice() == b"HEAD".as_slice() {
        return false;
    }
    let is_later = head.minor == 1;
    match value_of(head.fields.as_slice(), b"connection") {
        None => is_later,
        Some(word) => {
            if is_later {
                !is_word(word, b"close")
            } else {
                is_word(word, b"keep-alive")
            }
        }
    }
}

impl<'p, R: Wait, M: Machine, K: LoginKeys> Service<'p, R, M, K> {
    /// Takes the session with this name out of the book.
    fn forget<A: Accounts>(&self, accounts: &mut A, id: [u8; SECRET_BYTES])
        ensures house { A.house accounts.new ≡ A.house accounts.old }
        ensures asked { (sessions : List WebSession) × (A.asked accounts.new ≡ A.asked accounts.old ++ changed (Takes (IsCalled id)) sessions ∷ []) }
    {
        let mut guard = self.page.sessions.lock(self.rt);
        let book = &mut *guard;
        let (_session, change) = book.take(SessionTest::IsCalled(id));
        accounts.note_change(change);
    }

    /// Takes the first session of an account out of the book whose browser made no request for too long; `None` if there is none.
    fn take_idle<A: Accounts>(&self, accounts: &mut A, account: usize) -> Option<WebSession>
        ensures house { A.house accounts.new ≡ A.house accounts.old }
        ensures seeks { (note : Asked) × Seeks (M.tells self.now.machine.now) self.now.page.idle account result note × (A.asked accounts.new ≡ A.asked accounts.old ++ note ∷ []) }
    {
        let before = self.machine.seconds().saturating_sub(self.page.idle);
        let mut guard = self.page.sessions.lock(self.rt);
        let book = &mut *guard;
        let (session, change) = book.take(SessionTest::IsIdle { account, before });
        accounts.note_change(change);
        session
    }

    /// Adds a session of a browser, and tells whether there was room for it.
    fn add<A: Accounts>(&self, accounts: &mut A, session: WebSession) -> bool
        ensures house { A.house accounts.new ≡ A.house accounts.old }
        ensures asked { (others : List WebSession) × (result ≡ has_room others) × (A.asked accounts.new ≡ A.asked accounts.old ++ changed (Adds session) others ∷ []) }
    {
        let mut guard = self.page.sessions.lock(self.rt);
        let book = &mut *guard;
        let (is_added, change) = book.add(session);
        accounts.note_change(change);
        is_added
    }

    /// What a request may have, by the sessions that are open now.
    fn allowed<A: Accounts>(&self, accounts: &mut A, head: &Head) -> Result<Allowed, Refusal>
        ensures house { A.house accounts.new ≡ A.house accounts.old }
        ensures admits { Admits (M.tells self.now.machine.now) (A.house accounts.old) self.now.page.idle self.now.page.sites.now self.now.is_local head.now (A.asked accounts.old) (A.asked accounts.new) result }
    {
        let now = self.machine.seconds();
        let since = now.saturating_sub(self.page.idle);
        let mut guard = self.page.sessions.lock(self.rt);
        let book = &mut *guard;
        let (sites, keys) = (self.page.sites, accounts.keys());
        let (allowed, change) = book.admit(head, sites, self.is_local, since, keys, now);
        accounts.note_change(change);
        allowed
    }

    /// Looks up whether a request is let in to an account, whose body of `count` bytes is read, by the sessions that are open now; or why that isn't
    /// read.
    fn look<A: Accounts>(&self, accounts: &mut A, head: &Head, count: u64) -> Result<bool, Refusal>
        ensures house { A.house accounts.new ≡ A.house accounts.old }
        ensures looks { LooksUp (M.tells self.now.machine.now) (A.house accounts.old) self.now.page.idle self.now.page.sites.now self.now.is_local head.now count (A.asked accounts.old) (A.asked accounts.new) result }
    {
        let since = self.machine.seconds().saturating_sub(self.page.idle);
        let guard = self.page.sessions.lock(self.rt);
        let book = &*guard;
        let (sites, keys) = (self.page.sites, accounts.keys());
        let (may, change) = book.may_send(head, sites, self.is_local, since, keys, count);
        accounts.note_change(change);
        may
    }

    /// Whether a request is let in to an account, whose body of `count` bytes is read; or why that isn't read. If it is let in, that is told.
    fn may_send<A: Accounts>(
        &self,
        accounts: &mut A,
        head: &Head,
        count: u64,
    ) -> Result<bool, Refusal>
        ensures house { A.house accounts.new ≡ A.house accounts.old }
        ensures looks { LooksAt (M.tells self.now.machine.now) (A.house accounts.old) self.now.page.idle self.now.page.sites.now self.now.is_local head.now count (A.asked accounts.old) (A.asked accounts.new) result }
    {
        match self.look(accounts, head, count) {
            Ok(true) => {
                accounts.let_in();
                Ok(true)
            }
            Ok(false) => Ok(false),
            Err(refusal) => Err(refusal),
        }
    }

    /// Ends the sessions of an account whose browsers made no request for too long: each is taken out of the book and logged out, until there
    /// is none. A logout waits for the account, if it is in the midst of a reduction.
    pub fn end_idle<A: Accounts>(&self, accounts: &mut A, account: usize)
        ensures house { A.house accounts.new ≡ A.house accounts.old }
        ensures ends { EndsIdle (M.tells self.now.machine.now) self.now.page.idle account (A.house accounts.old).accounts (A.asked accounts.old) (A.asked accounts.new) }
    {
        for _ in self.rt.forever() {
            match self.take_idle(accounts, account) {
                Some(session) => log_out(accounts, session.account),
                None => return,
            }
        }
    }

    /// Takes the sessions of browsers of an account out of the book; answers how many. They aren't logged out of here: that waits for the account.
    pub fn forget_account<A: Accounts>(&self, accounts: &mut A, account: usize) -> u64
        ensures house { A.house accounts.new ≡ A.house accounts.old }
        ensures forgets { Forgets account result (A.asked accounts.old) (A.asked accounts.new) }
    {
        let mut count = 0u64;
        for _ in self.rt.forever() {
            match self.take_of(accounts, account) {
                Some(_session) => count = count.saturating_add(1),
                None => return count,
            }
        }
        unreachable!()
    }

    /// Takes the first session of an account out of the book; `None` if there is none.
    fn take_of<A: Accounts>(&self, accounts: &mut A, account: usize) -> Option<WebSession>
        ensures house { A.house accounts.new ≡ A.house accounts.old }
        ensures seeks { (note : Asked) × SeeksOf account result note × (A.asked accounts.new ≡ A.asked accounts.old ++ note ∷ []) }
    {
        let mut guard = self.page.sessions.lock(self.rt);
        let book = &mut *guard;
        let (session, change) = book.take(SessionTest::IsOf(account));
        accounts.note_change(change);
        session
    }

    /// Begins the session of a browser to which a session of its account is open. If it can't begin, or can't be told, that is closed again,
    /// so that a login that fails leaves nothing open.
    fn begin<A: Accounts>(&self, accounts: &mut A, account: usize) -> Result<Answer, AllocError>
        requires { account < (A.house accounts.old).accounts }
        ensures house { A.house accounts.new ≡ A.house accounts.old }
        ensures asked { Begun (M.tells self.now.machine.now) (M.gives self.now.machine.now) (A.house accounts.old) account (A.asked accounts.old) (A.asked accounts.new) result }
    {
        let Some(session) = new_session(self.machine, account, accounts.keys()) else {
            let _ = accounts.act(account, &Command::Does(Event::Logout));
            return refused(self.alloc, Refusal::Memory);
        };
        let answer = match told_session(self.alloc, accounts, &session) {
            Ok(answer) => answer,
            Err(error) => {
                let _ = accounts.act(account, &Command::Does(Event::Logout));
                return Err(error);
            }
        };
        if !self.add(accounts, session) {
            let _ = accounts.act(account, &Command::Does(Event::Logout));
            return refused(self.alloc, Refusal::ManySessions);
        }
        Ok(answer)
    }

    /// The answer to a request that ended so.
    fn settle<A: Accounts>(
        &self,
        accounts: &mut A,
        allowed: &Allowed,
        outcome: Outcome,
    ) -> Result<Answer, AllocError>
        requires { IsOpenedIn (A.house accounts.old).accounts outcome }
        ensures house { A.house accounts.new ≡ A.house accounts.old }
        ensures ends { Ends (M.tells self.now.machine.now) (M.gives self.now.machine.now) (A.house accounts.old) allowed.now (Ok outcome) (A.asked accounts.old) (A.asked accounts.new) result }
    {
        match outcome {
            Outcome::Told(answer) => Ok(answer),
            Outcome::Opens(account) => self.begin(accounts, account),
            Outcome::Closes(answer) => {
                if let Allowed::Owner { id, .. } = allowed {
                    self.forget(accounts, *id);
                }
                answer
            }
        }
    }

    /// The answer to a request that is let in.
    fn answer<A: Accounts>(
        &self,
        accounts: &mut A,
        head: &Head,
        allowed: &Allowed,
        body: &[u8],
    ) -> Result<Answer, AllocError>
        ensures house { A.house accounts.new ≡ A.house accounts.old }
        ensures answers { AnswersWithin (M.tells self.now.machine.now) (M.gives self.now.machine.now) (is_within (A.house accounts.old).accounts allowed.now) (A.house accounts.old) allowed.now head.now.target.items body.now (A.asked accounts.old) (A.asked accounts.new) result }
    {
        if !is_within(accounts.count(), allowed) {
            return refused(self.alloc, Refusal::Nobody);
        }
        let wish = wish_of(self.alloc, allowed, body)?;
        let outcome = grant(self.alloc, accounts, wish, head.target.as_slice())?;
        self.settle(accounts, allowed, outcome)
    }

    /// The answer to a request of this head and this body, or why it is refused.
    fn attend<A: Accounts>(
        &self,
        accounts: &mut A,
        head: &Head,
        body: &[u8],
    ) -> Result<Answer, AllocError>
        ensures house { A.house accounts.new ≡ A.house accounts.old }
        ensures answers { Attends (M.tells self.now.machine.now) (M.gives self.now.machine.now) self.now.page.idle (A.house accounts.old) self.now.page.sites.now self.now.is_local head.now body.now (A.asked accounts.old) (A.asked accounts.new) result }
    {
        match self.allowed(accounts, head) {
            Err(refusal) => refused(self.alloc, refusal),
            Ok(allowed) => self.answer(accounts, head, &allowed, body),
        }
    }

    /// Reads the next request, and does what it asks for.
    fn serve_request<S: Source, A: Accounts>(
        &self,
        source: &mut S,
        inbox: &mut Inbox,
        accounts: &mut A,
    ) -> Result<Served, AllocError>
        ensures house { A.house accounts.new ≡ A.house accounts.old }
        ensures steps { Steps (M.tells self.now.machine.now) (M.gives self.now.machine.now) self.now.page.idle (A.house accounts.old) self.now.page.sites.now self.now.is_local (prepend_known inbox.old.kept.items (S.remaining source.old)) (prepend_known inbox.new.kept.items (S.remaining source.new)) (A.asked accounts.old) (A.asked accounts.new) result }
    {
        let head = match inbox.head(self.alloc, source)? {
            Incoming::Head(head) => head,
            Incoming::Refused(refusal) => return Ok(Served::Refused(refusal)),
            Incoming::Ended => return Ok(Served::Ended),
        };
        let count = match body_bytes(&head) {
            Ok(count) => count,
            Err(refusal) => return Ok(Served::Refused(refusal)),
        };
        // Who isn't let in has no long body read. A short one is read also if the request is refused, so that the next one is found.
        let _is_in = match self.may_send(accounts, &head, count) {
            Ok(is_in) => is_in,
            Err(refusal) => return Ok(Served::Refused(refusal)),
        };
        let Some(body) = inbox.body(self.alloc, source, count as usize)? else {
            return Ok(Served::Ended);
        };
        let answer = self.attend(accounts, &head, body.as_slice())?;
        Ok(Served::Answered {
            answer,
            secure: is_secure(&head, self.page.sites),
            goes_on: goes_on(&head),
        })
    }

    /// Writes an answer; `false` if that failed, or without memory for its bytes.
    fn send<T: Sink>(&self, sink: &mut T, answer: &Answer, secure: bool, goes_on: bool) -> bool
        ensures sent { result ≡ true → Appends (T.contents sink.old) (T.contents sink.new) (answer_text answer.now secure goes_on) }
        ensures kept { result ≡ true → T.failures sink.new ≡ T.failures sink.old }
        ensures breaks { result ≡ false → BreaksOff (answer_text answer.now secure goes_on) (T.contents sink.old) (T.contents sink.new) (T.failures sink.old) (T.failures sink.new) }
    {
        let mut text = Vec::new(self.alloc);
        match put_answer(&mut text, answer, secure, goes_on) {
            Ok(()) => match finish(sink, text.as_slice()) {
                Ok(()) => true,
                Err(_) => false,
            },
            Err(_) => false,
        }
    }

    /// Writes that a request is refused. Without memory nothing is written.
    fn send_refusal<T: Sink>(&self, sink: &mut T, refusal: Refusal)
        ensures { (T.contents sink.new ≡ T.contents sink.old) ⊎ WritesRefusal refusal (T.contents sink.old) (T.contents sink.new) (T.failures sink.old) (T.failures sink.new) }
    {
        let Ok(answer) = refused(self.alloc, refusal) else {
            return;
        };
        // It tells of no cookie.
        let _is_sent = self.send(sink, &answer, false, false);
    }

    /// Serves one connection: its requests one after another, until it ends, an answer says so, or one of them can't be read. Their answers are written in
    /// this order, each once, and nothing else.
    pub fn serve<S: Source, T: Sink, A: Accounts>(
        &self,
        source: &mut S,
        sink: &mut T,
        accounts: &mut A,
    )
        ensures house { A.house accounts.new ≡ A.house accounts.old }
        ensures connects { Connects (M.tells self.now.machine.now) (M.gives self.now.machine.now) self.now.page.idle (A.house accounts.old) self.now.page.sites.now self.now.is_local (S.remaining source.old) (T.contents sink.old) (T.contents sink.new) (T.failures sink.old) (T.failures sink.new) (A.asked accounts.old) (A.asked accounts.new) }
    {
        let mut inbox = Inbox::new(self.alloc);
        for _ in 0..u64::MAX {
            match self.serve_request(source, &mut inbox, accounts) {
                Ok(
                    Served::Answered {
                        answer,
                        secure,
                        goes_on,
                    },
                ) => {
                    if !self.send(sink, &answer, secure, goes_on) {
                        return;
                    }
                    if !goes_on {
                        return;
                    }
                }
                Ok(Served::Refused(refusal)) => return self.send_refusal(sink, refusal),
                Ok(Served::Ended) => return,
                Err(_) => return self.send_refusal(sink, Refusal::Memory),
            }
        }
    }
}
