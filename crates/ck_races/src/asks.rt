//! Two or three callers of a token, one of which logs in while another asks. The first logs in. The
//! second has learnt of the calls before, and asks for the state of a session, without the lock,
//! until it sees the login. Then it makes a call of its own, and sees a second login by asking
//! only. A third makes no call, and asks once more after the first login. The last asks also before
//! the first call.
ghost use Rattle.std.specs.Prelude.{◌≡◌, ◌≤◌, IfOk};
ghost use Rattle.ck_token.specs.Histories.{start, start_of};

use crate::scripts::{StepScript, check_taken, return_callers, scripts_of};
use crate::shared_work::{Shared, SharedWork, share_audited};
use crate::tokens::{cut_token, initialized_token};
use anyhow::{Context, bail, ensure};
use ck_script::reply_line;
use ck_shared::{Answered, Ask, Caller, News, Runtime, Status, Step, TokenId, run_steps};
use ck_token::{Call, Limits, NoMemory, Pin, READ_WRITE, Rv, Token, UserType};
use std::alloc::Global;

/// How many times a caller asks for the state of the session in its script. The first of two
/// callers asks once.
const ASKS: u32 = 1_000;

/// How many times a caller asks until it must have seen the call of another.
const MOST_ASKS: u32 = 1_000_000;

/// How many entries the first calls have.
const FIRST: u64 = 7;
/// How many there are with the login.
const WITH_LOGIN: u64 = 8;
/// How many there are in the end: with a logout, a call of the second caller and another login.
const ALL: u64 = 11;

/// How many times all of it is run, with two callers and with three, on each of three tokens.
const RUNS: u32 = 100;

/// The types of the token's mechanisms.
const MECHANISMS: [u64; 13] = [
    0x250, 0x251, 0x252, 0x255, 0x256, 0x257, 0x260, 0x261, 0x262, 0x270, 0x271, 0x272, 0x350,
];

/// Whether a question is answered by the reply that has this text.
fn is_status(alloc: Global, status: &Option<Status>, wanted: &str) -> Result<bool, NoMemory> {
    Ok(match status {
        Some(Status::Reply(reply)) => reply_line(alloc, reply)?.as_str() == wanted,
        _ => false,
    })
}

/// Checks that a question was answered by the reply of this text.
pub(crate) fn check_status(
    alloc: Global,
    status: &Option<Status>,
    wanted: &str,
) -> anyhow::Result<()> {
    ensure!(
        is_status(alloc, status, wanted)?,
        "a question has another answer"
    );
    Ok(())
}

/// Asks, and checks that the answer has this text.
pub(crate) fn check_ask<K: TokenId>(
    alloc: Global,
    caller: &mut Caller<K>,
    ask: Ask,
    wanted: &str,
) -> anyhow::Result<()> {
    let status = caller.status(ask);
    check_status(alloc, &status, wanted)
}

/// A caller asks until the answer is the later text. Until then each answer is the earlier one, and
/// the caller knows no more entries than at first. In the end it knows one more.
pub(crate) fn await_status<K: TokenId>(
    alloc: Global,
    caller: &mut Caller<K>,
    ask: Ask,
    earlier: &str,
    later: &str,
) -> anyhow::Result<()> {
    let seen = caller.seen();
    for _ in 0..MOST_ASKS {
        let status = caller.status(ask);
        if is_status(alloc, &status, later)? {
            let is_next = caller.seen() == seen.saturating_add(1);
            ensure!(is_next, "a caller doesn't know one entry more");
            return Ok(());
        }
        check_status(alloc, &status, earlier)?;
        ensure!(
            caller.seen() == seen,
            "a caller knows more or fewer entries than at first"
        );
    }
    bail!("a call of another caller isn't seen");
}

/// Checks that a caller that asks for the mechanisms is given all.
pub(crate) fn check_mechanisms<K: TokenId>(caller: &mut Caller<K>) -> anyhow::Result<()> {
    let status = caller.status(Ask::Mechanisms);
    ensure!(
        matches!(status, Some(Status::Mechanisms(types)) if types == MECHANISMS),
        "the mechanisms aren't those of the token",
    );
    Ok(())
}

/// Checks that before the first call the token is in this state, has no sessions, and has all
/// mechanisms.
fn check_before<K: TokenId>(
    alloc: Global,
    caller: &mut Caller<K>,
    state: &str,
) -> anyhow::Result<()> {
    check_ask(alloc, caller, Ask::Token, state)?;
    check_ask(alloc, caller, Ask::Session(1), "b3")?;
    check_mechanisms(caller)
}

/// The login of the user.
fn user_login() -> Call {
    Call::login(1, UserType::User, Pin::of(b"user"))
}

/// What is answered of session 1 after this many entries: after the first calls the user logs in.
fn state_after(entries: u64) -> &'static str {
    if entries == FIRST { "0 2 6" } else { "0 3 6" }
}

/// Checks that all steps of a script were taken. With each answer comes how many entries the caller
/// knows: the answer must be that of their state, and no entry is forgotten. With a reply the
/// number must rise, by the entry of its call at least. Says how many questions were answered.
fn check_script<K: TokenId>(alloc: Global, script: &StepScript<K>) -> anyhow::Result<u64> {
    check_taken(script)?;
    let mut known = FIRST;
    let mut answered = 0u64;
    for answer in script.answers() {
        match answer {
            Answered::Reply { seen, .. } => {
                ensure!(known < *seen, "a caller knows no more after its call");
                known = *seen;
            }
            Answered::Status { status, seen } => {
                ensure!(known <= *seen, "a caller knows less than before");
                check_status(alloc, status, state_after(*seen))?;
                known = *seen;
                answered = answered.saturating_add(1);
            }
        }
    }
    Ok(answered)
}

/// The caller at this place, from 0.
fn caller_at<K: TokenId>(
    callers: &mut [Caller<K>],
    index: usize,
) -> anyhow::Result<&mut Caller<K>> {
    callers.get_mut(index).context("a caller is missing")
}

/// Checks that a caller which makes no call, and learns, then knows this many entries and sees
/// their state.
fn check_learnt<K: TokenId>(
    alloc: Global,
    callers: &mut [Caller<K>],
    news: &News<K>,
    entries: u64,
) -> anyhow::Result<()> {
    let caller = caller_at(callers, 1)?;
    caller.learn(news);
    ensure!(
        caller.seen() == entries && caller.count() == 0,
        "a caller that learns doesn't know these entries, or has made a call",
    );
    check_ask(alloc, caller, Ask::Session(1), state_after(entries))
}

/// The second caller learns what the first knows, which is this many entries.
fn check_learning<K: TokenId>(
    alloc: Global,
    callers: &mut [Caller<K>],
    entries: u64,
) -> anyhow::Result<()> {
    let news = caller_at(callers, 0)?.news();
    check_learnt(alloc, callers, &news, entries)
}

/// Checks that the second caller, which hasn't learnt of the login, sees it by asking only.
fn await_login<K: TokenId>(alloc: Global, caller: &mut Caller<K>) -> anyhow::Result<()> {
    if caller.seen() == FIRST {
        let ask = Ask::Session(1);
        await_status(
            alloc,
            caller,
            ask,
            state_after(FIRST),
            state_after(WITH_LOGIN),
        )?;
    }
    check_ask(alloc, caller, Ask::Session(1), state_after(WITH_LOGIN))?;
    ensure!(
        caller.seen() == WITH_LOGIN && caller.count() == 0,
        "a caller that asks doesn't know of the login, or has made a call",
    );
    Ok(())
}

/// Checks that a caller sees that the user is logged in, that what is older takes nothing from it,
/// and that it has made as many calls as before.
fn check_older<K: TokenId>(
    alloc: Global,
    caller: &mut Caller<K>,
    older: &News<K>,
) -> anyhow::Result<()> {
    let count = caller.count();
    check_ask(alloc, caller, Ask::Session(1), state_after(WITH_LOGIN))?;
    caller.learn(older);
    ensure!(
        caller.seen() == WITH_LOGIN && caller.count() == count,
        "older news takes something from a caller",
    );
    Ok(())
}

/// Checks that the second caller sees the login and then learns of it, and that all callers know of
/// it then.
fn check_after<K: TokenId>(
    alloc: Global,
    callers: &mut [Caller<K>],
    older: &News<K>,
) -> anyhow::Result<()> {
    await_login(alloc, caller_at(callers, 1)?)?;
    check_learning(alloc, callers, WITH_LOGIN)?;
    ensure!(
        caller_at(callers, 0)?.count() == WITH_LOGIN,
        "the first caller hasn't made as many calls as there are entries",
    );
    for caller in callers {
        check_older(alloc, caller, older)?;
    }
    Ok(())
}

/// How many times a caller asks in its script. Of two callers the first asks only once.
fn asks_of(caller: u32, callers: usize) -> u32 {
    match caller {
        1 if callers == 2 => 1,
        1 | 2 => ASKS,
        _ => 0,
    }
}

/// The first of these callers logs in. It and the second then ask.
fn steps_of(alloc: Global, caller: u32, callers: usize) -> anyhow::Result<Vec<Step>> {
    let mut steps = Vec::new(alloc);
    if caller == 1 {
        steps.push(Step::Call(user_login()))?;
    }
    for _ in 0..asks_of(caller, callers) {
        steps.push(Step::Ask(Ask::Session(1)))?;
    }
    Ok(steps)
}

/// Checks the answers to the steps of all scripts. Says how many questions were answered.
fn check_scripts<K: TokenId>(alloc: Global, scripts: &[StepScript<K>]) -> anyhow::Result<u64> {
    let mut answered = 0u64;
    for script in scripts {
        answered = answered.saturating_add(check_script(alloc, script)?);
    }
    Ok(answered)
}

impl<'a, K: TokenId, R: Runtime> Shared<'a, K, R> {
    /// A caller makes a call, which is answered CKR_OK.
    pub(crate) fn make_call(&self, caller: &mut Caller<K>, call: Call) -> anyhow::Result<()> {
        let reply = self.call(caller, call)?;
        ensure!(reply.rv == Rv::Ok, "a call is refused");
        Ok(())
    }

    /// A caller initializes the token and opens session 1, which it then sees.
    fn open_session(&self, caller: &mut Caller<K>) -> anyhow::Result<()> {
        let alloc = self.rt.alloc();
        let pin = Pin::of(b"1234");
        let flags = READ_WRITE;
        self.make_call(caller, Call::InitToken { pin })?;
        self.make_call(caller, Call::OpenSession { flags })?;
        check_ask(alloc, caller, Ask::Session(1), "0 2 6")?;
        check_ask(alloc, caller, Ask::Token, "0 404 64 1 1")
    }

    /// A caller makes the first calls: then session 1 is open, nobody is logged in, and the user
    /// has a PIN.
    fn make_first_calls(&self, caller: &mut Caller<K>) -> anyhow::Result<()> {
        let (so, pin, session) = (Pin::of(b"1234"), Pin::of(b"user"), 1);
        self.open_session(caller)?;
        self.make_call(caller, Call::login(session, UserType::So, so))?;
        self.make_call(caller, Call::InitPin { session, pin })?;
        self.make_call(caller, Call::Logout { session })?;
        self.make_call(caller, user_login())?;
        self.make_call(caller, Call::Logout { session })?;
        ensure!(
            caller.seen() == FIRST && caller.count() == FIRST,
            "the first caller doesn't know the first calls, or doesn't count them",
        );
        check_ask(self.rt.alloc(), caller, Ask::Token, "0 40c 64 1 1")
    }

    /// The last caller asks before the first call. Then the first makes the first calls, of which
    /// the second learns.
    fn prepare(&self, callers: &mut [Caller<K>], state: &str) -> anyhow::Result<()> {
        let alloc = self.rt.alloc();
        let last = callers.last_mut().context("there are no callers")?;
        check_before(alloc, last, state)?;
        self.make_first_calls(caller_at(callers, 0)?)?;
        check_learning(alloc, callers, FIRST)
    }

    /// The second caller makes a call that leaves the sessions, the login and the PINs as they are.
    /// Then both callers are answered without the lock as before, the first once it has learnt of
    /// that call. And the second sees a login of the first by asking only.
    fn check_own_call(&self, callers: &mut [Caller<K>]) -> anyhow::Result<()> {
        let alloc = self.rt.alloc();
        let (session, ask) = (1, Ask::Session(1));
        let (public, user) = (state_after(FIRST), state_after(WITH_LOGIN));
        self.make_call(caller_at(callers, 0)?, Call::Logout { session })?;
        let second = caller_at(callers, 1)?;
        self.make_call(second, Call::GetTokenInfo)?;
        check_ask(alloc, second, ask, public)?;
        let news = second.news();
        let first = caller_at(callers, 0)?;
        first.learn(&news);
        check_ask(alloc, first, ask, public)?;
        self.make_call(first, user_login())?;
        let second = caller_at(callers, 1)?;
        await_status(alloc, second, ask, public, user)?;
        ensure!(
            second.seen() == ALL && second.count() == 1,
            "the second caller doesn't know all entries, or hasn't made one call",
        );
        Ok(())
    }

    /// One caller logs in while another asks. Before the first call this is answered about the
    /// token. Says how many questions were answered meanwhile.
    pub(crate) fn log_in_and_ask(
        &self,
        callers: &mut Vec<Caller<K>>,
        state: &str,
    ) -> anyhow::Result<u64>
    where
        K: Send + Sync,
    {
        let (rt, alloc) = (self.rt, self.rt.alloc());
        self.prepare(callers, state)?;
        let older = caller_at(callers, 0)?.news();
        let count = callers.len();
        let scripts = scripts_of(alloc, callers, |caller| steps_of(alloc, caller, count))?;
        let scripts = run_steps(rt, alloc, self.token, scripts);
        let answered = check_scripts(alloc, &scripts)?;
        return_callers(scripts, callers)?;
        check_after(alloc, callers, &older)?;
        self.check_own_call(callers)?;
        Ok(answered)
    }
}

/// A token before its first call.
#[derive(Clone, Copy)]
enum FirstToken {
    New,
    /// A new one whose journal was cut.
    Cut,
    /// An initialized one whose journal was cut.
    Initialized,
}

impl FirstToken {
    fn make(self, alloc: Global) -> anyhow::Result<Token>
        ensures { IfOk result (λ token. token.history ≡ start (start_of token.history)) }
    {
        match self {
            FirstToken::New => Ok(Token::new(alloc, Limits::largest())),
            FirstToken::Cut => cut_token(alloc, &[]),
            FirstToken::Initialized => initialized_token(alloc),
        }
    }

    /// What is answered of it.
    fn state(self) -> &'static str {
        match self {
            FirstToken::New | FirstToken::Cut => "0 4 64 0 0",
            FirstToken::Initialized => "0 404 64 0 0",
        }
    }
}

/// Callers call and ask. In the end the journal has an entry for each call. Says how many questions
/// were answered.
fn run_once<R: Runtime>(rt: R, callers: u32, first: FirstToken) -> anyhow::Result<u64>
    requires callers { (1 ≤ callers) × (callers ≤ 8) }
{
    let work = SharedWork::LoginAndAsks(first.state());
    let (outcome, entries) = share_audited(rt, first.make(rt.alloc())?, callers, &work)?;
    ensure!(entries == ALL, "not an entry for each call");
    Ok(outcome.answered)
}

/// All of it on each token. Says how many questions were answered.
fn run_on_each_token<R: Runtime>(rt: R, callers: u32) -> anyhow::Result<u64>
    requires callers { (1 ≤ callers) × (callers ≤ 8) }
{
    let mut answered = 0u64;
    for first in [FirstToken::New, FirstToken::Cut, FirstToken::Initialized] {
        answered = answered.saturating_add(run_once(rt, callers, first)?);
    }
    Ok(answered)
}

/// All of it again and again. Says how many questions were answered.
pub(crate) fn run_asks<R: Runtime>(rt: R) -> anyhow::Result<u64> {
    let mut answered = 0u64;
    for _ in 0..RUNS {
        answered = answered.saturating_add(run_on_each_token(rt, 2)?);
        answered = answered.saturating_add(run_on_each_token(rt, 3)?);
    }
    Ok(answered)
}
