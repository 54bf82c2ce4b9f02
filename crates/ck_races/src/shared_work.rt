//! A token that is shared until it is taken back, and what is done with its callers meanwhile.
ghost use Rattle.std.specs.Prelude.{◌≡◌, ◌≤◌, ℕ, IfErr};
ghost use Rattle.ck_token.specs.Histories.{start, start_of};
ghost use Rattle.ck_shared.specs.Accounts.{name_of};

use crate::journals::{CallerReplies, check_audit, check_number};
use crate::orders::CallOrder;
use crate::races::Race;
use anyhow::{Context, bail, ensure};
use ck_shared::{Caller, Ends, NewIdentity, Runtime, SharedToken, TokenId};
use ck_token::{Call, Limits, NoMemory, Reply, Token};
use std::alloc::Global;
use std::marker::Brand;
use std::time::{CpuClock, Duration};

/// How many short calls come before the long messages.
const SHORT_CALLS: u32 = 2_000;

/// What is done with a shared token and its callers.
#[derive(Drop)]
pub(crate) enum SharedWork<'a> {
    /// One caller logs in while another asks. Before, this is answered about the token.
    LoginAndAsks(&'a str),
    /// Each of two callers opens a session, first this one.
    Openings {
        first: u32,
        order: &'a CallOrder<'a>,
    },
    /// Two callers make all calls of a race, one after the other.
    AllCalls(&'a Race<'a>),
    /// One caller makes the calls of a race by scripts.
    CallsByScripts(&'a Race<'a>),
    /// The callers of a race make its calls by scripts, in an order.
    HeldScripts {
        race: &'a Race<'a>,
        order: &'a CallOrder<'a>,
    },
    /// Eight callers make the calls of their scripts.
    EightScripts,
    /// Callers of which some may have no thread make the calls of their scripts.
    FewThreads,
    /// One caller makes calls under one lock. Then both callers are lost.
    CallsUnderLock,
    /// Two callers make a call each, one of them under a lock that it holds for long.
    CallBesideLock,
    /// Messages are taken in before a caller adds them to a digest, and one adds some while another
    /// takes the lock.
    LongMessages,
    /// One of two callers makes calls with long messages, each after a call of the other. The
    /// message is taken in before both.
    CallsBehindCalls,
}

/// What came of it.
#[derive(Drop)]
pub(crate) struct Outcome {
    /// The replies to each caller, where they are compared with the journal.
    pub(crate) replies: Vec<CallerReplies>,
    /// How many calls were made again.
    pub(crate) retries: u64,
    /// How many steps or questions were answered meanwhile, where they are counted.
    pub(crate) answered: u64,
}

impl Outcome {
    /// Nothing came of the work yet.
    fn new(alloc: Global) -> Outcome {
        Outcome {
            replies: Vec::new(alloc),
            retries: 0,
            answered: 0,
        }
    }
}

/// A token that was taken back, and what came of the work.
pub(crate) type Returned = (Token, Outcome);

/// Checks that callers stand in the order of their numbers.
fn check_numbers<K: TokenId>(callers: &[Caller<K>]) -> anyhow::Result<()> {
    for (index, caller) in callers.iter().enumerate() {
        check_number(index, caller.number())?;
    }
    Ok(())
}

/// The token isn't taken back where a caller is missing: the other callers come back with it.
fn try_without_one<K: TokenId, R: Runtime>(
    rt: &R,
    token: SharedToken<K, Token, R>,
    mut callers: Vec<Caller<K>>,
) -> anyhow::Result<(SharedToken<K, Token, R>, Vec<Caller<K>>)> {
    let Some(missing) = callers.pop() else {
        bail!("no callers came back");
    };
    let others = callers.len();
    match token.close(rt, callers) {
        Ok(_) => bail!("a token was taken back, and a caller is missing"),
        Err((token, mut callers)) => {
            ensure!(callers.len() == others, "another caller is missing");
            callers.push(missing)?;
            check_numbers(&callers)?;
            Ok((token, callers))
        }
    }
}

/// Takes the token back from all of its callers.
fn close<K: TokenId, R: Runtime>(
    rt: &R,
    token: SharedToken<K, Token, R>,
    callers: Vec<Caller<K>>,
) -> anyhow::Result<Token> {
    let (token, callers) = try_without_one(rt, token, callers)?;
    match token.close(rt, callers) {
        Ok(token) => Ok(token),
        Err(_) => bail!("a caller is missing"),
    }
}

/// A shared token, and what its callers run on.
#[derive(Drop)]
pub(crate) struct Shared<'a, K: TokenId, R: Runtime> {
    pub(crate) rt: &'a R,
    pub(crate) token: &'a SharedToken<K, Token, R>,
}

impl<'a, K: TokenId, R: Runtime> Shared<'a, K, R> {
    /// A caller makes a call.
    pub(crate) fn call(&self, caller: &mut Caller<K>, call: Call) -> Result<Reply, NoMemory> {
        self.token.call(self.rt, self.rt.alloc(), caller, call)
    }

    /// The first caller makes short calls, so that what comes then has a long history.
    pub(crate) fn make_short_calls(&self, callers: &mut [Caller<K>]) -> anyhow::Result<()> {
        let caller = callers.first_mut().context("a caller is missing")?;
        for _ in 0..SHORT_CALLS {
            self.make_call(caller, Call::GetTokenInfo)?;
        }
        Ok(())
    }

    /// Does the work. All callers stay among these.
    fn act(&self, callers: &mut Vec<Caller<K>>, work: &SharedWork) -> anyhow::Result<Outcome>
    where
        K: Send + Sync,
    {
        let mut outcome = Outcome::new(self.rt.alloc());
        match work {
            SharedWork::LoginAndAsks(state) => {
                outcome.answered = self.log_in_and_ask(callers, state)?;
            }
            SharedWork::Openings { first, order } => {
                outcome.answered = self.open_sessions(callers, *first, order)?;
            }
            SharedWork::AllCalls(race) => outcome.retries = self.make_race(callers, race)?,
            SharedWork::CallsByScripts(race) => {
                outcome.retries = self.make_by_scripts(callers, race)?;
            }
            SharedWork::HeldScripts { race, order } => {
                outcome.replies = self.run_held(callers, race, order)?;
            }
            SharedWork::EightScripts => outcome.replies = self.run_eight(callers)?,
            SharedWork::FewThreads => outcome.answered = self.run_few(callers)?,
            SharedWork::CallsUnderLock => self.call_under_lock(callers)?,
            SharedWork::CallBesideLock => outcome.replies = self.call_beside_lock(callers)?,
            SharedWork::LongMessages => self.add_long_messages(callers)?,
            SharedWork::CallsBehindCalls => self.make_calls_behind(callers)?,
        }
        Ok(outcome)
    }
}

/// Does the work, and takes the token back.
fn act_and_close<K: TokenId + Send + Sync, R: Runtime>(
    rt: &R,
    token: SharedToken<K, Token, R>,
    mut callers: Vec<Caller<K>>,
    work: &SharedWork,
) -> anyhow::Result<Returned> {
    let shared = Shared { rt, token: &token };
    let outcome = shared.act(&mut callers, work)?;
    if matches!(work, SharedWork::CallsUnderLock) {
        // The callers are lost, and the token is taken back without them.
        drop(callers);
        return Ok((token.into_token(), outcome));
    }
    Ok((close(rt, token, callers)?, outcome))
}

/// As `share_once`, where `K` stands for the token's history.
fn share_as<K: TokenId + Send + Sync, R: Runtime>(
    rt: R,
    token: Token,
    callers: u32,
    identity: NewIdentity,
    work: &SharedWork,
) -> Result<anyhow::Result<Returned>, Token>
    requires history { token.history ≡ start K.base }
    requires limits { token.limits ≡ K.limits }
    requires callers { (1 ≤ callers) × (callers ≤ 8) × (callers ≡ K.callers) }
    requires book { identity.history.seen.book ≡ K.book }
    requires ledgers { (n : ℕ) → K.ledger n ≡ name_of identity.ledgers n }
    ensures { IfErr result (λ back. back ≡ token) }
{
    let alloc = rt.alloc();
    match SharedToken::<K, Token, R>::adopt(rt, alloc, token, callers, identity) {
        Ok(Ends { token, callers }) => Ok(act_and_close(&rt, token, callers, work)),
        Err((token, NoMemory)) => Err(token),
    }
}

/// As `share_with`. Where there is no memory to share the token, it comes back.
fn share_once<R: Runtime>(
    rt: R,
    token: Token,
    callers: u32,
    work: &SharedWork,
) -> Result<anyhow::Result<Returned>, Token>
    requires history { token.history ≡ start (start_of token.history) }
    requires callers { (1 ≤ callers) × (callers ≤ 8) }
    ensures { IfErr result (λ back. back ≡ token) }
{
    share_as::<Brand, R>(rt, token, callers, NewIdentity::new(), work)
}

/// Shares a token whose journal has no entries among callers, does the work and takes the token
/// back. Where there is no memory to share it, it is tried once more: the token is as it was.
pub(crate) fn share_with<R: Runtime>(
    rt: R,
    token: Token,
    callers: u32,
    work: &SharedWork,
) -> anyhow::Result<Returned>
    requires history { token.history ≡ start (start_of token.history) }
    requires callers { (1 ≤ callers) × (callers ≤ 8) }
{
    match share_once(rt, token, callers, work) {
        Ok(done) => done,
        Err(token) => match share_once(rt, token, callers, work) {
            Ok(done) => done,
            Err(_) => bail!("out of memory a second time"),
        },
    }
}

/// As `share_with`. The token's journal is audited then. Says how many entries it has.
pub(crate) fn share_audited<R: Runtime>(
    rt: R,
    token: Token,
    callers: u32,
    work: &SharedWork,
) -> anyhow::Result<(Outcome, u64)>
    requires history { token.history ≡ start (start_of token.history) }
    requires callers { (1 ≤ callers) × (callers ≤ 8) }
{
    let (token, outcome) = share_with(rt, token, callers, work)?;
    let entries = check_audit(rt.alloc(), &token)?;
    Ok((outcome, entries))
}

/// Shares a new token between two callers, does the work and takes the token back. Says what that
/// takes of the processor, too.
pub(crate) fn share_timed<R: CpuClock + Runtime>(
    rt: R,
    work: &SharedWork,
) -> anyhow::Result<(Duration, Returned)> {
    let before = rt.process_cpu_time()?;
    let returned = share_with(rt, Token::new(rt.alloc(), Limits::largest()), 2, work)?;
    let after = rt.process_cpu_time()?;
    Ok((after.saturating_sub(before), returned))
}
