//! Each of two callers opens a session and then asks how many are open, by `run_steps`. The call of
//! one is held until that of the other is answered: where the lists were taken one after the other,
//! it would come too late. The one that was first sees the other's session by asking only.
use crate::asks::{await_status, check_ask, check_status};
use crate::gates::HeldGate;
use crate::orders::CallOrder;
use crate::scripts::{StepScript, check_taken, return_callers, scripts_of};
use crate::shared_work::{Shared, SharedWork, share_audited};
use crate::tokens::initialized_token;
use anyhow::ensure;
use ck_shared::{Answered, Ask, Caller, Runtime, Step, TokenId, run_steps};
use ck_token::{Body, Call, READ_WRITE, Reply, Rv};
use std::alloc::Global;

/// How many times a caller asks after its call.
const ASKS: u32 = 100;

/// How many times it is run with each of the two callers as the first one.
const RUNS: u32 = 100;

/// What is answered of the token after this many entries: each opens a session.
fn info_after(entries: u64) -> &'static str {
    match entries {
        1 => "0 404 64 1 1",
        _ => "0 404 64 2 2",
    }
}

/// A call, and questions after it.
fn steps(alloc: Global) -> anyhow::Result<Vec<Step>> {
    let mut steps = Vec::new(alloc);
    steps.push(Step::Call(Call::OpenSession { flags: READ_WRITE }))?;
    for _ in 0..ASKS {
        steps.push(Step::Ask(Ask::Token))?;
    }
    Ok(steps)
}

/// Checks that the reply of the entry of this number gives the handle of that number.
fn check_reply(reply: &Reply, entry: u64) -> anyhow::Result<()> {
    ensure!(
        matches!((&reply.rv, &reply.body), (Rv::Ok, Body::Handle(handle)) if *handle == entry),
        "a call is refused, or its handle isn't the number of its entry",
    );
    Ok(())
}

/// Checks that what was answered to a step agrees with its number.
fn check_answer(alloc: Global, answer: &Answered) -> anyhow::Result<()> {
    match answer {
        Answered::Reply { reply, seen } => check_reply(reply, *seen),
        Answered::Status { status, seen } => check_status(alloc, status, info_after(*seen)),
    }
}

/// Checks that all steps of a script were taken, the first of them as the entry of this number.
/// Says how many were answered.
fn check_script<K: TokenId>(
    alloc: Global,
    script: &StepScript<K>,
    entry: u64,
) -> anyhow::Result<u64> {
    check_taken(script)?;
    let answers = script.answers();
    ensure!(
        matches!(answers.first(), Some(Answered::Reply { seen, .. }) if *seen == entry),
        "the first step isn't a call, or its entry isn't the one that it must be",
    );
    for answer in answers {
        check_answer(alloc, answer)?;
    }
    Ok(answers.len() as u64)
}

/// Checks that the first of two callers made its call as the entry of this number, and the second
/// as the other of two. Says how many steps were answered.
fn check_scripts<K: TokenId>(
    alloc: Global,
    scripts: &[StepScript<K>],
    first: u64,
) -> anyhow::Result<u64> {
    let mut entry = first;
    let mut answered = 0u64;
    for script in scripts {
        answered = answered.saturating_add(check_script(alloc, script, entry)?);
        entry = if entry == 1 { 2 } else { 1 };
    }
    Ok(answered)
}

impl<'a, K: TokenId, R: Runtime> Shared<'a, K, R> {
    /// Checks that a caller that has made a call sees both sessions by asking only. Then it makes a
    /// call that leaves sessions, logins and PINs as they are, and must be answered without the
    /// lock as before.
    fn check_opened(&self, caller: &mut Caller<K>) -> anyhow::Result<()> {
        let alloc = self.rt.alloc();
        if caller.seen() == 1 {
            await_status(alloc, caller, Ask::Token, info_after(1), info_after(2))?;
        }
        self.make_call(caller, Call::GetTokenInfo)?;
        check_ask(alloc, caller, Ask::Token, info_after(2))?;
        ensure!(caller.count() == 2, "a caller hasn't made two calls");
        Ok(())
    }

    /// Each of two callers opens a session, this one first, and then asks. Says how many of these
    /// steps were answered.
    pub(crate) fn open_sessions(
        &self,
        callers: &mut Vec<Caller<K>>,
        first: u32,
        order: &CallOrder,
    ) -> anyhow::Result<u64>
    where
        K: Send + Sync,
    {
        let (rt, alloc) = (self.rt, self.rt.alloc());
        let scripts = scripts_of(alloc, callers, |_| steps(alloc))?;
        let gate = HeldGate::new(self.token, order);
        let scripts = run_steps(rt, alloc, &gate, scripts);
        ensure!(
            gate.asked() == 2 * u64::from(ASKS),
            "not each question has come to the gate"
        );
        let answered = check_scripts(alloc, &scripts, u64::from(first))?;
        return_callers(scripts, callers)?;
        for caller in callers {
            self.check_opened(caller)?;
        }
        Ok(answered)
    }
}

/// Runs it once, with this caller as the first one. Says how many steps were answered.
fn run_once<R: Runtime>(rt: R, first: u32) -> anyhow::Result<u64> {
    let alloc = rt.alloc();
    let callers = if first == 1 { [1, 2] } else { [2, 1] };
    let order = CallOrder::new(&callers);
    let work = SharedWork::Openings {
        first,
        order: &order,
    };
    let (outcome, _entries) = share_audited(rt, initialized_token(alloc)?, 2, &work)?;
    ensure!(!order.is_late(), "a step wasn't the next one in time");
    Ok(outcome.answered)
}

/// Runs it both ways.
fn run_both_ways<R: Runtime>(rt: R) -> anyhow::Result<u64> {
    Ok(run_once(rt, 1)?.saturating_add(run_once(rt, 2)?))
}

/// Runs it again and again. Says how many steps were answered.
pub(crate) fn run_held_steps<R: Runtime>(rt: R) -> anyhow::Result<u64> {
    let mut answered = 0u64;
    for _ in 0..RUNS {
        answered = answered.saturating_add(run_both_ways(rt)?);
    }
    Ok(answered)
}
