//! Callers make their calls by `run_scripts`, at a gate that holds each until it is the next one.
use crate::gates::TakingGate;
use crate::journals::CallerReplies;
use crate::orders::CallOrder;
use crate::races::{Race, RaceLine};
use crate::shared_work::Shared;
use anyhow::ensure;
use ck_shared::{Answered, Caller, Gate, Runtime, Script, Step, TokenId, run_scripts};
use ck_token::{Call, NoMemory};
use std::alloc::Global;
use std::mem;

/// A script of calls and questions.
pub(crate) type StepScript<K> = Script<K, Step, Answered>;

/// A script for a caller, of the steps that are made for its number.
fn script_of<K, S, A, F>(
    alloc: Global,
    caller: Caller<K>,
    steps_of: &F,
) -> anyhow::Result<Script<K, S, A>>
where
    K: TokenId,
    S: Drop,
    A: Drop,
    F: Fn(u32) -> anyhow::Result<Vec<S>>,
    requires { F.IsAlwaysCallable steps_of.now }
{
    let steps = steps_of(caller.number())?;
    // A match, since the closure of a `map_err` would be heavy for the prover.
    match Script::new(alloc, caller, steps) {
        Ok(script) => Ok(script),
        Err(_) => Err(NoMemory.into()),
    }
}

/// A script for each of these callers, which it takes, of the steps that are made for its number.
pub(crate) fn scripts_of<K, S, A, F>(
    alloc: Global,
    callers: &mut Vec<Caller<K>>,
    steps_of: F,
) -> anyhow::Result<Vec<Script<K, S, A>>>
where
    K: TokenId,
    S: Drop,
    A: Drop,
    F: Fn(u32) -> anyhow::Result<Vec<S>>,
    requires { F.IsAlwaysCallable steps_of }
{
    let mut scripts = Vec::new(alloc);
    for caller in mem::replace(callers, Vec::new(alloc)) {
        scripts.push(script_of(alloc, caller, &steps_of)?)?;
    }
    Ok(scripts)
}

/// The callers of scripts come back.
pub(crate) fn return_callers<K: TokenId, S: Drop, A: Drop>(
    scripts: Vec<Script<K, S, A>>,
    callers: &mut Vec<Caller<K>>,
) -> Result<(), NoMemory> {
    for script in scripts {
        callers.push(script.caller)?;
    }
    Ok(())
}

/// The calls of lines.
pub(crate) fn calls_of(alloc: Global, lines: &[RaceLine]) -> Result<Vec<Call>, NoMemory> {
    let mut calls = Vec::new(alloc);
    for line in lines {
        calls.push(line.call.clone()?)?;
    }
    Ok(calls)
}

/// The calls of a caller among these lines.
fn calls_by(alloc: Global, caller: u32, lines: &[RaceLine]) -> anyhow::Result<Vec<Call>> {
    let mut calls = Vec::new(alloc);
    for line in lines {
        if line.caller == caller {
            calls.push(line.call.clone()?)?;
        }
    }
    Ok(calls)
}

/// Checks that all steps of a script were taken, in a thread of its own.
pub(crate) fn check_taken<K: TokenId, S: Drop, A: Drop>(
    script: &Script<K, S, A>,
) -> anyhow::Result<()> {
    ensure!(script.started(), "a script had no thread");
    script.outcome()?;
    Ok(())
}

/// The caller of a script comes back. Gives the replies to it.
fn finish<K: TokenId>(
    script: Script<K>,
    callers: &mut Vec<Caller<K>>,
) -> anyhow::Result<CallerReplies> {
    check_taken(&script)?;
    let (caller, replies) = script.into_parts();
    let number = caller.number();
    callers.push(caller)?;
    Ok(CallerReplies { number, replies })
}

/// The callers of scripts come back. Gives the replies to each.
fn finish_all<K: TokenId>(
    alloc: Global,
    scripts: Vec<Script<K>>,
    callers: &mut Vec<Caller<K>>,
) -> anyhow::Result<Vec<CallerReplies>> {
    let mut all = Vec::new(alloc);
    for script in scripts {
        all.push(finish(script, callers)?)?;
    }
    Ok(all)
}

impl<'a, K: TokenId + Send + Sync, R: Runtime> Shared<'a, K, R> {
    /// The callers make these calls at a gate, by scripts. Gives the replies to each.
    pub(crate) fn run_at<G, F>(
        &self,
        gate: &G,
        callers: &mut Vec<Caller<K>>,
        calls_for: F,
    ) -> anyhow::Result<Vec<CallerReplies>>
    where
        G: Gate<K> + Sync,
        F: Fn(u32) -> anyhow::Result<Vec<Call>>,
        requires { F.IsAlwaysCallable calls_for }
    {
        let (rt, alloc) = (self.rt, self.rt.alloc());
        let scripts = scripts_of(alloc, callers, calls_for)?;
        finish_all(alloc, run_scripts(rt, alloc, gate, scripts), callers)
    }

    /// The callers make their calls of a race by scripts. The bytes of a long message are taken in,
    /// and then each call is held until it is the next one. Gives the replies to each.
    pub(crate) fn run_held(
        &self,
        callers: &mut Vec<Caller<K>>,
        race: &Race,
        order: &CallOrder,
    ) -> anyhow::Result<Vec<CallerReplies>> {
        let alloc = self.rt.alloc();
        let gate = TakingGate::new(self.token, order);
        self.run_at(
            &gate,
            callers,
            |caller| calls_by(alloc, caller, &race.lines),
        )
    }
}
