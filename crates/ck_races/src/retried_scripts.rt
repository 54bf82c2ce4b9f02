//! The calls of a race by `run_scripts`, as one script. Where a call finds no memory, which
//! `bench/growths.py` refuses, those that are left are a script of their own.
use crate::journals::{check_entries, check_retried};
use crate::races::{Race, RaceLine};
use crate::scripts::{calls_of, return_callers};
use crate::shared_work::{Shared, SharedWork, share_with};
use crate::tokens::prepared_token;
use anyhow::{Context, ensure};
use ck_shared::{Caller, Runtime, Script, TokenId, run_scripts};
use ck_token::Call;
use std::alloc::Global;

/// A script of a caller. Where there is no room for its replies, the caller and the calls come back
/// as they were, and it is tried once more.
fn retried_script<K: TokenId>(
    alloc: Global,
    caller: Caller<K>,
    calls: Vec<Call>,
) -> anyhow::Result<Script<K>> {
    let (made, left) = (caller.count(), calls.len());
    match Script::new(alloc, caller, calls) {
        Ok(script) => Ok(script),
        Err((caller, calls)) => {
            ensure!(
                caller.count() == made && calls.len() == left,
                "a script without room has made a call"
            );
            Script::new(alloc, caller, calls)
                .ok()
                .context("out of memory a second time")
        }
    }
}

/// The script of the one caller, which is taken.
fn one_script<K: TokenId>(
    alloc: Global,
    callers: &mut Vec<Caller<K>>,
    calls: Vec<Call>,
) -> anyhow::Result<Vec<Script<K>>> {
    let caller = callers.pop().context("a caller is missing")?;
    Ok(vec![in alloc; retried_script(alloc, caller, calls)?]?)
}

/// How many of this many calls of the one script were answered.
fn count_answered<K: TokenId>(scripts: &[Script<K>], calls: usize) -> anyhow::Result<usize> {
    let script = scripts.first().context("a script is missing")?;
    let answered = script.answers().len();
    let is_done = script.started() && script.outcome().is_ok();
    ensure!(is_done == (answered == calls), "a script ended early");
    Ok(answered)
}

/// Checks that the one caller has made this many calls, and knows as many entries.
fn check_counts<K: TokenId>(callers: &[Caller<K>], answered: u64) -> anyhow::Result<()> {
    let caller = callers.first().context("a caller is missing")?;
    ensure!(
        caller.count() == answered && caller.seen() == answered,
        "a script that ended early has other entries than calls"
    );
    Ok(())
}

impl<'a, K: TokenId + Send + Sync, R: Runtime> Shared<'a, K, R> {
    /// The one caller makes calls by a script. Says how many were answered: where not all were, the
    /// next one found no memory, or there was none for a thread.
    fn make_by_script(
        &self,
        callers: &mut Vec<Caller<K>>,
        lines: &[RaceLine],
    ) -> anyhow::Result<usize> {
        let alloc = self.rt.alloc();
        let scripts = one_script(alloc, callers, calls_of(alloc, lines)?)?;
        let scripts = run_scripts(self.rt, alloc, self.token, scripts);
        let answered = count_answered(&scripts, lines.len())?;
        return_callers(scripts, callers)?;
        Ok(answered)
    }

    /// The one caller makes the calls of a race by scripts. Says how many of them ended without
    /// memory.
    pub(crate) fn make_by_scripts(
        &self,
        callers: &mut Vec<Caller<K>>,
        race: &Race,
    ) -> anyhow::Result<u64> {
        let answered = self.make_by_script(callers, &race.lines)?;
        check_counts(callers, answered as u64)?;
        let left = race.lines.get(answered..).unwrap_or(&[]);
        if left.is_empty() {
            return Ok(0);
        }
        let answered = self.make_by_script(callers, left)?;
        ensure!(answered == left.len(), "out of memory a second time");
        Ok(1)
    }
}

/// Makes the calls of a race by scripts of one caller, and says how many of them ended early.
pub(crate) fn retry_script<R: Runtime>(rt: R, race: &Race) -> anyhow::Result<u64> {
    let alloc = rt.alloc();
    let token = prepared_token(alloc, race)?;
    let work = SharedWork::CallsByScripts(race);
    let (token, outcome) = share_with(rt, token, 1, &work)?;
    check_entries(alloc, &race.lines, token.journal())?;
    check_retried(alloc, &token, outcome.retries)
}
