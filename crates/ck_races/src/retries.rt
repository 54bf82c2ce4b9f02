//! The calls of a race, one after the other on a shared token, by two callers in turn. What finds
//! no memory, which `bench/growths.py` refuses, is made again by the other one.
use crate::asks::check_mechanisms;
use crate::journals::check_retried;
use crate::races::{Race, RaceLine, check_reply};
use crate::retried_runs::retry_run;
use crate::retried_scripts::retry_script;
use crate::shared_work::{Shared, SharedWork, share_with};
use crate::tokens::prepared_token;
use anyhow::{bail, ensure};
use ck_audit::are_same_replies;
use ck_shared::{Ask, Caller, Runtime, Status, TokenId};
use ck_token::{Reply, Token};
use std::alloc::Global;

/// What a caller knows, and what it is answered without the lock.
#[derive(Drop)]
struct Knowledge {
    seen: u64,
    count: u64,
    token: Reply,
    session: Reply,
}

/// What a caller is answered without the lock.
fn answer_to<K: TokenId>(caller: &mut Caller<K>, ask: Ask) -> anyhow::Result<Reply> {
    match caller.status(ask) {
        Some(Status::Reply(reply)) => Ok(reply),
        _ => bail!("a question is not answered"),
    }
}

/// What a caller knows when it has asked.
fn knowledge_of<K: TokenId>(caller: &mut Caller<K>) -> anyhow::Result<Knowledge> {
    let token = answer_to(caller, Ask::Token)?;
    let session = answer_to(caller, Ask::Session(1))?;
    Ok(Knowledge {
        seen: caller.seen(),
        count: caller.count(),
        token,
        session,
    })
}

/// Checks that a caller knows what it knew, and is answered as it was. When it asks it may learn of
/// calls that others made before.
fn check_unchanged<K: TokenId>(caller: &mut Caller<K>, before: &Knowledge) -> anyhow::Result<()> {
    let knows_the_same = caller.seen() == before.seen && caller.count() == before.count;
    let after = knowledge_of(caller)?;
    ensure!(
        knows_the_same
            && are_same_replies(&after.token, &before.token)
            && are_same_replies(&after.session, &before.session),
        "changed by a call without memory"
    );
    check_mechanisms(caller)
}

impl<'a, K: TokenId, R: Runtime> Shared<'a, K, R> {
    /// Makes a call, and says whether there was memory for it.
    fn make_once(&self, caller: &mut Caller<K>, line: &RaceLine) -> anyhow::Result<bool> {
        let Ok(reply) = self.call(caller, line.call.clone()?) else {
            return Ok(false);
        };
        check_reply(self.rt.alloc(), line, &reply)?;
        Ok(true)
    }

    /// Makes a call, and says whether it was made again: where it finds no memory, the caller knows
    /// what it knew, and the other one makes the call. This is then the next entry.
    fn make(
        &self,
        caller: &mut Caller<K>,
        other: &mut Caller<K>,
        entries: u64,
        line: &RaceLine,
    ) -> anyhow::Result<bool> {
        let before = knowledge_of(caller)?;
        if self.make_once(caller, line)? {
            return Ok(false);
        }
        check_unchanged(caller, &before)?;
        ensure!(self.make_once(other, line)?, "out of memory a second time");
        ensure!(
            other.seen() == entries.saturating_add(1),
            "line {} is not one entry more",
            line.number
        );
        Ok(true)
    }

    /// Makes calls one after the other, after this many entries, by each of two callers in turn.
    /// Says how many were made again.
    fn make_all(
        &self,
        lines: &[RaceLine],
        first: usize,
        one: &mut Caller<K>,
        other: &mut Caller<K>,
    ) -> anyhow::Result<u64> {
        let mut retries = 0u64;
        let mut entries = first as u64;
        for line in lines {
            let is_again = if entries % 2 == 0 {
                self.make(one, other, entries, line)?
            } else {
                self.make(other, one, entries, line)?
            };
            if is_again {
                retries = retries.saturating_add(1);
            }
            entries = entries.saturating_add(1);
        }
        Ok(retries)
    }

    /// Two callers make all calls of a race. Says how many were made again.
    pub(crate) fn make_race(&self, callers: &mut [Caller<K>], race: &Race) -> anyhow::Result<u64> {
        let [one, other] = callers else {
            bail!("there are not two callers");
        };
        let Race {
            lines,
            afterwards,
            ..
        } = race;
        let first = self.make_all(lines, 0, one, other)?;
        let after = self.make_all(afterwards, lines.len(), one, other)?;
        Ok(first.saturating_add(after))
    }
}

/// Checks that there is an entry for each call of a race, of which this many were made again.
fn check_calls(alloc: Global, token: &Token, race: &Race, retries: u64) -> anyhow::Result<u64> {
    let calls = race.lines.len().saturating_add(race.afterwards.len());
    ensure!(
        token.journal().len() == calls as u64,
        "not an entry for each call"
    );
    check_retried(alloc, token, retries)
}

/// Two callers make the calls of a race. Says how many were made again.
fn retry_calls<R: Runtime>(rt: R, race: &Race) -> anyhow::Result<u64> {
    let alloc = rt.alloc();
    let token = prepared_token(alloc, race)?;
    let (token, outcome) = share_with(rt, token, 2, &SharedWork::AllCalls(race))?;
    check_calls(alloc, &token, race, outcome.retries)
}

/// Makes the calls of a race by two callers, by `run` and by `run_scripts`. Says how many were made
/// again.
pub(crate) fn retry_race<R: Runtime>(rt: R, race: &Race) -> anyhow::Result<u64> {
    let alloc = rt.alloc();
    let called = retry_calls(rt, race)?;
    let run = retry_run(alloc, race)?;
    let scripted = retry_script(rt, race)?;
    Ok(called.saturating_add(run).saturating_add(scripted))
}
