//! Whoever waits for the lock sleeps after a while: while one caller has it for long, the call of
//! another takes hardly any processor time.
use crate::gates::HoldingGate;
use crate::journals::{CallerReplies, check_audit, check_replies};
use crate::shared_work::{Shared, SharedWork, share_timed};
use anyhow::{bail, ensure};
use ck_shared::{Caller, Runtime, TokenId};
use ck_token::{Call, Token};
use std::alloc::Global;
use std::time::{CpuClock, Duration};

/// The most processor time that all of it takes, in milliseconds. A caller that doesn't sleep takes
/// all that the machine gives it while the lock is held.
const MOST_TIME: u64 = 40;

/// How many times it is tried at most.
const TRIES: u32 = 5;

/// The one call of each caller.
fn calls_of(alloc: Global) -> anyhow::Result<Vec<Call>> {
    Ok(vec![in alloc; Call::GetTokenInfo]?)
}

impl<'a, K: TokenId, R: Runtime> Shared<'a, K, R> {
    /// Two callers make a call each, the first one under a lock that it holds for long. Gives the
    /// replies to each.
    pub(crate) fn call_beside_lock(
        &self,
        callers: &mut Vec<Caller<K>>,
    ) -> anyhow::Result<Vec<CallerReplies>>
    where
        K: Send + Sync,
    {
        let (alloc, gate) = (self.rt.alloc(), HoldingGate::new(self.token));
        self.run_at(&gate, callers, |_| calls_of(alloc))
    }
}

/// Checks that the callers had the lock in their order, and got the replies of their entries. Says
/// how many entries there are.
fn check_calls(alloc: Global, token: &Token, replies: Vec<CallerReplies>) -> anyhow::Result<u64> {
    let journal = token.journal();
    ensure!(
        journal.iter().map(|entry| entry.caller).eq([1, 2]),
        "the entries aren't in the order in which the callers had the lock",
    );
    check_replies(journal, replies)?;
    check_audit(alloc, token)
}

/// Makes the calls on a new token. Says how much processor time that takes, and how many calls they
/// are.
fn time_calls<R: CpuClock + Runtime>(rt: R) -> anyhow::Result<(Duration, u64)> {
    let (time, (token, outcome)) = share_timed(rt, &SharedWork::CallBesideLock)?;
    let calls = check_calls(rt.alloc(), &token, outcome.replies)?;
    Ok((time, calls))
}

/// Makes the calls, until they take as little processor time as they must. Says how many there are.
pub(crate) fn run_sleeping<R: CpuClock + Runtime>(rt: R) -> anyhow::Result<u64> {
    for _ in 0..TRIES {
        let (time, calls) = time_calls(rt)?;
        if time < Duration::from_millis(MOST_TIME) {
            return Ok(calls);
        }
    }
    bail!("a caller that waits for the lock doesn't sleep");
}
