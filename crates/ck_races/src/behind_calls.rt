//! A long message that is taken in before its call counts, although another caller has made calls
//! since: its bytes aren't taken in once more under the lock.
use crate::journals::check_audit;
use crate::shared_work::{Shared, SharedWork, share_timed};
use anyhow::{bail, ensure};
use ck_shared::{Caller, Runtime, TokenId};
use ck_token::{Bytes, Call, Limits, Mechanism, Pin, READ_WRITE, Rv, SHA256, Token};
use std::alloc::Global;
use std::time::{CpuClock, Duration};

/// How many bytes a message has: the most that a call brings.
const LENGTH: usize = 1 << 20;

/// How many calls there are: three, and then ten messages that are added to a digest.
const CALLS: u32 = 13;

/// How many calls the other caller makes between the work on a message and its call.
const CALLS_BETWEEN: u32 = 300;

/// How many times the calls are timed at most.
const TRIES: u32 = 5;

/// The call of this number, from 0: the first three begin a digest in session 1, and each other one
/// adds a long message to it.
fn call_of(alloc: Global, number: u32) -> anyhow::Result<Call> {
    let (pin, flags, session) = (Pin::of(b"1234"), READ_WRITE, 1);
    Ok(match number {
        0 => Call::InitToken { pin },
        1 => Call::OpenSession { flags },
        2 => {
            let mechanism = Mechanism::new(alloc, SHA256);
            Call::DigestInit { session, mechanism }
        }
        _ => {
            let bytes = Bytes::from_vec(vec![in alloc; b'a'; LENGTH]?);
            Call::DigestUpdate { session, bytes }
        }
    })
}

impl<'a, K: TokenId, R: Runtime> Shared<'a, K, R> {
    /// Another caller makes short calls.
    fn make_calls_between(&self, other: &mut Caller<K>) -> anyhow::Result<()> {
        for _ in 0..CALLS_BETWEEN {
            self.make_call(other, Call::GetTokenInfo)?;
        }
        Ok(())
    }

    /// A caller makes a call. Between the work on a message that it brings and the call, another
    /// caller makes some.
    fn call_behind(
        &self,
        caller: &mut Caller<K>,
        other: &mut Caller<K>,
        call: Call,
    ) -> anyhow::Result<()> {
        let alloc = self.rt.alloc();
        let message = self.token.take_in(self.rt, &call);
        self.make_calls_between(other)?;
        let reply = self
            .token
            .call_after(self.rt, alloc, caller, call, message)?;
        ensure!(
            reply.rv == Rv::Ok,
            "a call behind those of another caller is refused"
        );
        Ok(())
    }

    /// Behind short calls the first of two callers makes the calls with the messages, each after
    /// calls of the other.
    pub(crate) fn make_calls_behind(&self, callers: &mut [Caller<K>]) -> anyhow::Result<()> {
        self.make_short_calls(callers)?;
        let [caller, other] = callers else {
            bail!("there are not two callers");
        };
        for number in 0..CALLS {
            let call = call_of(self.rt.alloc(), number)?;
            self.call_behind(caller, other, call)?;
        }
        Ok(())
    }
}

/// What the calls take of the processor on a token that isn't shared.
fn time_unshared<R: CpuClock + Runtime>(rt: &R) -> anyhow::Result<Duration> {
    let alloc = rt.alloc();
    let mut token = Token::new(alloc, Limits::largest());
    let before = rt.process_cpu_time()?;
    for number in 0..CALLS {
        token.try_call(alloc, 1, call_of(alloc, number)?)?;
    }
    Ok(rt.process_cpu_time()?.saturating_sub(before))
}

/// What they take on a shared token, each after calls of the other caller. Says how many calls
/// there are, too.
fn time_behind<R: CpuClock + Runtime>(rt: R) -> anyhow::Result<(Duration, u64)> {
    let (time, (token, _outcome)) = share_timed(rt, &SharedWork::CallsBehindCalls)?;
    let entries = check_audit(rt.alloc(), &token)?;
    Ok((time, entries))
}

/// Makes the calls, until they take less than one and a half times what they take on a token that
/// isn't shared. If the messages were taken in twice, it would be twice. Says how many there are.
pub(crate) fn run_behind_calls<R: CpuClock + Runtime>(rt: R) -> anyhow::Result<u64> {
    for _ in 0..TRIES {
        let unshared = time_unshared(&rt)?;
        let (time, calls) = time_behind(rt)?;
        if time.saturating_mul(2) < unshared.saturating_mul(3) {
            return Ok(calls);
        }
    }
    bail!("messages are taken in once more behind calls of another caller");
}
