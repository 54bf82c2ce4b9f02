//! A caller makes calls under one lock, while another is answered without it. Then both callers are
//! lost, and the token is taken back without them.
use crate::asks::check_ask;
use crate::journals::check_audit;
use crate::shared_work::{Shared, SharedWork, share_with};
use anyhow::{bail, ensure};
use ck_shared::{Ask, Caller, Locked, Runtime, TokenId};
use ck_token::{Call, Limits, Pin, READ_WRITE, Token};
use std::alloc::Global;

/// How many calls are made under one lock.
const LOCKED: u64 = 3;

/// How many entries there are in the end: the other caller makes a call, too.
const ALL: u64 = 4;

impl<'a, K: TokenId, R: Runtime> Shared<'a, K, R> {
    /// A caller initializes the token, and opens two sessions, under a lock.
    fn open_under(
        &self,
        locked: &mut Locked<K, Token, R>,
        caller: &mut Caller<K>,
    ) -> anyhow::Result<()> {
        let (pin, flags) = (Pin::of(b"1234"), READ_WRITE);
        let calls = [
            Call::InitToken { pin },
            Call::OpenSession { flags },
            Call::OpenSession { flags },
        ];
        for call in calls {
            locked.step(self.rt, self.rt.alloc(), caller, call)?.ok()?;
        }
        ensure!(
            locked.token().journal().len() == LOCKED,
            "not an entry for each call under the lock",
        );
        Ok(())
    }

    /// A caller makes these calls under one lock. Meanwhile another sees the sessions without it.
    fn open_under_lock(&self, caller: &mut Caller<K>, other: &mut Caller<K>) -> anyhow::Result<()> {
        let mut locked = self.token.lock(self.rt);
        self.open_under(&mut locked, caller)?;
        check_ask(self.rt.alloc(), other, Ask::Token, "0 404 64 2 2")
    }

    /// A caller makes calls under one lock. When it is free, another makes one.
    pub(crate) fn call_under_lock(&self, callers: &mut [Caller<K>]) -> anyhow::Result<()> {
        let [caller, other] = callers else {
            bail!("there are not two callers");
        };
        self.open_under_lock(caller, other)?;
        self.make_call(other, Call::CloseAllSessions)?;
        ensure!(
            caller.count() == LOCKED && other.count() == 1 && other.seen() == ALL,
            "a caller doesn't count its calls, or doesn't know all entries",
        );
        Ok(())
    }
}

/// Checks that the journal has an entry for each call, though the callers are lost. Says how many
/// there are.
fn check_calls(alloc: Global, token: &Token) -> anyhow::Result<u64> {
    let journal = token.journal();
    ensure!(journal.len() == ALL, "not an entry for each call");
    ensure!(
        journal.iter().map(|entry| entry.caller).eq([1, 1, 1, 2]),
        "the entries aren't in the order in which the callers had the lock",
    );
    check_audit(alloc, token)
}

/// Makes the calls on a new token. Says how many there are.
pub(crate) fn run_locked_calls<R: Runtime>(rt: R) -> anyhow::Result<u64> {
    let alloc = rt.alloc();
    let token = Token::new(alloc, Limits::largest());
    let (token, _outcome) = share_with(rt, token, 2, &SharedWork::CallsUnderLock)?;
    check_calls(alloc, &token)
}
