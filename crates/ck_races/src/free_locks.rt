//! While one caller adds long messages to a digest, the lock is free: another takes it again and
//! again. And a message is also taken in where the other has the lock at the moment.
use crate::gates::{LockingGate, LongCall};
use crate::shared_work::Shared;
use anyhow::ensure;
use ck_shared::{Caller, Runtime, TokenId};
use ck_token::{Bytes, Call};
use std::alloc::Global;

/// How many bytes a message has: the most that a call brings.
const LENGTH: usize = 1 << 20;

/// How many messages one caller adds.
const MESSAGES: u64 = 30;

/// How many times the lock is taken at least while these messages are added.
const LEAST_LOCKS: u64 = 100_000;

/// Calls of caller 1 with long messages for the digest of session 1, and a short one of the other
/// caller.
fn calls_of(alloc: Global, caller: u32) -> anyhow::Result<Vec<Call>> {
    let mut calls = Vec::new(alloc);
    if caller != 1 {
        calls.push(Call::GetTokenInfo)?;
        return Ok(calls);
    }
    for _ in 0..MESSAGES {
        let bytes = Bytes::from_vec(vec![in alloc; b'a'; LENGTH]?);
        calls.push(Call::DigestUpdate { session: 1, bytes })?;
    }
    Ok(calls)
}

impl<'a, K: TokenId + Send + Sync, R: Runtime> Shared<'a, K, R> {
    /// One of two callers adds messages to the digest of session 1, and the other takes the lock
    /// meanwhile.
    pub(crate) fn add_messages(&self, callers: &mut Vec<Caller<K>>) -> anyhow::Result<()> {
        let alloc = self.rt.alloc();
        let gate = LockingGate::new(self.token, LongCall::Called, MESSAGES);
        self.run_at(&gate, callers, |caller| calls_of(alloc, caller))?;
        ensure!(
            gate.locks() >= LEAST_LOCKS,
            "the lock is seldom free while messages are added",
        );
        Ok(())
    }

    /// The same, where `take_in` is tried before each call.
    pub(crate) fn add_taken_messages(&self, callers: &mut Vec<Caller<K>>) -> anyhow::Result<()> {
        let alloc = self.rt.alloc();
        let gate = LockingGate::new(self.token, LongCall::TriedBefore, MESSAGES);
        self.run_at(&gate, callers, |caller| calls_of(alloc, caller))?;
        ensure!(
            gate.taken() == MESSAGES,
            "a message isn't taken in while another has the lock",
        );
        Ok(())
    }
}
