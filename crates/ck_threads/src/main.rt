//! Two callers of a shared token open sessions, each in a thread of its own. docs/threads.md says
//! what it shows. What is written is the same in every order of their calls.
#![tactic(auto)]

use ck_shared::{Caller, CallerWork, Gate, TokenId, share};
use ck_token::{Call, Journal, Limits, Pin, READ_WRITE, Rv, Token};
use std::sync::Wait;

/// What each caller does: it opens three sessions.
#[derive(Drop)]
struct ThreeSessions;

impl<R: Wait + AllocGlobal> CallerWork<R> for ThreeSessions {
    ghost use Rattle.std.specs.Prelude.{◌≡◌, IfOk};

    /// How many calls of the caller were answered, where each opened a session.
    type Output = anyhow::Result<u64>;

    // What is proved: where the output is a number, it is that of the caller's answered calls.
    ghost holds = { λ work before after done. IfOk done (λ count. count ≡ after.count) };

    fn act<K: TokenId, G: Gate<K>>(
        &self,
        rt: &R,
        gate: &G,
        caller: &mut Caller<K>,
    ) -> anyhow::Result<u64> {
        for _ in 0..3u32 {
            let call = Call::OpenSession { flags: READ_WRITE };
            gate.call(rt, rt.alloc(), caller, call)?.ok()?;
        }
        Ok(caller.count())
    }
}

/// Writes how many sessions were opened, by how many answered calls, and how many entries the
/// journal has.
fn write_counts<R: Print>(rt: &R, journal: &Journal, calls: u64) -> anyhow::Result<()> {
    let opened = journal.iter().filter(|entry| entry.reply.rv == Rv::Ok);
    println!(rt; "{} sessions were opened by {calls} calls", opened.count())?;
    println!(rt; "the journal has {} entries", journal.len())?;
    Ok(())
}

/// Shares an initialized token between two callers, and writes what came of their calls.
fn main(rt: HostRuntime) -> anyhow::Result<()> {
    let alloc = rt.alloc();
    let mut token = Token::new(alloc, Limits::largest());
    let pin = Pin::of(b"1234");
    token.try_call(alloc, 1, Call::InitToken { pin })?;
    // A token whose journal has entries isn't shared.
    token.cut(alloc)?;
    let mut calls = 0u64;
    for count in share(rt, alloc, &mut token, 2, &ThreeSessions)? {
        calls = calls.saturating_add(count?);
    }
    write_counts(&rt, token.journal(), calls)
}
