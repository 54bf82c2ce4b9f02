//! Gates before a shared token. They hold calls until others have come, do some work before a call,
//! or hold the lock.
use crate::orders::{CallOrder, LONGEST_SLEEP, MOST_LOOKS};
use ck_shared::{Ask, Caller, Gate, SharedToken, Status, TokenId};
use ck_token::{Call, JournaledToken, NoMemory, Reply};
use std::alloc::Global;
use std::sync::Wait;
use std::sync::atomic::{AtomicU64, Ordering};
use std::time::Duration;

/// How many times a `LockingGate` takes the lock at most.
const MOST_LOCKS: u64 = 100_000_000;

/// How long a `HoldingGate` holds the lock, in milliseconds.
const HELD: u64 = 500;

/// Waits until the lock was taken, of which this is the count.
pub(crate) fn await_lock<W: Wait>(rt: &W, locks: &AtomicU64) {
    let longest = Duration::from_micros(LONGEST_SLEEP);
    for _ in 0..MOST_LOOKS {
        if locks.load(Ordering::SeqCst) > 0 {
            return;
        }
        locks.park_timeout(rt, 0, longest);
    }
}

/// A gate that holds each call until it is the next one of an order, and until those that other
/// callers make next have come too. It counts questions.
#[derive(Drop)]
pub(crate) struct HeldGate<'a, G> {
    gate: &'a G,
    order: &'a CallOrder<'a>,
    asked: AtomicU64,
}

impl<'a, G> HeldGate<'a, G> {
    /// A gate before another, which answers the calls.
    pub(crate) fn new(gate: &'a G, order: &'a CallOrder<'a>) -> HeldGate<'a, G> {
        HeldGate {
            gate,
            order,
            asked: AtomicU64::new(0),
        }
    }

    /// How many questions have come to the gate.
    pub(crate) fn asked(&self) -> u64 {
        self.asked.load(Ordering::SeqCst)
    }
}

impl<'a, K: TokenId, G: Gate<K>> Gate<K> for HeldGate<'a, G> {
    fn call<W: Wait>(
        &self,
        rt: &W,
        alloc: Global,
        caller: &mut Caller<K>,
        call: Call,
    ) -> Result<Reply, NoMemory> {
        self.order.hold(rt, caller.number());
        let reply = self.gate.call(rt, alloc, caller, call);
        self.order.count_made();
        reply
    }

    fn status(&self, caller: &mut Caller<K>, ask: Ask) -> Option<Status> {
        self.asked.fetch_add(1, Ordering::SeqCst);
        self.gate.status(caller, ask)
    }
}

/// A gate before a shared token that holds each call until it is the next one of an order. Before
/// that, the bytes of a long message are taken in: so the calls of others come between the
/// beginning of the work on it and the call.
#[derive(Drop)]
pub(crate) struct TakingGate<'a, K: TokenId, T: JournaledToken, R: Wait + Drop> {
    token: &'a SharedToken<K, T, R>,
    order: &'a CallOrder<'a>,
}

impl<'a, K: TokenId, T: JournaledToken, R: Wait + Drop> TakingGate<'a, K, T, R> {
    /// A gate before a token, which answers the calls.
    pub(crate) fn new(
        token: &'a SharedToken<K, T, R>,
        order: &'a CallOrder<'a>,
    ) -> TakingGate<'a, K, T, R> {
        TakingGate { token, order }
    }
}

impl<'a, K: TokenId, T: JournaledToken, R: Wait + Drop> Gate<K> for TakingGate<'a, K, T, R> {
    fn call<W: Wait>(
        &self,
        rt: &W,
        alloc: Global,
        caller: &mut Caller<K>,
        call: Call,
    ) -> Result<Reply, NoMemory> {
        let message = self.token.take_in(rt, &call);
        self.order.hold(rt, caller.number());
        let reply = self.token.call_after(rt, alloc, caller, call, message);
        self.order.count_made();
        reply
    }
}

/// How a `LockingGate` makes a call with a long message.
#[derive(Clone, Copy, PartialEq)]
pub(crate) enum LongCall {
    /// By `call` alone.
    Called,
    /// By `call`, when `take_in` was tried before.
    TriedBefore,
}

/// A gate before a shared token. The calls with long messages begin when another caller has taken
/// the lock. Any other call comes after them: until then its caller takes the lock again and again.
#[derive(Drop)]
pub(crate) struct LockingGate<'a, K: TokenId, T: JournaledToken, R: Wait + Drop> {
    token: &'a SharedToken<K, T, R>,
    long_call: LongCall,
    locks: AtomicU64,
    /// How many calls with long messages are still to come.
    messages: AtomicU64,
    /// How many messages `take_in` has given.
    taken: AtomicU64,
}

impl<'a, K: TokenId, T: JournaledToken, R: Wait + Drop> LockingGate<'a, K, T, R> {
    /// A gate before a token, which answers the calls. This many of them have long messages, and
    /// are made in this way.
    pub(crate) fn new(
        token: &'a SharedToken<K, T, R>,
        long_call: LongCall,
        messages: u64,
    ) -> LockingGate<'a, K, T, R> {
        LockingGate {
            token,
            long_call,
            locks: AtomicU64::new(0),
            messages: AtomicU64::new(messages),
            taken: AtomicU64::new(0),
        }
    }

    /// How many times the lock was taken.
    pub(crate) fn locks(&self) -> u64 {
        self.locks.load(Ordering::SeqCst)
    }

    /// How many messages `take_in` has given.
    pub(crate) fn taken(&self) -> u64 {
        self.taken.load(Ordering::SeqCst)
    }

    /// Takes in a message, where that is tried before calls, and counts it. It isn't kept.
    fn try_to_take_in<W: Wait>(&self, rt: &W, call: &Call) {
        let is_tried = self.long_call == LongCall::TriedBefore;
        if is_tried && self.token.take_in(rt, call).is_some() {
            self.taken.fetch_add(1, Ordering::SeqCst);
        }
    }

    /// Takes the lock again and again, until all calls with long messages are made.
    fn take_locks<W: Wait>(&self, rt: &W) {
        for _ in 0..MOST_LOCKS {
            if self.messages.load(Ordering::SeqCst) == 0 {
                return;
            }
            drop(self.token.lock(rt));
            self.locks.fetch_add(1, Ordering::SeqCst);
        }
    }
}

impl<'a, K: TokenId, T: JournaledToken, R: Wait + Drop> Gate<K> for LockingGate<'a, K, T, R> {
    fn call<W: Wait>(
        &self,
        rt: &W,
        alloc: Global,
        caller: &mut Caller<K>,
        call: Call,
    ) -> Result<Reply, NoMemory> {
        if !call.brings_long_message() {
            self.take_locks(rt);
            return self.token.call(rt, alloc, caller, call);
        }
        await_lock(rt, &self.locks);
        self.try_to_take_in(rt, &call);
        let reply = self.token.call(rt, alloc, caller, call);
        self.messages.fetch_sub(1, Ordering::SeqCst);
        reply
    }
}

/// A gate before a shared token. The call of caller 1 is made under a lock that is held for long.
/// Other calls begin when the lock was taken.
#[derive(Drop)]
pub(crate) struct HoldingGate<'a, K: TokenId, T: JournaledToken, R: Wait + Drop> {
    token: &'a SharedToken<K, T, R>,
    /// How many times the lock was held for long.
    locks: AtomicU64,
}

impl<'a, K: TokenId, T: JournaledToken, R: Wait + Drop> HoldingGate<'a, K, T, R> {
    /// A gate before a token, which answers the calls.
    pub(crate) fn new(token: &'a SharedToken<K, T, R>) -> HoldingGate<'a, K, T, R> {
        HoldingGate {
            token,
            locks: AtomicU64::new(0),
        }
    }
}

impl<'a, K: TokenId, T: JournaledToken, R: Wait + Drop> Gate<K> for HoldingGate<'a, K, T, R> {
    fn call<W: Wait>(
        &self,
        rt: &W,
        alloc: Global,
        caller: &mut Caller<K>,
        call: Call,
    ) -> Result<Reply, NoMemory> {
        if caller.number() != 1 {
            await_lock(rt, &self.locks);
            return self.token.call(rt, alloc, caller, call);
        }
        let mut locked = self.token.lock(rt);
        self.locks.store(1, Ordering::SeqCst);
        // It sleeps for the whole time, since nobody wakes it.
        self.locks.park_timeout(rt, 1, Duration::from_millis(HELD));
        locked.step(rt, alloc, caller, call)
    }
}
