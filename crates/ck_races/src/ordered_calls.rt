//! What each caller of a race does in its thread: it makes its calls of a list, the first of which
//! are made in an order of their callers.
use crate::gates::HeldGate;
use crate::journals::CallerReplies;
use crate::orders::CallOrder;
use crate::races::RaceLine;
use ck_shared::{Caller, CallerWork, Gate, TokenId};
use ck_token::{NoMemory, Reply};
use std::sync::Wait;

/// Calls, the first of which are made in an order of their callers.
#[derive(Drop)]
pub(crate) struct OrderedCalls<'a> {
    pub(crate) lines: &'a [RaceLine<'a>],
    pub(crate) order: &'a CallOrder<'a>,
}

impl<'a> OrderedCalls<'a> {
    /// Makes the calls of a caller, and adds their replies.
    fn make_own<K: TokenId, G: Gate<K>, R: Wait + AllocGlobal>(
        &self,
        rt: &R,
        gate: &G,
        caller: &mut Caller<K>,
        replies: &mut Vec<Reply>,
    ) -> Result<(), NoMemory> {
        let alloc = rt.alloc();
        for line in self.lines {
            if line.caller == caller.number() {
                replies.push(gate.call(rt, alloc, caller, line.call.clone()?)?)?;
            }
        }
        Ok(())
    }
}

impl<'a, R: Wait + AllocGlobal> CallerWork<R> for OrderedCalls<'a> {
    ghost use Rattle.std.specs.Prelude.{⊤};

    /// The caller's number and its replies.
    type Output = anyhow::Result<CallerReplies>;

    ghost holds = { λ work before after replies. ⊤ };

    /// Makes the calls of the caller, each when it is the next one of the order.
    fn act<K: TokenId, G: Gate<K>>(
        &self,
        rt: &R,
        gate: &G,
        caller: &mut Caller<K>,
    ) -> Self::Output {
        let mut replies = Vec::new(rt.alloc());
        let held = HeldGate::new(gate, self.order);
        self.make_own(rt, &held, caller, &mut replies)?;
        let number = caller.number();
        Ok(CallerReplies { number, replies })
    }
}
