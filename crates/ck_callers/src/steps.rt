use crate::asks::{Ask, Status};
use crate::callers::Caller;
use crate::gates::Gate;
use crate::identity::TokenId;
use crate::next_steps::NextStep;
use ck_journal::{Call, Reply};
use ck_types::NoMemory;
use std::alloc::Global;
use std::sync::Wait;

/// A step of a caller: a call, or a question about the token's state.
#[derive(Drop)]
pub enum Step {
    Call(Call),
    Ask(Ask),
}

/// What is answered to a step. `seen` is how many entries are in the history that the caller knows
/// then.
#[derive(Drop)]
pub enum Answered {
    Reply { reply: Reply, seen: u64 },
    Status { status: Option<Status>, seen: u64 },
}

impl<K: TokenId> NextStep<K, Reply> for Call {
    ghost use Rattle.ck_callers.specs.Callers.{HasCalled};

    ghost does = { HasCalled K.limits };

    ghost may_fail = { λ call. Unit {0} };

    fn make<G: Gate<K>, W: Wait>(
        self,
        rt: &W,
        alloc: Global,
        gate: &G,
        caller: &mut Caller<K>,
    ) -> Result<Reply, NoMemory> {
        gate.call(rt, alloc, caller, self)
    }
}

impl<K: TokenId> NextStep<K, Answered> for Step {
    ghost use Rattle.ck_callers.specs.Steps.{HasStepped, IsCall};

    ghost does = { HasStepped K.limits };

    ghost may_fail = { IsCall };

    fn make<G: Gate<K>, W: Wait>(
        self,
        rt: &W,
        alloc: Global,
        gate: &G,
        caller: &mut Caller<K>,
    ) -> Result<Answered, NoMemory> {
        match self {
            Step::Call(call) => {
                let reply = gate.call(rt, alloc, caller, call)?;
                let seen = caller.seen();
                Ok(Answered::Reply { reply, seen })
            }
            Step::Ask(ask) => {
                let status = gate.status(caller, ask);
                let seen = caller.seen();
                Ok(Answered::Status { status, seen })
            }
        }
    }
}
