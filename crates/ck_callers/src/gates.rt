use crate::asks::{Ask, Status};
use crate::callers::Caller;
use crate::identity::TokenId;
use ck_journal::{Call, Reply};
use ck_types::NoMemory;
use std::alloc::Global;
use std::sync::Wait;

/// What answers the calls and the questions of callers: a shared token, or something that hands
/// them on to one.
pub trait Gate<K: TokenId> {
    ghost use Rattle.std.specs.Prelude.{◌≡◌, IfOk, OnErr, IfSome, IfNone, OnSome};
    ghost use Rattle.ck_journal.specs.Answers.{IsLegal, answer};
    ghost use Rattle.ck_journal.specs.Callers.{entries_by};
    ghost use Rattle.ck_journal.specs.Fronts.{IsFront};
    ghost use Rattle.ck_callers.specs.Asks.{call_of_ask, reply_of_status};
    ghost use Rattle.ck_callers.specs.Callers.{HasCalled};

    /// Makes a call of a caller. It may wait for other callers. Where there is no memory for the
    /// call, the caller is as it was.
    fn call<W: Wait>(
        &self,
        rt: &W,
        alloc: Global,
        caller: &mut Caller<K>,
        call: Call,
    ) -> Result<Reply, NoMemory>
        ensures called { IfOk result (λ reply.
            HasCalled K.limits caller.old call reply caller.new) }
        ensures caller { OnErr result (caller.new ≡ caller.old) };

    /// Answers a question of a caller. Unless the gate says otherwise, this is `Caller::status`,
    /// which needs no gate.
    fn status(&self, caller: &mut Caller<K>, ask: Ask) -> Option<Status>
        ensures answer { IfSome result (λ status.
            reply_of_status status ≡ answer K.limits caller.new.seen (call_of_ask ask)) }
        ensures legal { OnSome result (IsLegal K.limits caller.new.seen) }
        ensures own { OnSome result (entries_by caller.new.number caller.new.seen
            ≡ entries_by caller.new.number caller.new.last) }
        ensures front { IsFront caller.old.seen caller.new.seen }
        ensures same { caller.new ≡ record caller.old { seen = caller.new.seen } }
        ensures unchanged { IfNone result (caller.new ≡ caller.old) }
    {
        caller.status(ask)
    }
}
