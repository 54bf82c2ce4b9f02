ghost use Rattle.std.specs.Prelude.{◌≡◌, IfOk, OnErr};

use crate::callers::Caller;
use crate::gates::Gate;
use crate::identity::TokenId;
use ck_types::NoMemory;
use std::alloc::Global;
use std::sync::Wait;

/// What a caller does next at a gate. A `Call` is made; a `Step` is a call or a question. `A` is
/// the type of what is answered.
// A parameter and no associated type, since `Script`, which is public, names it without this trait.
pub(crate) trait NextStep<K: TokenId, A: Drop>: Drop {
    ghost use Rattle.ck_callers.specs.Callers.{CallerState};

    // what it does: the caller before it, the step, what is answered, the caller after it
    ghost does: { CallerState → Self → A → CallerState → Type 0 };

    // whether it may find no memory
    ghost may_fail: { Self → Type 0 };

    /// Takes the step at the gate, as this caller.
    fn make<G: Gate<K>, W: Wait>(
        self,
        rt: &W,
        alloc: Global,
        gate: &G,
        caller: &mut Caller<K>,
    ) -> Result<A, NoMemory>
        ensures made { IfOk result (λ answer. does caller.old self answer caller.new) }
        ensures memory { OnErr result (may_fail self) }
        ensures caller { OnErr result (caller.new ≡ caller.old) };
}
