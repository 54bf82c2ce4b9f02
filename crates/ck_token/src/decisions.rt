ghost use Rattle.std.specs.Prelude.{◌≡◌};

use ck_journal::Body;
use ck_parts::Change;
use ck_types::{NoMemory, Rv, RvError};
use std::alloc::AllocError;

/// The reply to a call, as its code and its body, and what the call changes. They aren't a `Reply`
/// yet: a `Reply` has padding, which would be copied too. `Token::call_after` makes the replies at
/// its end, one for the entry and one for the caller.
#[derive(Drop)]
pub(crate) struct Decision {
    pub(crate) rv: Rv,
    pub(crate) body: Body,
    pub(crate) change: Change,
}

/// Why a call isn't carried out.
#[derive(Drop)]
pub(crate) enum Refused {
    /// A check fails. The refusal changes nothing, except that it may count a wrong PIN or end an
    /// operation.
    Error { error: RvError, change: Change },
    /// There is no memory for the call.
    Memory,
}

impl From<RvError> for Refused {
    ghost use Rattle.ck_parts.specs.declared.changes.Change.TheVariants as change;
    ghost use Rattle.ck_token.specs.declared.decisions.Refused.TheVariants as refused;

    ghost from_gives = { λ code made. made ≡ refused.Error code change.Nothing };

    // Inlined, as the functions below are, so that a refusal or a decision isn't copied.
    #[inline(always)]
    fn from(error: RvError) -> Refused {
        Refused::Error {
            error,
            change: Change::Nothing,
        }
    }
}

impl From<NoMemory> for Refused {
    ghost use Rattle.ck_token.specs.declared.decisions.Refused.TheVariants as refused;

    ghost from_gives = { λ _ made. made ≡ refused.Memory };

    #[inline(always)]
    fn from(_error: NoMemory) -> Refused {
        Refused::Memory
    }
}

impl From<AllocError> for Refused {
    ghost use Rattle.ck_token.specs.declared.decisions.Refused.TheVariants as refused;

    ghost from_gives = { λ _ made. made ≡ refused.Memory };

    #[inline(always)]
    fn from(_error: AllocError) -> Refused {
        Refused::Memory
    }
}

impl Decision {
    ghost use Rattle.ck_types.specs.declared.return_codes.Rv.TheVariants as rv;
    ghost use Rattle.ck_journal.specs.declared.replies.Body.TheVariants as body;
    ghost use Rattle.ck_parts.specs.declared.changes.Change.TheVariants as change;

    /// The decision to answer CKR_OK without a body, with this change.
    #[inline(always)]
    pub(crate) fn of_change(change: Change) -> Decision
        ensures { result ≡ record { rv = rv.Ok; body = body.Empty; change = change } }
    {
        Decision {
            rv: Rv::Ok,
            body: Body::Empty,
            change,
        }
    }

    /// The decision to answer CKR_OK with this body, and to change nothing.
    #[inline(always)]
    pub(crate) fn of_body(body: Body) -> Decision
        ensures { result ≡ record { rv = rv.Ok; body = body; change = change.Nothing } }
    {
        Decision {
            rv: Rv::Ok,
            body,
            change: Change::Nothing,
        }
    }
}
