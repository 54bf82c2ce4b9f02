ghost use Rattle.std.specs.Prelude.{◌≡◌, ◌≢◌, ◌<◌, ◌≤◌, ◌+◌, false};
ghost use Rattle.ck_journal.specs.Answers.{IsLegal};
ghost use Rattle.ck_journal.specs.MemoryNeeds.{may_run_out};
ghost use Rattle.ck_token.specs.TryCalls.{IsTried};
ghost use Rattle.ck_token.specs.declared.try_calls.CallError.TheVariants as call_error;

use crate::tokens::Token;
use ck_journal::{Body, Call};
use ck_types::{NoMemory, RvError};
use std::alloc::Global;
use thiserror::Error;

/// Why a call wasn't answered CKR_OK.
#[derive(Clone, Copy, Debug, PartialEq, Eq, Error)]
pub enum CallError {
    /// The token answered this code, and the call is in the journal.
    #[error("{0}")]
    Refused(RvError),
    /// There was no memory. Nothing has changed and the call isn't in the journal.
    #[error("out of memory")]
    Memory,
}

impl From<NoMemory> for CallError {
    ghost from_gives = { λ _ made. made ≡ call_error.Memory };

    fn from(_error: NoMemory) -> CallError {
        CallError::Memory
    }
}

impl From<RvError> for CallError {
    ghost from_gives = { λ error made. made ≡ call_error.Refused error };

    fn from(error: RvError) -> CallError {
        CallError::Refused(error)
    }
}

impl Token {
    /// Answers a call and enters it in the journal, as `call` does. A code that isn't CKR_OK is an
    /// error here, so that `?` returns it; the body that some such replies have is dropped.
    /// `caller` is as that of `call`.
    pub fn try_call(&mut self, alloc: Global, caller: u32, call: Call) -> Result<Body, CallError>
        ensures tried { IsTried self.old self.new caller call result }
        ensures legal { IsLegal self.new.limits self.new.history }
        ensures succeeds { 0 < self.old.spare
            → may_run_out self.old.limits self.old.history call ≡ false
            → result ≢ Err call_error.Memory }
        ensures room { result ≢ Err call_error.Memory → self.old.spare ≤ self.new.spare + 1 }
        ensures spare { result ≡ Err call_error.Memory → self.old.spare ≤ self.new.spare }
    {
        Ok(self.call(alloc, caller, call)?.ok()?)
    }
}
