ghost use Rattle.std.specs.Prelude.{◌≡◌, ◌<◌, ◌≤◌, ◌+◌, ℕ, false, length, All, IsOk, OnOk, OnErr};
ghost use Rattle.ck_journal.specs.Answers.{answer, IsLegal};
ghost use Rattle.ck_journal.specs.declared.calls.Call.{Call};
ghost use Rattle.ck_journal.specs.MemoryNeeds.{takes_memory, may_run_out};
ghost use Rattle.ck_token.specs.Runs.{IsRun};
ghost use Rattle.ck_journal.specs.TokenStates.{IsAnswered, IsUnchanged};

use crate::tokens::Token;
use ck_journal::Call;
use ck_types::NoMemory;
use std::alloc::Global;
use thiserror::Error;

/// A run that found no memory for a call, and how many calls before it were answered.
#[derive(Clone, Copy, Debug, PartialEq, Eq, Error)]
#[error("out of memory after {answered} calls")]
pub struct Stopped {
    pub answered: u64,
}

/// Makes these calls, each with its caller, one after the other. Where one finds no memory, the
/// token is as the calls before it left it. Where the journal has room for all of them, calls that
/// take no memory besides their entries are all answered.
pub fn run(token: &mut Token, alloc: Global, calls: Vec<(u32, Call)>) -> Result<(), Stopped>
    ensures run { IsRun token.old token.new calls.items result }
    ensures succeeds { length calls.items ≤ token.old.spare
        → All (λ (c : ℕ × Call). takes_memory c.1 ≡ false) calls.items → IsOk result }
    ensures room { token.old.spare ≤ token.new.spare + length calls.items }
{
    // Tells the prover that the journal is legal before the first call.
    let _journal = token.journal();
    let mut answered = 0u64;
    for (caller, call) in calls {
        match make_call(token, alloc, caller, call) {
            Ok(()) => answered += 1,
            Err(NoMemory) => return Err(Stopped { answered }),
        }
    }
    Ok(())
}

/// Makes a call and drops its reply, which stands in the journal too.
// A function, since the proof of the loop would carry the reply along.
fn make_call(token: &mut Token, alloc: Global, caller: u32, call: Call) -> Result<(), NoMemory>
    ensures answered { OnOk result (IsAnswered token.old token.new caller call
        (answer token.old.limits token.old.history call)) }
    ensures unchanged { OnErr result (IsUnchanged token.old token.new) }
    ensures spare { OnErr result (token.old.spare ≤ token.new.spare) }
    ensures room { OnOk result (token.old.spare ≤ token.new.spare + 1) }
    ensures succeeds { 0 < token.old.spare
        → may_run_out token.old.limits token.old.history call ≡ false → IsOk result }
    ensures legal { IsLegal token.new.limits token.new.history }
{
    token.call(alloc, caller, call)?;
    Ok(())
}
