//! Callers that play their calls in threads.
ghost use Rattle.std.specs.Prelude.{◌≡◌, ◌≢◌, ◌++◌, ◌≤◌, ◌↔◌, ℕ, List, [], ◌∷◌, All, IfOk};
ghost use Rattle.std.specs.Prelude.{OnOk, Err, true, false, string_bytes};
ghost use Rattle.std.specs.List.{list_any};
ghost use Rattle.ck_journal.specs.Answers.{IsLegal};
ghost use Rattle.ck_journal.specs.Bases.{empty_base};
ghost use Rattle.ck_journal.specs.Callers.{AreCallers};
ghost use Rattle.ck_journal.specs.Fronts.{IsFront};
ghost use Rattle.ck_journal.specs.Histories.{start, entry_count};
ghost use Rattle.ck_journal.specs.declared.calls.Call.{Call};
ghost use Rattle.ck_callers.specs.Accounts.{name_of};
ghost use Rattle.ck_program.specs.CallerCalls.{calls_by, HadThread, IsNewCaller, HasMadeAll};
ghost use Rattle.ck_program.specs.CallerCalls.{HasEntriesOf, IsUnplayed, IsPlayedAll};
ghost use Rattle.ck_program.specs.CallerCalls.{caller_numbers, lacked_memory, script_numbers};
ghost use Rattle.ck_program.specs.ThreadPlays.{IsSummary, summary_text};

use crate::faults::ThreadFault;
use crate::options::Callers;
use ck_audit::{Verdict, audit_token};
use ck_journal::{Call, JournaledToken};
use ck_shared::{Caller, Ends, NewIdentity, Runtime, Script, SharedToken, TokenId, run_scripts};
use ck_types::{Limits, NoMemory};
use std::alloc::Global;
use std::marker::Brand;

/// Adds a copy of a call where it is one of this caller.
// Apart from the loop, so that the proof of the loop has one case.
fn add_own_call(
    own: &mut Vec<Call>,
    alloc: Global,
    call: &(u32, Call),
    number: u32,
) -> Result<(), NoMemory>
    ensures { OnOk result (own.new.items ≡ own.old.items ++ calls_by number (call.now ∷ [])) }
{
    let (caller, made) = call;
    if *caller == number {
        own.push(made.clone()?)?;
    }
    Ok(())
}

/// Copies of the calls of this caller, in their order.
fn calls_by(alloc: Global, calls: &[(u32, Call)], number: u32) -> Result<Vec<Call>, NoMemory>
    ensures { IfOk result (λ own. own.items ≡ calls_by number calls.now) }
{
    let mut own = Vec::new(alloc);
    for call in calls {
        add_own_call(&mut own, alloc, call, number)?;
    }
    Ok(own)
}

/// A script of the caller's calls.
fn script_of<K: TokenId>(
    alloc: Global,
    caller: Caller<K>,
    calls: &[(u32, Call)],
) -> Result<Script<K>, NoMemory>
    requires { IsNewCaller caller }
    ensures unplayed { IfOk result (IsUnplayed calls.now) }
    ensures number { IfOk result (λ script. script.caller.number ≡ caller.number) }
{
    let own = calls_by(alloc, calls, caller.number())?;
    Script::new(alloc, caller, own).map_err(|_| NoMemory)
}

/// For each caller a script of its calls.
fn scripts_of<K: TokenId>(
    alloc: Global,
    callers: Vec<Caller<K>>,
    calls: &[(u32, Call)],
) -> Result<Vec<Script<K>>, NoMemory>
    requires { All IsNewCaller callers.items }
    ensures unplayed { IfOk result (λ scripts. All (IsUnplayed calls.now) scripts.items) }
    ensures numbers { IfOk result (λ scripts.
        script_numbers scripts.items ≡ caller_numbers callers.items) }
{
    let mut scripts = Vec::with_capacity(alloc, callers.len())?;
    for caller in callers {
        let script = script_of(alloc, caller, calls)?;
        scripts.push_reserved(script);
    }
    Ok(scripts)
}

/// The caller of a script that was played to its end.
fn caller_of<K: TokenId>(script: Script<K>) -> Result<Caller<K>, ThreadFault>
    ensures made { (calls : List (ℕ × Call)) → IsPlayedAll calls script
        → IfOk result (HasMadeAll calls) }
    ensures number { IfOk result (λ caller. caller.number ≡ script.caller.number) }
    ensures started { (result ≡ Err ThreadFault.NotStarted) ↔ (script.started ≡ false) }
{
    if !script.started() {
        return Err(ThreadFault::NotStarted);
    }
    script.outcome()?;
    Ok(script.into_parts().0)
}

/// Whether the caller of any script found no memory for a call.
fn any_lacks_memory<K: TokenId>(scripts: &[Script<K>]) -> bool
    ensures { result ≡ list_any lacked_memory scripts.now }
{
    scripts.iter().any(|script| script.outcome().is_err())
}

/// The callers of scripts that were played to their ends. Where one found no memory and another had
/// no thread, the fault is that of memory.
fn callers_of<K: TokenId>(
    alloc: Global,
    scripts: Vec<Script<K>>,
) -> Result<Vec<Caller<K>>, ThreadFault>
    ensures made { (calls : List (ℕ × Call)) → All (IsPlayedAll calls) scripts.items
        → IfOk result (λ callers. All (HasMadeAll calls) callers.items) }
    ensures numbers { IfOk result (λ callers.
        caller_numbers callers.items ≡ script_numbers scripts.items) }
    ensures started { All HadThread scripts.items → result ≢ Err ThreadFault.NotStarted }
    ensures memory { list_any lacked_memory scripts.items ≡ true → result ≡ Err ThreadFault.Memory }
{
    if any_lacks_memory(&scripts) {
        return Err(ThreadFault::Memory);
    }
    let mut callers = Vec::with_capacity(alloc, scripts.len())?;
    for script in scripts {
        let caller = caller_of(script)?;
        callers.push_reserved(caller);
    }
    Ok(callers)
}

/// Plays the calls of each caller in a thread of its own.
fn play_scripts<K: TokenId + Send + Sync, T: JournaledToken + Send, R: Runtime>(
    rt: R,
    alloc: Global,
    token: &SharedToken<K, T, R>,
    callers: Vec<Caller<K>>,
    calls: &[(u32, Call)],
) -> Result<Vec<Caller<K>>, ThreadFault>
    requires { All IsNewCaller callers.items }
    ensures made { IfOk result (λ callers. All (HasMadeAll calls.now) callers.items) }
    ensures numbers { IfOk result (λ back.
        caller_numbers back.items ≡ caller_numbers callers.items) }
{
    let scripts = scripts_of(alloc, callers, calls)?;
    callers_of(alloc, run_scripts(&rt, alloc, token, scripts))
}

/// Shares a new token among callers, which play their calls, and takes it back.
fn play_shared<K: TokenId + Send + Sync, T: JournaledToken + Send, R: Runtime>(
    rt: R,
    alloc: Global,
    limits: Limits,
    callers: u32,
    identity: NewIdentity,
    calls: &[(u32, Call)],
) -> Result<T, ThreadFault>
    requires base { K.base ≡ empty_base }
    requires limits { limits ≡ K.limits }
    requires callers { (1 ≤ callers) × (callers ≤ 8) × (callers ≡ K.callers) }

    // `K` stands for the names of this identity.
    requires book { identity.history.seen.book ≡ K.book }
    requires ledgers { (n : ℕ) → K.ledger n ≡ name_of identity.ledgers n }

    // The token that is taken back.
    ensures limits { IfOk result (λ token. (T.state token).limits ≡ limits) }
    ensures new { IfOk result (λ token. IsFront (start empty_base) (T.state token).history) }
    ensures only { IfOk result (λ token. AreCallers callers (T.state token).history) }

    // Its journal has the calls of each caller.
    ensures all { IfOk result (λ token. (number : ℕ) → 1 ≤ number → number ≤ callers
        → HasEntriesOf calls.now number (T.state token).history) }
{
    let Ends { token, callers } = SharedToken::<K, T, R>::open(
        rt, alloc, limits, callers, identity,
    )?;
    let callers = play_scripts(rt, alloc, &token, callers, calls)?;
    match token.close(&rt, callers) {
        Ok(token) => Ok(token),
        // All callers are given back.
        Err(_) => unreachable!(),
    }
}

/// How many entries the token's journal has, and what its audit finds, each on a line. That the
/// journal is legal is proved; the audit shows it of the program as it was built.
fn summary_of<T: JournaledToken>(alloc: Global, token: &T) -> Result<String, NoMemory>
    ensures text { IfOk result (λ text.
        string_bytes text ≡ summary_text (entry_count (T.state token.now).history)) }
    ensures legal { IsLegal (T.state token.now).limits (T.state token.now).history }
{
    let entries = token.journal().len();
    match audit_token(alloc, token)? {
        Verdict::Legal => Ok(format!(in alloc; "entries {entries}\naudit ok\n")?),
        // A token's journal is legal.
        Verdict::Wrong(_) => unreachable!(),
    }
}

/// Plays the calls of callers on a new token, those of each in a thread of its own. Gives how many
/// entries the journal then has, and what its audit finds, each on a line.
pub(crate) fn play_calls<T: JournaledToken + Send, R: Runtime>(
    rt: R,
    alloc: Global,
    limits: Limits,
    callers: Callers,
    calls: &[(u32, Call)],
) -> Result<String, ThreadFault>
    ensures { IfOk result (λ text.
        IsSummary limits callers.count calls.now (string_bytes text)) }
{
    let identity = NewIdentity::new();
    let token = play_shared::<Brand, T, R>(rt, alloc, limits, callers.count, identity, calls)?;
    Ok(summary_of(alloc, &token)?)
}
