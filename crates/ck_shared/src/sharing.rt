//! A token that is shared while each of its callers does some work in a thread of its own.
ghost use Rattle.std.specs.List.{AllZip};
ghost use Rattle.std.specs.Prelude.{◌≡◌, ◌<◌, ◌≤◌, ◌+◌, ℕ, [], ◌∷◌, ◌++◌, IfOk, OnErr, MatchResult};
ghost use Rattle.std.specs.Prelude.{zip, vec_len, vec_capacity};
ghost use Rattle.std.specs.Result.{ForErr};
ghost use Rattle.std.specs.Thread.{IsSync};
ghost use Rattle.ck_journal.specs.Callers.{AreCallers};
ghost use Rattle.ck_journal.specs.Fronts.{IsFront};
ghost use Rattle.ck_journal.specs.Histories.{start, start_of};
ghost use Rattle.ck_callers.specs.Accounts.{name_of};
ghost use Rattle.ck_callers.specs.Callers.{new_callers};
ghost use Rattle.ck_shared.specs.Outputs.{HasActed, IsOfCaller};

use crate::runtimes::Runtime;
use crate::shared::{Ends, SharedToken};
use ck_callers::{Caller, Gate, NewIdentity, TokenId};
use ck_journal::JournaledToken;
use ck_types::NoMemory;
use std::alloc::Global;
use std::marker::{Brand, PhantomData};
use std::snapshot::Snapshot;
use std::sync::Wait;
use std::thread::{Promise, PromisedHandle, SpawnError, Threads};
use std::{mem, thread};

/// The work of each caller of a shared token. `R` is the runtime. `act` is over any `K`, so an
/// implementation needs no proof file that says what `K` stands for.
pub trait CallerWork<R> {
    ghost use Rattle.ck_callers.specs.Callers.{CallerState};

    /// What the work gives.
    type Output: Send + Drop;

    // what is proved of the work, the caller before and after it, and its output
    ghost holds: { Self → CallerState → CallerState → Self.Output → Type 0 };

    /// What this caller does at the gate, which is the shared token.
    fn act<K: TokenId, G: Gate<K>>(&self, rt: &R, gate: &G, caller: &mut Caller<K>) -> Self::Output
        ensures { holds self.now caller.old caller.new result };
}

/// Shows to the prover that a caller still has this number. In a run two numbers are compared once.
fn show_number<K: TokenId, R: Wait>(rt: &R, caller: &Caller<K>, number: u32)
    ensures { caller.now.number ≡ number }
{
    // The first pass returns: `act` is over any `K`, so it can't put another caller in this one's
    // place. No contract says so.
    for _ in rt.forever() {
        if caller.number() == number {
            return;
        }
    }
    unreachable!()
}

/// One caller does its work, and comes back with the output.
fn act_once<K: TokenId, G: Gate<K>, C: CallerWork<R>, R: Wait>(
    rt: &R,
    gate: &G,
    mut caller: Caller<K>,
    work: &C,
) -> (C::Output, Caller<K>)
    ensures { HasActed (C.holds work.now) caller result }
{
    let number = caller.number();
    let output = work.act(rt, gate, &mut caller);
    show_number(rt, &caller, number);
    (output, caller)
}

/// Promises that what a thread gives back is this caller after this work, with the output.
#[derive(Drop)]
struct ActOf<K: TokenId, C, R> {
    caller: Snapshot<Caller<K>>,
    work: Snapshot<C>,
    runtime: PhantomData<R>,
}

impl<K: TokenId, C: CallerWork<R>, R> Promise<(C::Output, Caller<K>)> for ActOf<K, C, R> {
    ghost use Rattle.ck_shared.specs.Outputs.{HasActed};

    ghost kept_by = { λ act done. HasActed (C.holds act.work.value) act.caller.value done };
}

/// What a thread gives back. Where it couldn't be made, what it was to run runs here.
// Apart from the closure that starts the thread: there the prover's borrow checker can't follow
// that what the thread borrows is lent longer in one arm than in the other.
fn join_or_call<T: Send + Drop, P: Promise<T> + Drop, F: FnOnce() -> T, R: Threads>(
    rt: &R,
    started: Result<PromisedHandle<T, P>, SpawnError<F>>,
) -> T
    requires { ForErr started (λ refused. F.pre refused.value) }
    ensures { MatchResult started (λ thread. P.kept_by thread.promise result)
        (λ refused. F.post refused.value result) }
{
    match started {
        Ok(thread) => thread.join(rt),
        Err(refused) => (refused.value)(),
    }
}

/// All callers do their work, each in a thread of its own. Where none can be made for a caller, it
/// does its work in this one, once the callers before it have done theirs. Gives the outputs and
/// the callers, both in the order in which the callers came. It takes no memory except what the
/// work and the threads take.
// By recursion: each thread's scope lies in that of the one before, so no memory is taken for
// handles of threads. The runtime is no `Runtime`, since the prover can't state a recursion through
// closures over a runtime that gives memory.
fn act_together<
    K: TokenId + Send + Sync,
    G: Gate<K> + Sync,
    C: CallerWork<R> + Sync,
    R: Threads + Wait + Sync,
>(
    rt: &R,
    gate: &G,
    mut callers: Vec<Caller<K>>,
    work: &C,
    outputs: Vec<C::Output>,
) -> (Vec<C::Output>, Vec<Caller<K>>)
    requires none { outputs.items ≡ [] }
    requires room { vec_len callers ≤ vec_capacity outputs }
    ensures len { (vec_len result.0 ≡ vec_len callers) × (vec_len result.1 ≡ vec_len callers) }
    ensures room { (vec_capacity result.0 ≡ vec_capacity outputs)
        × (vec_capacity callers ≤ vec_capacity result.1) }
    ensures done { AllZip (HasActed (C.holds work.now))
        callers.items (zip result.0.items result.1.items) }
{
    let Some(caller) = callers.pop() else {
        return (outputs, callers);
    };
    thread::scope(
        thread::scope_env(),
        rt,
        move |scope| -> (Vec<C::Output>, Vec<Caller<K>>)
            requires sync { IsSync R.row × IsSync G.row × IsSync C.row }
            requires none { outputs.items ≡ [] }
            requires room { (vec_len callers < vec_capacity callers)
                × (vec_len callers < vec_capacity outputs) }
            ensures len { (vec_len result.0 ≡ vec_len callers + 1)
                × (vec_len result.1 ≡ vec_len callers + 1) }
            ensures room { (vec_capacity result.0 ≡ vec_capacity outputs)
                × (vec_capacity callers ≤ vec_capacity result.1) }
            ensures done { AllZip (HasActed (C.holds work.entry.now))
                (callers.items ++ caller ∷ []) (zip result.0.items result.1.items) }
        {
            let act = scope.spawn_with(
                ActOf {
                    caller: Snapshot::of(&caller),
                    work: Snapshot::of(work),
                    runtime: PhantomData,
                },
                move || -> (C::Output, Caller<K>)
                    ensures { HasActed (C.holds work.entry.now) caller result }
                { act_once(rt, gate, caller, work) },
            );
            let (mut outputs, mut callers) = act_together(rt, gate, callers, work, outputs);
            let (output, caller) = join_or_call(rt, act);
            outputs.push_reserved(output);
            callers.push_reserved(caller);
            (outputs, callers)
        },
    )
}

/// All callers do their work on a shared token, and it is taken back with their outputs.
fn work_on<K: TokenId + Send + Sync, T: JournaledToken + Send, C: CallerWork<R> + Sync, R: Runtime>(
    rt: &R,
    shared: SharedToken<K, T, R>,
    callers: Vec<Caller<K>>,
    work: &C,
    outputs: Vec<C::Output>,
) -> (T, Vec<C::Output>)
    requires none { outputs.items ≡ [] }
    requires room { vec_len callers ≤ vec_capacity outputs }
    ensures limits { (T.state result.0).limits ≡ K.limits }
    ensures callers { AreCallers K.callers (T.state result.0).history }
    ensures base { IsFront (start K.base) (T.state result.0).history }
    ensures count { vec_len result.1 ≡ vec_len callers }
    ensures outputs { AllZip (IsOfCaller (C.holds work.now) (T.state result.0).history)
        callers.items result.1.items }
{
    let (outputs, callers) = act_together(rt, &shared, callers, work, outputs);
    let mut locked = shared.into_locked();
    locked.settle_all(rt, callers);
    (locked.into_token(), outputs)
}

/// As `share`, for a type that stands for the token's history. There is room for the outputs.
fn share_as<
    K: TokenId + Send + Sync,
    T: JournaledToken + Send,
    C: CallerWork<R> + Sync,
    R: Runtime,
>(
    rt: R,
    alloc: Global,
    token: &mut T,
    callers: u32,
    identity: NewIdentity,
    work: &C,
    outputs: Vec<C::Output>,
) -> Result<Vec<C::Output>, NoMemory>
    requires history { (T.state token.old).history ≡ start K.base }
    requires limits { (T.state token.old).limits ≡ K.limits }
    requires callers { (1 ≤ callers) × (callers ≤ 8) × (callers ≡ K.callers) }
    requires none { outputs.items ≡ [] }
    requires room { callers ≤ vec_capacity outputs }

    // `K` stands for the names of this identity.
    requires book { identity.history.seen.book ≡ K.book }
    requires ledgers { (n : ℕ) → K.ledger n ≡ name_of identity.ledgers n }

    // Where there is an error, nothing was done.
    ensures unchanged { OnErr result (token.new ≡ token.old) }

    // The token, in either case.
    ensures limits { (T.state token.new).limits ≡ (T.state token.old).limits }
    ensures front { IsFront (T.state token.old).history (T.state token.new).history }
    ensures callers { AreCallers callers (T.state token.new).history }

    // The outputs, one for each caller.
    ensures count { IfOk result (λ outputs. vec_len outputs ≡ callers) }
    ensures outputs { IfOk result (λ outputs.
        AllZip (IsOfCaller (C.holds work.now) (T.state token.new).history)
        (new_callers K.base callers) outputs.items) }
{
    let limits = token.limits();
    // The token moves behind the lock. Meanwhile a new one, which takes no memory, stands in its
    // place.
    let own = mem::replace(token, T::new(alloc, limits));
    match SharedToken::<K, T, R>::adopt(rt, alloc, own, callers, identity) {
        Ok(
            Ends {
                token: shared,
                callers,
            },
        ) => {
            let (own, outputs) = work_on(&rt, shared, callers, work, outputs);
            *token = own;
            Ok(outputs)
        }
        Err((own, error)) => {
            *token = own;
            Err(error)
        }
    }
}

/// Shares a token among the callers 1 to `callers`, at most eight, until each has done its work in
/// a thread of its own. The token's journal must have no entries. Gives the outputs in the order of
/// the callers. Where no thread can be made for a caller, it does its work in this one, once the
/// callers before it have done theirs, so callers that wait for one another may hang. Where memory
/// runs out, nothing was done.
pub fn share<T: JournaledToken + Send, C: CallerWork<R> + Sync, R: Runtime>(
    rt: R,
    alloc: Global,
    token: &mut T,
    callers: u32,
    work: &C,
) -> Result<Vec<C::Output>, NoMemory>
    requires history { (T.state token.old).history ≡ start (start_of (T.state token.old).history) }
    requires callers { (1 ≤ callers) × (callers ≤ 8) }

    // Where there is an error, nothing was done.
    ensures unchanged { OnErr result (token.new ≡ token.old) }

    // The token, in either case.
    ensures limits { (T.state token.new).limits ≡ (T.state token.old).limits }
    ensures front { IsFront (T.state token.old).history (T.state token.new).history }
    ensures callers { AreCallers callers (T.state token.new).history }

    // The outputs, one for each caller.
    ensures count { IfOk result (λ outputs. vec_len outputs ≡ callers) }
    ensures outputs { IfOk result (λ outputs.
        AllZip (IsOfCaller (C.holds work.now) (T.state token.new).history)
        (new_callers (start_of (T.state token.old).history) callers) outputs.items) }
{
    // The outputs have their memory before any caller begins, so that none can be lost; and before
    // there is an identity, which can't be dropped.
    let outputs = Vec::with_capacity(alloc, callers as usize)?;
    share_as::<Brand, T, C, R>(rt, alloc, token, callers, NewIdentity::new(), work, outputs)
}
