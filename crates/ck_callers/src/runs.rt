ghost use Rattle.std.specs.List.{AllZip};
ghost use Rattle.std.specs.Prelude.{◌≡◌, ◌<◌, ◌≤◌, [], ◌∷◌, ◌++◌, vec_items, vec_len, vec_capacity};
ghost use Rattle.std.specs.Thread.{IsSync};
ghost use Rattle.ck_callers.specs.NextSteps.{HasMade};
ghost use Rattle.ck_callers.specs.Runs.{HasRun, AreStepsTaken, AreMade};

use crate::callers::Caller;
use crate::gates::Gate;
use crate::identity::TokenId;
use crate::next_steps::NextStep;
use crate::scripts::Script;
use crate::steps::{Answered, Step};
use ck_types::NoMemory;
use std::alloc::Global;
use std::snapshot::Snapshot;
use std::sync::Wait;
use std::sync::atomic::{AtomicBool, Ordering};
use std::thread::{Promise, Threads};
use std::{mem, thread};

/// Takes the steps in their order, up to the first that finds no memory.
fn take_steps<K: TokenId, S: NextStep<K, A>, A: Drop, G: Gate<K>, W: Wait>(
    rt: &W,
    alloc: Global,
    gate: &G,
    caller: &mut Caller<K>,
    steps: Vec<S>,
    answers: &mut Vec<A>,
) -> Result<(), NoMemory>
    requires none { answers.old.items ≡ [] }
    requires room { vec_len steps ≤ vec_capacity answers.old }
    ensures { HasMade S.does S.may_fail caller.old steps.items answers.new.items result caller.new }
{
    for step in steps {
        let answer = step.make(rt, alloc, gate, caller)?;
        answers.push_reserved(answer);
    }
    Ok(())
}

/// Runs a script that has a thread.
// A function over a script that is lent: of an owned one the prover's borrow checker can't follow
// two fields that are lent at once.
fn run_started<K: TokenId, S: NextStep<K, A>, A: Drop, G: Gate<K>, W: Wait>(
    rt: &W,
    alloc: Global,
    gate: &G,
    script: &mut Script<K, S, A>,
)
    requires { vec_items script.old.answers ≡ [] }
    ensures made { HasMade S.does S.may_fail script.old.caller (vec_items script.old.steps)
        (vec_items script.new.answers) script.new.outcome script.new.caller }
    ensures steps { vec_items script.new.steps ≡ [] }
    ensures started { script.new.started ≡ script.old.started }
{
    let steps = mem::replace(&mut script.steps, Vec::new(alloc));
    script.outcome = take_steps(
        rt,
        alloc,
        gate,
        &mut script.caller,
        steps,
        &mut script.answers,
    );
}

/// Runs a script where it has a thread. Else it stays as it is, without answers.
fn run_script<K: TokenId, S: NextStep<K, A>, A: Drop, G: Gate<K>, W: Wait>(
    rt: &W,
    alloc: Global,
    gate: &G,
    has_thread: &AtomicBool,
    mut script: Script<K, S, A>,
) -> Script<K, S, A>
    ensures { HasRun S.does S.may_fail script result }
{
    script.answers.clear();
    script.started = has_thread.load(Ordering::SeqCst);
    if script.started {
        run_started(rt, alloc, gate, &mut script);
    }
    script
}

/// Promises that what a thread gives back is this script after its run.
#[derive(Drop)]
struct RunOf<K: TokenId, S: Drop, A: Drop>(Snapshot<Script<K, S, A>>);

impl<K: TokenId, S: NextStep<K, A>, A: Drop> Promise<Script<K, S, A>> for RunOf<K, S, A> {
    ghost use Rattle.ck_callers.specs.Runs.{HasRun};

    ghost kept_by = { λ run script. HasRun S.does S.may_fail run.0.value script };
}

/// Runs all scripts, each in a thread of its own.
// By recursion: each thread's scope lies in that of the one before, so no memory is taken for
// handles of threads.
fn run_all<
    K: TokenId + Send + Sync,
    S: NextStep<K, A> + Send,
    A: Drop + Send,
    G: Gate<K> + Sync,
    R: Threads + Wait + Sync,
>(rt: &R, alloc: Global, gate: &G, mut scripts: Vec<Script<K, S, A>>) -> Vec<Script<K, S, A>>
    ensures scripts { AllZip (HasRun S.does S.may_fail) scripts.items result.items }
    ensures room { vec_capacity scripts ≤ vec_capacity result }
{
    let Some(script) = scripts.pop() else {
        return scripts;
    };
    let has_thread = &AtomicBool::new(true);
    thread::scope(
        thread::scope_env(),
        rt,
        move |scope| -> Vec<Script<K, S, A>>
            requires sync { IsSync R.row × IsSync G.row }
            requires room { vec_len scripts < vec_capacity scripts }
            ensures scripts { AllZip (HasRun S.does S.may_fail)
                (scripts.items ++ script ∷ []) result.items }
            ensures room { vec_capacity scripts ≤ vec_capacity result }
        {
            let run = scope.spawn_with(
                RunOf(Snapshot::of(&script)),
                move || -> Script<K, S, A>
                    ensures { HasRun S.does S.may_fail script result }
                { run_script(rt, alloc, gate, has_thread, script) },
            );
            let mut others = run_all(rt, alloc, gate, scripts);
            let script = match run {
                Ok(thread) => thread.join(rt),
                Err(refused) => {
                    // The closure has the script, and gives it back only when it is called. Without
                    // a thread it doesn't run it.
                    has_thread.store(false, Ordering::SeqCst);
                    (refused.value)()
                }
            };
            others.push_reserved(script);
            others
        },
    )
}

/// Runs all scripts of calls, each in a thread of its own. They come back in their order. One for
/// which no thread can be made comes back with its caller, its steps and no replies
/// (`Script::started`). It takes no memory except what the calls and the threads take.
pub fn run_scripts<K: TokenId + Send + Sync, G: Gate<K> + Sync, R: Threads + Wait + Sync>(
    rt: &R,
    alloc: Global,
    gate: &G,
    scripts: Vec<Script<K>>,
) -> Vec<Script<K>>
    ensures { AllZip AreMade scripts.items result.items }
{
    run_all(rt, alloc, gate, scripts)
}

/// As `run_scripts`, for scripts of calls and questions. A question takes no memory.
pub fn run_steps<K: TokenId + Send + Sync, G: Gate<K> + Sync, R: Threads + Wait + Sync>(
    rt: &R,
    alloc: Global,
    gate: &G,
    scripts: Vec<Script<K, Step, Answered>>,
) -> Vec<Script<K, Step, Answered>>
    ensures { AllZip (AreStepsTaken K.limits) scripts.items result.items }
{
    run_all(rt, alloc, gate, scripts)
}
