ghost use Rattle.std.specs.Prelude.{◌≤◌, vec_len, vec_capacity};

use crate::callers::Caller;
use crate::identity::TokenId;
use ck_journal::{Call, Reply};
use ck_types::NoMemory;
use std::alloc::Global;

/// What a caller is to do, step by step, with room for the answers. The steps are calls and the
/// answers replies, unless other types are named. This script is a list; those of ck_script are
/// texts.
#[derive(Drop)]
pub struct Script<K: TokenId, S: Drop = Call, A: Drop = Reply> {
    pub caller: Caller<K>,
    pub(crate) steps: Vec<S>,
    pub(crate) answers: Vec<A>,
    pub(crate) outcome: Result<(), NoMemory>,
    pub(crate) started: bool,
    pub ghost room: { vec_len steps ≤ vec_capacity answers },
}

impl<K: TokenId, S: Drop, A: Drop> Script<K, S, A> {
    ghost use Rattle.std.specs.Prelude.{◌≡◌, [], false, Ok, IfOk, IfErr};

    /// A script that is still to be run. Where there is no room for the answers, the caller and the
    /// steps come back.
    pub fn new(
        alloc: Global,
        caller: Caller<K>,
        steps: Vec<S>,
    ) -> Result<Script<K, S, A>, (Caller<K>, Vec<S>)>
        ensures caller { IfOk result (λ script. script.caller ≡ caller) }
        ensures steps { IfOk result (λ script. script.steps ≡ steps) }
        ensures answers { IfOk result (λ script. script.answers.items ≡ []) }
        ensures outcome { IfOk result (λ script. script.outcome ≡ Ok tt) }
        ensures started { IfOk result (λ script. script.started ≡ false) }
        ensures back { IfErr result (λ refused. refused ≡ (caller, steps)) }
    {
        match Vec::with_capacity(alloc, steps.len()) {
            Ok(answers) => Ok(Script {
                caller,
                steps,
                answers,
                outcome: Ok(()),
                started: false,
            }),
            Err(_) => Err((caller, steps)),
        }
    }

    /// Whether `run_scripts` or `run_steps` has run it in a thread of its own. False where there
    /// was no thread for it.
    pub fn started(&self) -> bool
        ensures { result ≡ self.now.started }
    {
        self.started
    }

    /// The answers to the steps that were taken when the script was run, in their order: replies,
    /// where the steps are calls.
    pub fn answers(&self) -> &[A]
        ensures { result.now ≡ self.now.answers.items }
    {
        &self.answers
    }

    /// The caller, and the answers to its steps.
    pub fn into_parts(self) -> (Caller<K>, Vec<A>)
        ensures { result ≡ (self.caller, self.answers) }
    {
        (self.caller, self.answers)
    }

    /// How the run ended. `Err`: the step after those that were answered is a call that found no
    /// memory, and it and the later steps weren't taken. Before the run it is `Ok`.
    pub fn outcome(&self) -> Result<(), NoMemory>
        ensures { result ≡ self.now.outcome }
    {
        self.outcome
    }
}
