//! Callers of which one or all have no thread of their own: `bench/growths.py` refuses one of them
//! memory for it, and `tests/program.py` leaves no room for any.
use crate::journals::in_order_of_callers;
use crate::ordered_calls::OrderedCalls;
use crate::orders::CallOrder;
use crate::scripts::{calls_of, return_callers, scripts_of};
use crate::shared_work::{Shared, SharedWork, share_audited};
use crate::tokens::lines_in;
use anyhow::ensure;
use ck_shared::{Caller, Runtime, Script, TokenId, run_scripts, share};
use ck_token::{Limits, Token};
use std::alloc::Global;

/// How many callers there are.
const CALLERS: u32 = 3;

/// Their calls, two of each.
const CALLS: [&str; 6] = [
    "1 GetTokenInfo -> 0 4 64 0 0",
    "2 GetTokenInfo -> 0 4 64 0 0",
    "3 GetTokenInfo -> 0 4 64 0 0",
    "1 GetTokenInfo -> 0 4 64 0 0",
    "2 GetTokenInfo -> 0 4 64 0 0",
    "3 GetTokenInfo -> 0 4 64 0 0",
];

/// Whether a script had a thread. Checks that all its calls are made then, and else none.
fn is_started<K: TokenId>(script: &Script<K>) -> anyhow::Result<bool> {
    let calls = if script.started() { CALLS.len() } else { 0 };
    ensure!(
        script.answers().len() == calls && script.caller.count() == calls as u64,
        "a script with a thread isn't run whole, or one without a thread is run",
    );
    script.outcome()?;
    Ok(script.started())
}

/// How many of these scripts had a thread.
fn count_started<K: TokenId>(scripts: &[Script<K>]) -> anyhow::Result<u64> {
    let mut started = 0u64;
    for script in scripts {
        if is_started(script)? {
            started = started.saturating_add(1);
        }
    }
    Ok(started)
}

impl<'a, K: TokenId, R: Runtime> Shared<'a, K, R> {
    /// Each caller makes all the calls by a script. Says how many of them had a thread.
    pub(crate) fn run_few(&self, callers: &mut Vec<Caller<K>>) -> anyhow::Result<u64>
    where
        K: Send + Sync,
    {
        let (rt, alloc) = (self.rt, self.rt.alloc());
        let lines = lines_in(alloc, &CALLS)?;
        let scripts = scripts_of(alloc, callers, |_| Ok(calls_of(alloc, &lines)?))?;
        let scripts = run_scripts(rt, alloc, self.token, scripts);
        let started = count_started(&scripts)?;
        return_callers(scripts, callers)?;
        Ok(started)
    }
}

/// Three callers make calls by `run_scripts`. Writes how many had a thread.
pub(crate) fn write_started<R: Runtime>(rt: R, text: &mut String) -> anyhow::Result<()> {
    let token = Token::new(rt.alloc(), Limits::largest());
    let (outcome, entries) = share_audited(rt, token, CALLERS, &SharedWork::FewThreads)?;
    ensure!(
        entries == outcome.answered.saturating_mul(CALLS.len() as u64),
        "not an entry for each call",
    );
    Ok(writeln!(text, "scripts with a thread: {}", outcome.answered)?)
}

/// Three callers make calls by `share`. Writes the callers in the order of their entries.
pub(crate) fn write_callers<R: Runtime>(rt: R, text: &mut String) -> anyhow::Result<()> {
    let alloc = rt.alloc();
    let mut token = Token::new(alloc, Limits::largest());
    let lines = lines_in(alloc, &CALLS)?;
    // No call is held.
    let order = CallOrder::new(&[]);
    let calls = OrderedCalls {
        lines: &lines,
        order: &order,
    };
    in_order_of_callers(alloc, share(rt, alloc, &mut token, CALLERS, &calls)?)?;
    text.push_str("callers:")?;
    for entry in token.journal().iter() {
        write!(text, " {}", entry.caller)?;
    }
    Ok(text.push('\n')?)
}
