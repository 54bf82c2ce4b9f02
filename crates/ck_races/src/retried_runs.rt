//! The calls of a race by `run` on a token. Where it stops without memory, which `bench/growths.py`
//! refuses, it goes on with those that are left.
use crate::journals::{check_entries, check_retried};
use crate::races::{Race, RaceLine};
use crate::tokens::prepared_token;
use anyhow::ensure;
use ck_token::{Call, NoMemory, Stopped, Token, run};
use std::alloc::Global;

/// The calls of lines, each with its caller.
fn calls_of(alloc: Global, lines: &[RaceLine]) -> Result<Vec<(u32, Call)>, NoMemory> {
    let mut calls = Vec::new(alloc);
    for line in lines {
        calls.push((line.caller, line.call.clone()?))?;
    }
    Ok(calls)
}

/// Runs the calls of lines, and says how many times it stopped: the journal then has an entry for
/// each call that was answered.
fn run_calls(alloc: Global, token: &mut Token, lines: &[RaceLine]) -> anyhow::Result<u64> {
    let Err(Stopped { answered }) = run(token, alloc, calls_of(alloc, lines)?) else {
        return Ok(0);
    };
    ensure!(
        token.journal().len() == answered,
        "a run that stopped has other entries than calls"
    );
    let left = lines.get(answered as usize..).unwrap_or(&[]);
    run(token, alloc, calls_of(alloc, left)?)?;
    Ok(1)
}

/// Runs the calls of lines, which have their replies then. Says how many times it stopped.
fn run_lines(alloc: Global, token: &mut Token, lines: &[RaceLine]) -> anyhow::Result<u64> {
    let stops = run_calls(alloc, token, lines)?;
    check_entries(alloc, lines, token.journal())?;
    check_retried(alloc, token, stops)
}

/// Runs the calls of a race, and says how many times it stopped.
pub(crate) fn retry_run(alloc: Global, race: &Race) -> anyhow::Result<u64> {
    let mut token = prepared_token(alloc, race)?;
    run_lines(alloc, &mut token, &race.lines)
}
