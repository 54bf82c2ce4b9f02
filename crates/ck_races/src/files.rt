//! The races of a file are run.
use crate::races::{Race, races_in};
use crate::retries::retry_race;
use crate::runs::run_race;
use ck_shared::Runtime;
use std::fs;
use std::fs::Files;

/// How the calls of races are made.
#[derive(Clone, Copy, PartialEq)]
pub(crate) enum Mode {
    /// In threads of the callers.
    InThreads,
    /// One after the other.
    InTurn,
}

impl Mode {
    /// What is counted of these calls: those that are made in threads, or those that are made
    /// again.
    fn counted(self) -> &'static str {
        match self {
            Mode::InThreads => "calls in threads",
            Mode::InTurn => "made again",
        }
    }
}

/// Runs a race. Says how many calls were made in threads, or made again.
fn run_by<R: Runtime>(rt: R, race: &Race, mode: Mode) -> anyhow::Result<u64> {
    match mode {
        Mode::InThreads => run_race(rt, race),
        Mode::InTurn => retry_race(rt, race),
    }
}

/// Runs the races of the file of this name. Adds a line where they pass: how many they are, and how
/// many calls are counted, if any.
pub(crate) fn run_file<R: Files + Runtime>(
    rt: R,
    text: &mut String,
    name: &str,
    mode: Mode,
) -> anyhow::Result<()> {
    let lines = fs::read_to_string(&rt, name)?;
    let races = races_in(rt.alloc(), lines.as_str())?;
    let mut calls = 0u64;
    for race in &races {
        calls = calls.saturating_add(run_by(rt, race, mode)?);
    }
    write!(text, "{name}: {} passed", races.len())?;
    if calls > 0 {
        write!(text, ", {calls} {}", mode.counted())?;
    }
    Ok(text.push('\n')?)
}
