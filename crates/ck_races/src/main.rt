//! What callers of a shared token do to one another. First the races of files are run: lists of
//! calls that callers make in threads, with the replies that they get, again and again, with all
//! calls in a set order and with only the first ones. Then what judges the rest is given wrong
//! inputs, and these come, whose files say more:
//!
//! - Callers ask for the state of a session while another logs in.
//! - Two callers are held at their calls.
//! - One caller makes calls under one lock, and the token is taken back without its callers.
//! - One caller holds the lock for long, while another sleeps.
//! - Long messages are taken in before their calls, also where another's calls come between.
//! - A token counts how it is used.
//! - Eight callers make the calls of their scripts, and drawn calls, at once.
//!
//! What is written is the same in every order of the calls.
//!
//! With the word `in-turn` before the files only the calls of each race are made, one after the
//! other: on a shared token, by `run` and by `run_scripts`. Where there was no memory they are made
//! again, and the line of a file says how many times that was. The word `reserved` only makes calls
//! for which room in the journal is reserved, and `reserve` only reserves it. With `scripts` and
//! `share` three callers make calls, by `run_scripts` and by `share`, where threads may be refused.
#![tactic(auto)]

mod asks;
mod behind_calls;
mod drawing_callers;
mod drawn_calls;
mod eight_scripts;
mod few_threads;
mod files;
mod free_locks;
mod gates;
mod held_steps;
mod journals;
mod judges;
mod locked_calls;
mod long_messages;
mod mix;
mod ordered_calls;
mod orders;
mod races;
mod reserved;
mod retried_runs;
mod retried_scripts;
mod retries;
mod runs;
mod scripts;
mod shared_work;
mod sleeping;
mod tokens;
mod watched;
mod words;

use asks::run_asks;
use behind_calls::run_behind_calls;
use ck_shared::Runtime;
use drawn_calls::make_drawn_calls;
use eight_scripts::run_eight_scripts;
use few_threads::{write_callers, write_started};
use files::{Mode, run_file};
use held_steps::run_held_steps;
use judges::check_judges;
use locked_calls::run_locked_calls;
use long_messages::run_long_messages;
use reserved::{make_reserved_calls, reserve};
use sleeping::run_sleeping;
use std::alloc::AllocError;
use std::env;
use std::env::Env;
use std::fs::Files;
use std::time::CpuClock;
use watched::run_watched;

/// Adds a line: how many of these there were, and what came of them.
fn add_line(text: &mut String, what: &str, count: u64, end: &str) -> Result<(), AllocError> {
    writeln!(text, "{what}: {count} {end}")
}

/// What callers do at once, besides races, once the judges of it are seen to refuse what is wrong.
/// Adds a line for each that passes.
fn run_together<R: CpuClock + Runtime>(rt: R, text: &mut String) -> anyhow::Result<()> {
    let (answered, made) = ("answered", "made, audit ok");
    let refused = check_judges(rt.alloc())?;
    add_line(text, "judges", refused, "wrong inputs refused")?;
    add_line(text, "asks", run_asks(rt)?, answered)?;
    add_line(text, "held steps", run_held_steps(rt)?, answered)?;
    add_line(text, "calls under one lock", run_locked_calls(rt)?, made)?;
    add_line(text, "calls beside a held lock", run_sleeping(rt)?, made)?;
    add_line(
        text,
        "calls with long messages",
        run_long_messages(rt)?,
        made,
    )?;
    add_line(text, "calls behind calls", run_behind_calls(rt)?, made)?;
    add_line(text, "calls of a watched token", run_watched(rt)?, made)?;
    add_line(text, "calls of eight scripts", run_eight_scripts(rt)?, made)?;
    add_line(text, "drawn calls", make_drawn_calls(rt)?, made)?;
    Ok(())
}

/// Runs the files that the arguments name and, where no word says otherwise, what callers do
/// besides. Adds a line for each that passes.
fn run_all<R: CpuClock + Env + Files + Runtime>(rt: R, text: &mut String) -> anyhow::Result<()> {
    let mut mode = Mode::InThreads;
    for word in env::args(&rt)?.skip(1) {
        match word.as_str() {
            "in-turn" => mode = Mode::InTurn,
            "reserve" => {
                reserve(rt.alloc())?;
                return Ok(());
            }
            "reserved" => return make_reserved_calls(rt.alloc(), reserve(rt.alloc())?),
            "scripts" => return write_started(rt, text),
            "share" => return write_callers(rt, text),
            name => run_file(rt, text, name, mode)?,
        }
    }
    if mode == Mode::InTurn {
        return Ok(());
    }
    run_together(rt, text)
}

fn main(rt: HostRuntime) -> anyhow::Result<()> {
    let mut text = String::new(rt.alloc());
    run_all(rt, &mut text)?;
    print!(rt; "{text}")?;
    Ok(())
}
