//! Measures calls of a token. A script is read from standard input, and a line `#measure NAME`
//! begins a section of it. For each section it is written how many calls it has and how many of
//! them were refused. The argument says what is done, several times:
//!
//! - `unshared`: a token that isn't shared answers the calls, and then its journal is audited. The
//!   processor time is written too.
//! - `locked`: a shared token answers them to its one caller. The processor time is written too.
//! - `hashed`: a token that isn't shared answers the calls, and behind each section the messages
//!   that its calls bring are hashed, by `sha2` alone. The processor time of both is written too.
//! - `threads` and a number: nothing is read. Callers of a shared token, each in a thread of its
//!   own, ask this many times without the lock, change the token, digest, or wait for the lock.
//!   What the slowest takes by the clock is written.
//!
//! With no argument each is done once, the last with few asks, and no times are written.
#![tactic(auto)]

mod measures;
mod sections;
mod tasks;
mod threads;
mod times;

use anyhow::bail;
use ck_shared::Runtime;
use measures::{measure_hashed, measure_locked, measure_unshared};
use sections::{Section, sections_in};
use std::alloc::Global;
use std::env::Env;
use std::io::Input;
use std::time::{Clock, CpuClock};
use std::{env, io};
use threads::measure_together;
use times::Times;

/// How many questions callers ask where no number is given.
const FEW_ASKS: u64 = 300;

/// How many times what is timed is done. The first time takes new pages of the system for its
/// memory, the others hardly any.
const TRIES: u32 = 7;

/// What the program is asked to do.
#[derive(Clone, Copy)]
enum Request {
    All,
    Unshared,
    Locked,
    Hashed,
    Threads(u64),
}

impl Request {
    /// How many times it is measured; the least time counts.
    fn tries(self) -> u32 {
        match self {
            Request::All => 1,
            _ => TRIES,
        }
    }
}

/// What the arguments ask for.
fn request_of<R: Env + AllocGlobal>(rt: &R) -> anyhow::Result<Request> {
    let mut words = env::args(rt)?.skip(1);
    let Some(word) = words.next() else {
        return Ok(Request::All);
    };
    match (word.as_str(), words.next(), words.next()) {
        ("unshared", None, None) => Ok(Request::Unshared),
        ("locked", None, None) => Ok(Request::Locked),
        ("hashed", None, None) => Ok(Request::Hashed),
        ("threads", Some(number), None) => match number.as_str().parse() {
            Ok(asks) => Ok(Request::Threads(asks)),
            Err(_) => bail!("{number} is no number of questions"),
        },
        _ => bail!("the arguments are `unshared`, `locked`, `hashed`, or `threads` and a number"),
    }
}

/// The script on standard input, none where only threads are asked for.
fn script_for<R: Input + AllocGlobal>(rt: &R, request: Request) -> io::Result<String> {
    let alloc = rt.alloc();
    match request {
        Request::Threads(_) => Ok(String::new(alloc)),
        _ => io::read_to_string(alloc, rt.reader()),
    }
}

/// Does once what is asked for.
fn measure_once<R: Clock + CpuClock + Print + Runtime>(
    rt: R,
    alloc: Global,
    request: Request,
    sections: &[Section],
) -> anyhow::Result<()> {
    match request {
        Request::Unshared => measure_unshared(&rt, alloc, sections, Times::Written),
        Request::Locked => measure_locked(rt, alloc, sections, Times::Written),
        Request::Hashed => measure_hashed(&rt, alloc, sections, Times::Written),
        Request::Threads(asks) => measure_together(rt, alloc, asks, Times::Written),
        Request::All => {
            measure_unshared(&rt, alloc, sections, Times::LeftOut)?;
            measure_locked(rt, alloc, sections, Times::LeftOut)?;
            measure_hashed(&rt, alloc, sections, Times::LeftOut)?;
            measure_together(rt, alloc, FEW_ASKS, Times::LeftOut)
        }
    }
}

fn main(rt: HostRuntime) -> anyhow::Result<()> {
    let request = request_of(&rt)?;
    let script = script_for(&rt, request)?;
    let sections = sections_in(rt.alloc(), script.as_str())?;
    for _ in 0..request.tries() {
        measure_once(rt, rt.alloc(), request, &sections)?;
    }
    Ok(())
}
