//! What callers of a shared token take that work at once, each in a thread of its own.
ghost use Rattle.std.specs.Prelude.{◌≡◌, ◌≤◌, OnOk, length};
ghost use Rattle.ck_token.specs.Histories.{start, start_of};

use crate::tasks::{Round, Task, Tasks};
use crate::times::Times;
use ck_shared::{Runtime, share};
use ck_token::{Call, Limits, Pin, Token};
use std::alloc::Global;
use std::time::{Clock, Duration};

/// Initializes a token, and cuts its journal.
fn initialize(alloc: Global, token: &mut Token) -> anyhow::Result<()>
    ensures { OnOk result (token.new.history ≡ start (start_of token.new.history)) }
{
    let pin = Pin::of(b"1234");
    token.try_call(alloc, 1, Call::InitToken { pin })?;
    token.cut(alloc)?;
    Ok(())
}

/// Callers do these tasks, each in a thread, on a new token. Gives the time of the slowest.
fn time_of<R: Clock + Runtime>(rt: R, alloc: Global, tasks: &[Task]) -> anyhow::Result<Duration>
    requires { (1 ≤ length tasks.now) × (length tasks.now ≤ 8) }
{
    let mut token = Token::new(alloc, Limits::largest());
    initialize(alloc, &mut token)?;
    let work = Tasks::new(alloc, tasks)?;
    let mut slowest = Duration::ZERO;
    for time in share(rt, alloc, &mut token, tasks.len() as u32, &work)? {
        slowest = time?.max(slowest);
    }
    Ok(slowest)
}

/// Callers do these tasks on a new token, as `time_of` says. Writes what the slowest takes by the
/// clock, or only that they are done.
fn measure_tasks<R: Clock + Print + Runtime>(
    rt: R,
    alloc: Global,
    name: &str,
    tasks: &[Task],
    times: Times,
) -> anyhow::Result<()>
    requires { (1 ≤ length tasks.now) × (length tasks.now ≤ 8) }
{
    let time = time_of(rt, alloc, tasks)?;
    match times {
        Times::Written => times.write(&rt, name, time)?,
        Times::LeftOut => println!(rt; "{name}: done")?,
    }
    Ok(())
}

/// Writes what callers take by the clock, or only that they are done.
///
/// - Asks: one caller asks `asks` times, each of four does, and one does beside another that
///   changes the token.
/// - Changes: each of four makes a hundredth of `asks`, and one makes as many as these together, so
///   that both journals grow alike.
/// - Digests of a long message: `asks / 100_000 + 1` by one caller, and by each of four.
/// - Beside another that digests, one waits for the lock `asks / 40` times. In its place one only
///   reads the clock `asks / 20` times: its longest pause is the system's and not the lock's.
pub(crate) fn measure_together<R: Clock + Print + Runtime>(
    rt: R,
    alloc: Global,
    asks: u64,
    times: Times,
) -> anyhow::Result<()> {
    let ask = Task::new(Round::Ask, asks);
    measure_tasks(rt, alloc, "asks of one caller", &[ask], times)?;
    measure_tasks(rt, alloc, "asks of four callers", &[ask; 4], times)?;
    let beside = [ask, Task::beside(Round::Change)];
    measure_tasks(rt, alloc, "asks beside changes", &beside, times)?;
    let all_changes = Task::new(Round::Change, asks / 25);
    measure_tasks(rt, alloc, "changes of one caller", &[all_changes], times)?;
    let change = Task::new(Round::Change, asks / 100);
    measure_tasks(rt, alloc, "changes of four callers", &[change; 4], times)?;
    let digest = Task::new(Round::Digest, asks / 100_000 + 1);
    measure_tasks(rt, alloc, "digests of one caller", &[digest], times)?;
    measure_tasks(rt, alloc, "digests of four callers", &[digest; 4], times)?;
    let wait = Task::new(Round::Wait, asks / 40);
    let beside = [wait, Task::beside(Round::Digest)];
    measure_tasks(rt, alloc, "wait beside digests", &beside, times)?;
    let pause = Task::new(Round::Pause, asks / 20);
    let beside = [pause, Task::beside(Round::Digest)];
    measure_tasks(rt, alloc, "pause beside digests", &beside, times)
}
