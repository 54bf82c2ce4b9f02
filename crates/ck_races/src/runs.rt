//! Runs of a race by callers in threads, with all calls in order and with only the first ones.
ghost use Rattle.std.specs.Prelude.{◌≡◌};
ghost use Rattle.ck_token.specs.Histories.{start, start_of};

use crate::journals::{
    CallerReplies, check_audit, check_replies, check_token, in_order_of_callers,
};
use crate::ordered_calls::OrderedCalls;
use crate::orders::{CallOrder, reorder};
use crate::races::Race;
use crate::shared_work::{SharedWork, share_with};
use crate::tokens::{make_calls, prepared_token};
use anyhow::ensure;
use ck_shared::{Runtime, share};
use ck_token::Token;
use rand_core::SeedableRng;
use rand_xoshiro::Xoshiro256PlusPlus;
use std::alloc::Global;

/// How many times a race is run in each of four ways.
const RUNS: u64 = 100;

/// Checks what came of a race, and what is made afterwards: no call was made too early, each caller
/// got the replies of its entries, these are as the race says, and the journal is legal. Says how
/// many calls were made in threads.
pub(crate) fn check_run(
    alloc: Global,
    token: &mut Token,
    race: &Race,
    order: &CallOrder,
    all: Vec<CallerReplies>,
) -> anyhow::Result<u64> {
    ensure!(!order.is_late(), "a call wasn't the next one in time");
    let calls = token.journal().len();
    check_replies(token.journal(), all)?;
    check_token(alloc, token, race, order.callers())?;
    check_audit(alloc, token)?;
    Ok(calls)
}

/// The callers of a race make its calls on a token by `share`, the first ones in this order of
/// their callers.
fn share_race<R: Runtime>(
    rt: R,
    token: &mut Token,
    race: &Race,
    callers: &[u32],
) -> anyhow::Result<u64>
    requires history { token.old.history ≡ start (start_of token.old.history) }
{
    let alloc = rt.alloc();
    let order = CallOrder::new(callers);
    let calls = OrderedCalls {
        lines: &race.lines,
        order: &order,
    };
    let all = share(rt, alloc, token, race.callers(), &calls)?;
    let all = in_order_of_callers(alloc, all)?;
    check_run(alloc, token, race, &order, all)
}

/// As `share_race`, on a new token.
fn run_shared<R: Runtime>(rt: R, race: &Race, callers: &[u32]) -> anyhow::Result<u64> {
    let mut token = prepared_token(rt.alloc(), race)?;
    share_race(rt, &mut token, race, callers)
}

/// As `run_shared`, by `run_scripts`, where the bytes of each long message are taken in before the
/// call is held.
fn run_scripted<R: Runtime>(rt: R, race: &Race, callers: &[u32]) -> anyhow::Result<u64> {
    let alloc = rt.alloc();
    let order = CallOrder::new(callers);
    // The race is lent anew: the work lives no longer than the order.
    let work = SharedWork::HeldScripts {
        race: &*race,
        order: &order,
    };
    let token = prepared_token(alloc, race)?;
    let (mut token, outcome) = share_with(rt, token, race.callers(), &work)?;
    check_run(alloc, &mut token, race, &order, outcome.replies)
}

/// Makes the calls of a race on a token that isn't shared, as they stand.
fn make_race(alloc: Global, token: &mut Token, race: &Race) -> anyhow::Result<()> {
    make_calls(alloc, token, &race.lines)?;
    make_calls(alloc, token, &race.afterwards)
}

/// Runs a race again and again: by scripts with all calls in this order of their callers; by
/// scripts and by `share` in another order, which is drawn anew each time; and with only the first
/// calls in that order. Says how many calls were made in threads.
fn run_in_orders<R: Runtime>(
    rt: R,
    race: &Race,
    callers: &[u32],
    drawn: &mut [u32],
) -> anyhow::Result<u64> {
    let mut draws = Xoshiro256PlusPlus::seed_from_u64(race.number);
    let mut calls = 0u64;
    for _ in 0..RUNS {
        calls = calls.saturating_add(run_scripted(rt, race, callers)?);
        calls = calls.saturating_add(run_scripted(rt, race, drawn)?);
        calls = calls.saturating_add(run_shared(rt, race, drawn)?);
        let first = drawn.get(..race.first).unwrap_or(&[]);
        calls = calls.saturating_add(run_shared(rt, race, first)?);
        if let Some(together) = drawn.get_mut(race.first..) {
            reorder(&mut draws, together);
        }
    }
    Ok(calls)
}

/// Runs a race on a token that isn't shared, and in orders of the callers of its calls, beginning
/// with that in which they stand. Says how many calls were made in threads.
pub(crate) fn run_race<R: Runtime>(rt: R, race: &Race) -> anyhow::Result<u64> {
    let alloc = rt.alloc();
    make_race(alloc, &mut prepared_token(alloc, race)?, race)?;
    let callers = race.lines.iter().map(|line| line.caller);
    let callers: Vec<u32> = callers.collect(alloc)?;
    let mut drawn: Vec<u32> = callers.iter().copied().collect(alloc)?;
    run_in_orders(rt, race, &callers, &mut drawn)
}
