//! Orders of callers, by which calls are held.
use ck_token::MOST_CALLERS;
use rand_core::Rng;
use rand_xoshiro::Xoshiro256PlusPlus;
use std::sync::Wait;
use std::sync::atomic::{AtomicBool, AtomicU64, Ordering};
use std::time::Duration;

/// How many times a thread that waits for another looks at most. A held call looks when another has
/// come to the gate or was made, and after `LONGEST_SLEEP` at the latest.
pub(crate) const MOST_LOOKS: u32 = 1_000_000;

/// The longest that a thread sleeps before it looks again, in microseconds.
pub(crate) const LONGEST_SLEEP: u64 = 20;

/// An order of calls, by the numbers of their callers.
#[derive(Drop)]
pub(crate) struct CallOrder<'a> {
    callers: &'a [u32],
    /// How many calls have come to the gate.
    come: AtomicU64,
    /// How many were made.
    made: AtomicU64,
    /// How many times a call has come or was made.
    moves: AtomicU64,
    /// Whether a call has waited too long. Then none is held any more.
    is_late: AtomicBool,
}

impl<'a> CallOrder<'a> {
    /// An order of the calls of these callers. Calls after these aren't held.
    pub(crate) fn new(callers: &'a [u32]) -> CallOrder<'a> {
        CallOrder {
            callers,
            come: AtomicU64::new(0),
            made: AtomicU64::new(0),
            moves: AtomicU64::new(0),
            is_late: AtomicBool::new(false),
        }
    }

    /// The callers' numbers in the order of their calls.
    pub(crate) fn callers(&self) -> &[u32] {
        self.callers
    }

    /// Whether a call was made too early, since those before it weren't made in time.
    pub(crate) fn is_late(&self) -> bool {
        self.is_late.load(Ordering::SeqCst)
    }

    /// Tells all who wait that a call has come or was made.
    fn tell(&self) {
        self.moves.fetch_add(1, Ordering::SeqCst);
        self.moves.wake_all();
    }

    /// Counts a call that was made.
    pub(crate) fn count_made(&self) {
        self.made.fetch_add(1, Ordering::SeqCst);
        self.tell();
    }

    /// Whether the next call is this caller's, and each caller that still has a call in the order
    /// has come to the gate with its next one; or calls aren't held any more.
    fn is_next(&self, caller: u32) -> bool {
        if self.is_late() {
            return true;
        }
        let made = self.made.load(Ordering::SeqCst);
        let left = self.callers.get(made as usize..).unwrap_or(&[]);
        let Some(next) = left.first() else {
            return true;
        };
        if *next != caller {
            return false;
        }
        let waiting = (1..=MOST_CALLERS)
            .filter(|number| left.contains(number))
            .count();
        self.come.load(Ordering::SeqCst) >= made.saturating_add(waiting as u64)
    }

    /// Waits until the next call is one of this caller. Where that doesn't happen in time, no call
    /// is held any more.
    pub(crate) fn hold<W: Wait>(&self, rt: &W, caller: u32) {
        let longest = Duration::from_micros(LONGEST_SLEEP);
        self.come.fetch_add(1, Ordering::SeqCst);
        self.tell();
        for _ in 0..MOST_LOOKS {
            let moves = self.moves.load(Ordering::SeqCst);
            if self.is_next(caller) {
                return;
            }
            // A thread sleeps only while the low 32 bits are still these.
            let moves = (moves % 0x1_0000_0000) as u32;
            self.moves.park_timeout(rt, moves, longest);
        }
        self.is_late.store(true, Ordering::SeqCst);
        self.tell();
    }
}

/// Reverses the first callers of an order, as many as are drawn: none, some or all.
pub(crate) fn reorder(draws: &mut Xoshiro256PlusPlus, order: &mut [u32]) {
    let length = draws.next_u64() as usize % (order.len() + 1);
    if let Some(front) = order.get_mut(..length) {
        front.reverse();
    }
}
