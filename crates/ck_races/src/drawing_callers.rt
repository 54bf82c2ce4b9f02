//! Callers that draw their calls.
use crate::journals::CallerReplies;
use crate::mix::{Handles, LONG, ROWS, SELDOM, SETS, call_of};
use anyhow::ensure;
use ck_shared::{Ask, Caller, CallerWork, Gate, TokenId};
use ck_token::{Body, Reply, Rv};
use rand_core::{Rng, SeedableRng};
use rand_xoshiro::Xoshiro256PlusPlus;
use std::alloc::Global;
use std::sync::Wait;
use std::sync::atomic::Ordering;

/// How many calls each caller makes.
const CALLS: usize = 5_000;

/// Of this many drawn rows one is from `SELDOM`, on average.
const SELDOM_IN: u64 = 256;

/// Of `SELDOM_IN` drawn rows this many are from `LONG`, on average.
const LONG_IN: u64 = 4;

/// A caller at a gate, with the sets of handles that it knows, its random numbers and all replies
/// that it got.
#[derive(Drop)]
struct DrawingCaller<'a, 'c, K: TokenId, G, R> {
    rt: &'a R,
    alloc: Global,
    gate: &'a G,
    caller: &'c mut Caller<K>,
    sets: &'a [Handles; SETS],
    replies: Vec<Reply>,
    draws: Xoshiro256PlusPlus,
}

/// The row that a number stands for.
fn row_of(number: u64) -> &'static str {
    let draw = (number / SELDOM_IN) as usize;
    match number % SELDOM_IN {
        0 => SELDOM[draw % SELDOM.len()],
        1..=LONG_IN => LONG[draw % LONG.len()],
        _ => ROWS[draw % ROWS.len()],
    }
}

/// Keeps the handle of a reply, where there is one, for the word after its call.
fn keep_handle(handles: &Handles, word: &str, reply: &Reply) {
    if let (Rv::Ok, Body::Handle(number)) = (&reply.rv, &reply.body)
        && let Some(handle) = handles.get(word)
    {
        handle.store(*number, Ordering::SeqCst);
    }
}

impl<'a, 'c, K: TokenId, G: Gate<K>, R: Wait> DrawingCaller<'a, 'c, K, G, R> {
    /// A caller that has made no call yet. Its draws follow from its number.
    fn new(
        rt: &'a R,
        alloc: Global,
        gate: &'a G,
        caller: &'c mut Caller<K>,
        sets: &'a [Handles; SETS],
    ) -> DrawingCaller<'a, 'c, K, G, R> {
        let draws = Xoshiro256PlusPlus::seed_from_u64(u64::from(caller.number()));
        DrawingCaller {
            rt,
            alloc,
            gate,
            caller,
            sets,
            replies: Vec::new(alloc),
            draws,
        }
    }

    /// Makes one call of a row with these handles, and keeps its reply.
    fn make_call(&mut self, handles: &Handles, text: &str) -> anyhow::Result<()> {
        let (text, word) = text.split_once(" > ").unwrap_or((text, ""));
        let call = call_of(self.alloc, handles, text)?;
        let reply = self.gate.call(self.rt, self.alloc, self.caller, call)?;
        keep_handle(handles, word, &reply);
        self.replies.push(reply)?;
        Ok(())
    }

    /// Makes the calls of a row, as long as the caller has calls to make.
    fn make_row(&mut self, handles: &Handles, row: &str) -> anyhow::Result<()> {
        for text in row.split("; ") {
            if self.replies.len() < CALLS {
                self.make_call(handles, text)?;
            }
        }
        Ok(())
    }

    /// Makes a drawn row. Then the caller asks without the lock for the state of a session, for the
    /// state of the token, and for the mechanisms. What it sees depends on the others, and it is
    /// always answered.
    fn make_drawn_row(&mut self) -> anyhow::Result<()> {
        let row = row_of(self.draws.next_u64());
        let number = self.draws.next_u64();
        let sets = self.sets;
        let handles = &sets[number as usize % SETS];
        self.make_row(handles, row)?;
        let session = handles.session.load(Ordering::SeqCst);
        for ask in [Ask::Session(session), Ask::Token, Ask::Mechanisms] {
            let status = self.gate.status(self.caller, ask);
            ensure!(status.is_some(), "a question is not answered");
        }
        Ok(())
    }

    /// Draws rows until the caller has made its calls. Gives the replies.
    fn make(mut self) -> anyhow::Result<Vec<Reply>> {
        // Each row has a call at least, so this many rows are enough. The loop must be seen to end.
        for _ in 0..CALLS {
            if self.replies.len() < CALLS {
                self.make_drawn_row()?;
            }
        }
        Ok(self.replies)
    }
}

/// Makes the drawn calls of a caller at a gate, with these sets of handles. Gives the replies.
// A function, since the borrow checker wants one lifetime for what the caller holds.
fn make_drawn<'a, K: TokenId, G: Gate<K>, R: Wait>(
    rt: &'a R,
    alloc: Global,
    gate: &'a G,
    caller: &mut Caller<K>,
    sets: &'a [Handles; SETS],
) -> anyhow::Result<Vec<Reply>> {
    DrawingCaller::new(rt, alloc, gate, caller, sets).make()
}

/// Drawn calls of callers, which know these handles between them.
#[derive(Drop)]
pub(crate) struct DrawnCalls(pub(crate) [Handles; SETS]);

impl<R: Wait + AllocGlobal> CallerWork<R> for DrawnCalls {
    ghost use Rattle.std.specs.Prelude.{⊤};

    type Output = anyhow::Result<CallerReplies>;

    ghost holds = { λ work before after replies. ⊤ };

    /// The draws follow from the caller's number.
    fn act<K: TokenId, G: Gate<K>>(
        &self,
        rt: &R,
        gate: &G,
        caller: &mut Caller<K>,
    ) -> Self::Output {
        let number = caller.number();
        let replies = make_drawn(rt, rt.alloc(), gate, caller, &self.0)?;
        Ok(CallerReplies { number, replies })
    }
}
