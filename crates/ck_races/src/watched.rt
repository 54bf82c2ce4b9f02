//! How a shared token uses the token under its lock, which no contract says: a short call begins no
//! work, the bytes of a long message are taken in before its call and not once more in it, and only
//! a call that may change the board reads it.
ghost use Rattle.std.specs.Prelude.{◌≡◌};
ghost use Rattle.ck_token.specs.Histories.{start, start_of};

use crate::journals::{check_audit, check_entries, check_replies, in_order_of_callers};
use crate::ordered_calls::OrderedCalls;
use crate::orders::CallOrder;
use crate::races::{RaceLine, races_in};
use anyhow::{Context, ensure};
use ck_shared::{Runtime, share};
use ck_token::{
    Base, Call, Journal, JournaledToken, Limits, NoMemory, Reply, Token, TokenBoard, Work,
};
use std::alloc::Global;
use std::sync::atomic::{AtomicU64, Ordering};

/// How many calls with long messages the caller makes, one of each kind.
const LONG_CALLS: u64 = 6;

/// What the one caller does: two short calls that change the board, ten that don't, of which one
/// brings a message that is a byte too short to be long, and one call of each kind that brings a
/// long message.
const CALLS: &str = "\
race
1 InitToken 31323334 -> 0
1 OpenSession 6 -> 0 1
1 CreateObject 1 0=0400000000000000,100=1000000000000000,11=4a656665,2=00 -> 0 1
1 GetTokenInfo -> 0 404 64 1 1
1 DigestInit 1 250 -> 0
1 SignInit 1 251 1 -> 0
1 VerifyInit 1 251 1 -> 0
1 DigestUpdate 1 61*4096 -> 0
1 SignUpdate 1 61*4096 -> 0
1 VerifyUpdate 1 61*4096 -> 0
1 DigestUpdate 1 61*4095 -> 0
1 SessionCancel 1 2c00 -> 0
1 DigestInit 1 250 -> 0
1 SignInit 1 251 1 -> 0
1 VerifyInit 1 251 1 -> 0
1 Digest 1 61*4096 32 -> 0 c93eee2d0db02f10acc7460d9576e122dcf8cd53c4bf8dfcae1b3e74ebcfff5a
1 Sign 1 61*4096 32 -> 0 404e027be6c5aff6a052f246c997bb0d24715b7e38951d2105d893b948ddd995
1 Verify 1 61*4096 404e027be6c5aff6a052f246c997bb0d24715b7e38951d2105d893b948ddd995 -> 0
";

/// A token that counts how it is used.
#[derive(Drop)]
struct WatchedToken {
    token: Token,
    /// How many times it was asked to begin work.
    works: AtomicU64,
    /// How many calls came with work that was done.
    worked: AtomicU64,
    /// How many times its board was read.
    boards: AtomicU64,
}

impl WatchedToken {
    /// This token, of which nothing is counted yet.
    fn of(token: Token) -> WatchedToken
        ensures { result.token ≡ token }
    {
        WatchedToken {
            token,
            works: AtomicU64::new(0),
            worked: AtomicU64::new(0),
            boards: AtomicU64::new(0),
        }
    }
}

impl JournaledToken for WatchedToken {
    ghost state = { λ watched. watched.token };

    fn new(alloc: Global, limits: Limits) -> WatchedToken {
        WatchedToken::of(Token::new(alloc, limits))
    }

    fn from_base(alloc: Global, limits: Limits, base: Base) -> Result<WatchedToken, NoMemory> {
        Ok(WatchedToken::of(Token::from_base(alloc, limits, base)?))
    }

    fn call(&mut self, alloc: Global, caller: u32, call: Call) -> Result<Reply, NoMemory> {
        self.token.call(alloc, caller, call)
    }

    fn work(&self, call: &Call) -> Option<Work> {
        self.works.fetch_add(1, Ordering::SeqCst);
        self.token.work(call)
    }

    fn call_after(
        &mut self,
        alloc: Global,
        caller: u32,
        call: Call,
        work: Option<&Work>,
    ) -> Result<Reply, NoMemory> {
        if work.is_some() {
            self.worked.fetch_add(1, Ordering::SeqCst);
        }
        self.token.call_after(alloc, caller, call, work)
    }

    fn journal(&self) -> &Journal {
        self.token.journal()
    }

    fn limits(&self) -> Limits {
        self.token.limits()
    }

    fn board(&self) -> TokenBoard {
        self.boards.fetch_add(1, Ordering::SeqCst);
        self.token.board()
    }
}

/// Checks how many times the token was asked to begin work, was given work that was done, and had
/// its board read.
fn check_uses(token: &WatchedToken) -> anyhow::Result<()> {
    let begun = token.works.load(Ordering::SeqCst);
    ensure!(
        begun == LONG_CALLS,
        "the token isn't asked exactly once to begin work for each long message"
    );
    let brought = token.worked.load(Ordering::SeqCst);
    ensure!(
        brought == LONG_CALLS,
        "work isn't brought to each call with a long message"
    );
    // Once where the token is shared, and by the two calls that may change the board.
    let read = token.boards.load(Ordering::SeqCst);
    ensure!(read == 3, "the board isn't read exactly three times");
    Ok(())
}

/// Makes these calls on a token. Says how many there are.
fn make_calls<R: Runtime>(
    rt: R,
    token: &mut WatchedToken,
    lines: &[RaceLine],
) -> anyhow::Result<u64>
    requires history { token.old.token.history ≡ start (start_of token.old.token.history) }
{
    let alloc = rt.alloc();
    let order = CallOrder::new(&[]);
    let calls = OrderedCalls {
        lines,
        order: &order,
    };
    let all = share(rt, alloc, token, 1, &calls)?;
    check_replies(token.journal(), in_order_of_callers(alloc, all)?)?;
    check_entries(alloc, lines, token.journal())?;
    check_uses(token)?;
    check_audit(alloc, &token.token)
}

/// Makes the calls on a new token. Says how many there are.
pub(crate) fn run_watched<R: Runtime>(rt: R) -> anyhow::Result<u64> {
    let alloc = rt.alloc();
    let races = races_in(alloc, CALLS)?;
    let race = races.first().context("the calls are missing")?;
    make_calls(
        rt,
        &mut WatchedToken::new(alloc, Limits::largest()),
        &race.lines,
    )
}
