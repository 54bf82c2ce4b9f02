use crate::locked::Locked;
use ck_callers::{Caller, CallerCount, Front, NewIdentity, Opened, TokenId};
use ck_journal::{Call, JournaledToken, Reply, Work};
use ck_types::{Limits, NoMemory};
use crossbeam_utils::Backoff;
use std::alloc::Global;
use std::sync::{Mutex, MutexGuard, Wait};
use std::thread;

/// A token behind a lock, which its callers share. `K` stands for the token's history, `T` is the
/// token's type, and `R` the runtime by which the board's writer waits for readers.
#[derive(Drop)]
pub struct SharedToken<K: TokenId, T: JournaledToken, R: Wait + Drop> {
    lock: Mutex<Locked<K, T, R>>,
    callers: CallerCount<K>,
}

/// The two ends of a shared token: what all threads are lent, and the callers in the order of their
/// numbers.
#[derive(Drop)]
pub struct Ends<K: TokenId, T: JournaledToken, R: Wait + Drop> {
    pub token: SharedToken<K, T, R>,
    pub callers: Vec<Caller<K>>,
}

/// The long message of a call, whose bytes are taken in before the call is made.
#[derive(Drop)]
pub struct TakenMessage<K: TokenId> {
    /// The work on the message, which is done.
    pub(crate) work: Work,
    /// The history at which the work was begun. It is read only by a comparison that tells the
    /// prover something (`Locked::show_front`).
    pub(crate) front: Front<K>,
}

/// How many times a thread looks whether the lock is free before it calls std's `lock`, in which it
/// sleeps.
const LOOKS: u32 = 11;

/// How many of these looks, the first ones, are each followed only by a pause. The pauses take
/// about a microsecond together.
const QUICK_LOOKS: u32 = 5;

/// How many times a thread lets others run after the next look, the sixth, which takes about 20
/// microseconds. After each later look it does so twice as many times as before.
const YIELDS: u32 = 64;

/// Lets other threads run this many times.
fn let_others_run(times: u32) {
    for _ in 0..times {
        thread::yield_now();
    }
}

impl<K: TokenId, T: JournaledToken, R: Wait + Drop> SharedToken<K, T, R> {
    ghost use Rattle.std.specs.Prelude.{◌≡◌, ◌≤◌, ℕ, true, false, All, IfSome};
    ghost use Rattle.std.specs.Prelude.{IfOk, OnOk, IfErr, OnErr};
    ghost use Rattle.ck_journal.specs.Bases.{empty_base};
    ghost use Rattle.ck_journal.specs.Callers.{AreCallers};
    ghost use Rattle.ck_journal.specs.Fronts.{IsFront};
    ghost use Rattle.ck_journal.specs.Histories.{start};
    ghost use Rattle.ck_journal.specs.Works.{IsDone};
    ghost use Rattle.ck_callers.specs.Accounts.{name_of};
    ghost use Rattle.ck_callers.specs.Callers.{HasCalled, IsSettled, are_all, new_callers};

    /// Shares a token among the callers 1 to `callers`, at most eight. The token's journal must
    /// have no entries. Where there is no memory, the token comes back.
    pub fn adopt(
        rt: R,
        alloc: Global,
        token: T,
        callers: u32,
        identity: NewIdentity,
    ) -> Result<Ends<K, T, R>, (T, NoMemory)>
        requires history { (T.state token).history ≡ start K.base }
        requires limits { (T.state token).limits ≡ K.limits }
        requires callers { (1 ≤ callers) × (callers ≤ 8) × (callers ≡ K.callers) }

        // `K` stands for the names of this identity.
        requires book { identity.history.seen.book ≡ K.book }
        requires ledgers { (n : ℕ) → K.ledger n ≡ name_of identity.ledgers n }

        ensures callers { IfOk result (λ ends. ends.callers.items ≡ new_callers K.base callers) }
        ensures token { IfErr result (λ refused. refused.0 ≡ token) }
    {
        match Opened::new(rt, alloc, token.board(), callers, identity) {
            Ok(opened) => Ok(Ends {
                token: SharedToken {
                    lock: Mutex::new(Locked::new(
                        token,
                        opened.books,
                        opened.known,
                        opened.head,
                        opened.writer,
                    )),
                    callers: CallerCount::new(callers),
                },
                callers: opened.callers,
            }),
            Err(NoMemory) => Err((token, NoMemory)),
        }
    }

    /// Shares a new token among the callers 1 to `callers`, at most eight.
    pub fn open(
        rt: R,
        alloc: Global,
        limits: Limits,
        callers: u32,
        identity: NewIdentity,
    ) -> Result<Ends<K, T, R>, NoMemory>
        requires base { K.base ≡ empty_base }
        requires limits { limits ≡ K.limits }
        requires callers { (1 ≤ callers) × (callers ≤ 8) × (callers ≡ K.callers) }
        requires book { identity.history.seen.book ≡ K.book }
        requires ledgers { (n : ℕ) → K.ledger n ≡ name_of identity.ledgers n }
        ensures { IfOk result (λ ends. ends.callers.items ≡ new_callers K.base callers) }
    {
        let token = T::new(alloc, limits);
        SharedToken::adopt(rt, alloc, token, callers, identity).map_err(|refused| refused.1)
    }

    /// Takes the lock. Whoever has it makes calls by `Locked::step`, with no others between them,
    /// and reads the token by `Locked::token`. The board answers without the lock meanwhile. What
    /// is known of the token under the lock is the invariant of `Locked`, so no clause repeats it.
    pub fn lock<W: Wait>(&self, rt: &W) -> MutexGuard<'_, Locked<K, T, R>> {
        let backoff = Backoff::new();
        let mut yields = YIELDS;
        for look in 0..LOOKS {
            if let Some(locked) = self.lock.try_lock() {
                return locked;
            }
            // What lies under the lock moves to another processor each time that another thread
            // takes it, and that move takes longer than a call. So after a while a thread waits
            // longer than a call takes, and whoever has the lock makes several calls in a row.
            if look < QUICK_LOOKS {
                backoff.spin();
            } else {
                let_others_run(yields);
                yields = yields.saturating_mul(2);
            }
        }
        self.lock.lock(rt)
    }

    /// One call of a caller, under the lock. The bytes of a long message are taken in while the
    /// lock is free.
    // Inlined, since a function that only hands a call on would copy it.
    #[inline(always)]
    pub fn call<W: Wait>(
        &self,
        rt: &W,
        alloc: Global,
        caller: &mut Caller<K>,
        call: Call,
    ) -> Result<Reply, NoMemory>
        ensures called { IfOk result (λ reply.
            HasCalled K.limits caller.old call reply caller.new) }
        ensures caller { OnErr result (caller.new ≡ caller.old) }
    {
        // Before the lock is taken, so that a short call takes it once.
        if call.brings_long_message() {
            return self.take_in_and_call(rt, alloc, caller, call);
        }
        self.lock(rt).step(rt, alloc, caller, call)
    }

    /// As `call`, of a call that brings a long message.
    // Never inlined, so that a short call doesn't clear room for a message on the stack.
    #[inline(never)]
    fn take_in_and_call<W: Wait>(
        &self,
        rt: &W,
        alloc: Global,
        caller: &mut Caller<K>,
        call: Call,
    ) -> Result<Reply, NoMemory>
        ensures called { IfOk result (λ reply.
            HasCalled K.limits caller.old call reply caller.new) }
        ensures caller { OnErr result (caller.new ≡ caller.old) }
    {
        let message = self.take_in(rt, &call);
        self.call_after(rt, alloc, caller, call, message)
    }

    /// Takes in the bytes of a long message that the call brings. The lock is held only while the
    /// work on it is begun. `None` where this saves nothing (`JournaledToken::work`).
    pub fn take_in<W: Wait>(&self, rt: &W, call: &Call) -> Option<TakenMessage<K>>
        ensures { IfSome result (λ message. IsDone message.front call.now message.work) }
    {
        let (mut work, front) = self.lock(rt).begin(call)?;
        work.finish(call);
        Some(TakenMessage { work, front })
    }

    /// One call of a caller, under the lock. Where its message is taken in, its bytes are taken in
    /// once more only if the operation has changed since.
    pub fn call_after<W: Wait>(
        &self,
        rt: &W,
        alloc: Global,
        caller: &mut Caller<K>,
        call: Call,
        message: Option<TakenMessage<K>>,
    ) -> Result<Reply, NoMemory>
        requires { IfSome message (λ message. IsDone message.front call message.work) }
        ensures called { IfOk result (λ reply.
            HasCalled K.limits caller.old call reply caller.new) }
        ensures caller { OnErr result (caller.new ≡ caller.old) }
    {
        let mut locked = self.lock(rt);
        let Some(TakenMessage { work, front }) = message else {
            return locked.step(rt, alloc, caller, call);
        };
        locked.show_front(rt, &front);
        locked.step_after(rt, alloc, caller, call, Some(&work))
    }

    /// Takes the token back, where all of its callers are given back: what each of them knew is a
    /// front of the journal. Else nothing has changed, and the token and the callers come back. It
    /// may wait for those who still read the board.
    pub fn close<W: Wait>(
        self,
        rt: &W,
        callers: Vec<Caller<K>>,
    ) -> Result<T, (SharedToken<K, T, R>, Vec<Caller<K>>)>
        ensures all { OnOk result (are_all K.callers callers.items ≡ true) }
        ensures missing { OnErr result (are_all K.callers callers.items ≡ false) }
        ensures back { IfErr result (λ refused. refused.1 ≡ callers) }

        // The token that comes back.
        ensures limits { IfOk result (λ token. (T.state token).limits ≡ K.limits) }
        ensures callers { IfOk result (λ token. AreCallers K.callers (T.state token).history) }
        ensures base { IfOk result (λ token. IsFront (start K.base) (T.state token).history) }

        // What each caller knew is a front of its journal.
        ensures settled { IfOk result (λ token.
            All (IsSettled (T.state token).history) callers.items) }
    {
        if !self.callers.are_all(&callers) {
            return Err((self, callers));
        }
        let mut locked = self.lock.into_inner();
        locked.settle_all(rt, callers);
        Ok(locked.into_token())
    }

    /// Takes the token back without its callers, which make no more calls. It may wait for those
    /// who still read the board.
    pub fn into_token(self) -> T
        ensures limits { (T.state result).limits ≡ K.limits }
        ensures callers { AreCallers K.callers (T.state result).history }
        ensures base { IsFront (start K.base) (T.state result).history }
    {
        self.into_locked().into_token()
    }

    /// What lies under the lock.
    pub(crate) fn into_locked(self) -> Locked<K, T, R> {
        self.lock.into_inner()
    }
}
