ghost use Rattle.std.specs.Prelude.{◌≡◌, [], ◌<◌, ◌-◌, ◌^◌, IfNone, IfOk, IsTrue, OnErr};
ghost use Rattle.left_right.specs.Handles.{published, pending};
ghost use Rattle.ck_journal.specs.Fronts.{IsFront};
ghost use Rattle.ck_journal.specs.Histories.{◌◁◌, entry_count};
ghost use Rattle.ck_callers.specs.KnownHistories.{Covers};
ghost use Rattle.ck_journal.specs.declared.calls.Entry.{Entry};

use ck_callers::{BoardCopy, BoardSlot, CallBooks, Caller, Front, Head, KnownHistory, TokenId};
use ck_journal::{Call, JournaledToken, Reply, Work};
use ck_types::NoMemory;
use left_right::{Absorb, WriteHandle};
use std::alloc::Global;
use std::marker::Model;
use std::sync::Wait;

/// What lies under the lock: the token, and what ties it to its callers and to the board. Contracts
/// see the token.
#[derive(Drop)]
pub struct Locked<K: TokenId, T: JournaledToken, R: Wait + Drop>
// `impl Absorb for BoardCopy` gives this bound. The prover wants it repeated, since a field's type
// needs it.
where
    BoardCopy<K>: Absorb<BoardSlot<K>, State = ()>,
{
    token: T,
    books: CallBooks<K>,
    known: KnownHistory<K>,
    head: Head<K>,
    writer: WriteHandle<BoardCopy<K>, BoardSlot<K>, R>,
}

impl<K: TokenId, T: JournaledToken, R: Wait + Drop> Model for Locked<K, T, R>
where
    BoardCopy<K>: Absorb<BoardSlot<K>, State = ()>,
{
    ghost use Rattle.std.specs.Prelude.{◌≡◌, []};
    ghost use Rattle.std.specs.Coded.{codes};
    ghost use Rattle.left_right.specs.Handles.{published, pending};
    ghost use Rattle.ck_journal.specs.HistoryCode.{history_code};
    ghost use Rattle.ck_journal.specs.TokenStates.{TokenState};
    ghost use Rattle.ck_shared.specs.Locked.{IsTied};

    ghost Value = { TokenState };

    ghost coded = { Prim.hlevel (codes, history_code) };

    ghost view = { λ l. T.state l.token };

    ghost invariant = { λ l. IsTied K.limits K.callers (T.state l.token) l.books l.known
        (published l.writer) × (pending l.writer ≡ []) };
}

/// Makes an empty slot for the board after a call, and hands one of its two handles to the writer,
/// which applies it when it publishes. `None` where the call leaves the board as it is.
fn add_slot<K: TokenId, R: Wait + Drop>(
    alloc: Global,
    writer: &mut WriteHandle<BoardCopy<K>, BoardSlot<K>, R>,
    keeps_board: bool,
) -> Result<Option<BoardSlot<K>>, NoMemory>
    ensures published { published writer.new ≡ published writer.old }
    ensures unchanged { OnErr result (pending writer.new ≡ pending writer.old) }
    ensures none { IfOk result (λ slot. IfNone slot
        (IsTrue keeps_board × (pending writer.new ≡ pending writer.old))) }
    ensures kept { IsTrue keeps_board → result ≡ Ok None }
{
    if keeps_board {
        return Ok(None);
    }
    let (slot, pending) = BoardSlot::vacant(alloc)?;
    match writer.append(pending) {
        Ok(()) => Ok(Some(slot)),
        Err(_) => Err(NoMemory),
    }
}

/// Fills a pending slot with the token's board and publishes it.
fn publish_slot<K: TokenId, T: JournaledToken, R: Wait + Drop, W: Wait>(
    rt: &W,
    writer: &mut WriteHandle<BoardCopy<K>, BoardSlot<K>, R>,
    slot: &BoardSlot<K>,
    token: &T,
    known: &KnownHistory<K>,
)
    requires limits { (T.state token.now).limits ≡ K.limits }
    requires history { known.now.history ≡ (T.state token.now).history }
    ensures board { Covers known.now (published writer.new) }
    ensures pending { pending writer.new ≡ [] }
{
    // The first pass returns. The loop is for the prover: no contract of the writer says what its
    // copies then have, so it is read off the published board.
    for _ in rt.forever() {
        slot.fill(token.board(), known);
        if writer.publish().is_ok() && known.covers(writer.published().known()) {
            return;
        }
    }
    unreachable!()
}

/// Publishes the token's board by way of a slot. Where there is none, it is published already.
fn publish_board<K: TokenId, T: JournaledToken, R: Wait + Drop, W: Wait>(
    rt: &W,
    writer: &mut WriteHandle<BoardCopy<K>, BoardSlot<K>, R>,
    slot: Option<BoardSlot<K>>,
    token: &T,
    known: &KnownHistory<K>,
)
    requires limits { (T.state token.now).limits ≡ K.limits }
    requires history { known.now.history ≡ (T.state token.now).history }
    requires published { IfNone slot (Covers known.now (published writer.old)
        × (pending writer.old ≡ [])) }
    ensures board { Covers known.now (published writer.new) }
    ensures pending { pending writer.new ≡ [] }
{
    if let Some(slot) = slot {
        publish_slot(rt, writer, &slot, token, known);
    }
}

/// Adds the token's newest entry to the history, and shows that `other` is a front of the history
/// before it.
fn extend<K: TokenId, T: JournaledToken, W: Wait>(
    rt: &W,
    front: &mut Front<K>,
    head: &Head<K>,
    other: &Front<K>,
    token: &T,
)
    requires limits { (T.state token.now).limits ≡ K.limits }
    requires room { entry_count front.old < 2 ^ 64 - 1 }
    requires next { (e : Entry) × ((T.state token.now).history ≡ e ◁ front.old) }
    ensures { (front.new ≡ (T.state token.now).history) × IsFront other.now front.old }
{
    // The first pass returns: only who holds the lock adds entries. No contract of `logbook` says
    // so.
    for _ in rt.forever() {
        if let Some(entry) = token.journal().newest()
            && front.add_after(head, other, entry)
        {
            return;
        }
    }
    unreachable!()
}

/// Shows to the prover that the history is no shorter than another front of it. In a run two
/// numbers are compared once.
fn show_is_front<K: TokenId, W: Wait>(rt: &W, other: &Front<K>, front: &Front<K>)
    ensures { IsFront other.now front.now }
{
    // The first pass returns: the history under the lock has all entries. No contract says so of
    // another thread's front.
    for _ in rt.forever() {
        if other.is_front_of(front) {
            return;
        }
    }
    unreachable!()
}

impl<K: TokenId, T: JournaledToken, R: Wait + Drop> Locked<K, T, R> {
    ghost use Rattle.std.specs.Prelude.{◌≡◌, [], All, IfOk, IfSome, OnOk, OnErr};
    ghost use Rattle.std.specs.Option.{option_copied};
    ghost use Rattle.left_right.specs.Handles.{published, pending};
    ghost use Rattle.ck_journal.specs.Callers.{AreCallers};
    ghost use Rattle.ck_journal.specs.Fronts.{IsFront};
    ghost use Rattle.ck_journal.specs.Histories.{start};
    ghost use Rattle.ck_journal.specs.TokenStates.{IsAnswered, IsUnchanged};
    ghost use Rattle.ck_journal.specs.Works.{IsBegun, IsAhead};
    ghost use Rattle.ck_callers.specs.Callers.{HasCalled, IsSettled};
    ghost use Rattle.ck_shared.specs.Locked.{IsTied};

    /// Ties a token to its callers and to the board.
    pub(crate) fn new(
        token: T,
        books: CallBooks<K>,
        known: KnownHistory<K>,
        head: Head<K>,
        writer: WriteHandle<BoardCopy<K>, BoardSlot<K>, R>,
    ) -> Locked<K, T, R>
        requires tied { IsTied K.limits K.callers (T.state token) books known
            (published writer) }
        requires pending { pending writer ≡ [] }
        ensures { result ≡ T.state token }
    {
        Locked {
            token,
            books,
            known,
            head,
            writer,
        }
    }

    /// Takes a caller back: its entries are those of its calls, and what it knows is a front of the
    /// history.
    pub(crate) fn settle<W: Wait>(&mut self, rt: &W, mut caller: Caller<K>)
        ensures same { self.new ≡ self.old }
        ensures settled { IsSettled self.old.history caller }
    {
        caller.show_settled(&mut self.books);
        show_is_front(rt, caller.known().front(), self.known.front());
    }

    /// Takes callers back, one after the other.
    pub(crate) fn settle_all<W: Wait>(&mut self, rt: &W, callers: Vec<Caller<K>>)
        ensures same { self.new ≡ self.old }
        ensures settled { All (IsSettled self.old.history) callers.items }
    {
        for caller in callers {
            self.settle(rt, caller);
        }
    }

    /// The token without its lock. It may wait for those who still read the board.
    pub(crate) fn into_token(self) -> T
        ensures token { T.state result ≡ self }
        ensures limits { (T.state result).limits ≡ K.limits }
        ensures callers { AreCallers K.callers (T.state result).history }
        ensures base { IsFront (start K.base) (T.state result).history }
    {
        // Tells the prover that the history goes on from the base.
        let _entries = self.known.front().len();
        // The board's writer is dropped here, which is what may wait.
        self.token
    }

    /// The token, to be read under the lock.
    pub fn token(&self) -> &T
        ensures { T.state result.now ≡ self.now }
    {
        &self.token
    }

    /// Begins the work on the message of a call, and gives it with the history at which it was
    /// begun. `None` where this saves nothing.
    pub(crate) fn begin(&self, call: &Call) -> Option<(Work, Front<K>)>
        ensures { IfSome result (λ begun. IsBegun begun.1 call.now begun.0) }
    {
        let work = self.token.work(call)?;
        Some((work, self.known.front().duplicate()))
    }

    /// Shows to the prover that the history has all entries of a front of it.
    pub(crate) fn show_front<W: Wait>(&self, rt: &W, front: &Front<K>)
        ensures { IsFront front.now self.now.history }
    {
        show_is_front(rt, front, self.known.front());
    }

    /// One call of a caller. (A `Step` of ck_callers may also be a question.) Where there is no
    /// memory for it, nothing has changed. Where the call may change the board, it may wait for
    /// those who still read an older copy.
    // Inlined, since a function that only hands a call on would copy it.
    #[inline(always)]
    pub fn step<W: Wait>(
        &mut self,
        rt: &W,
        alloc: Global,
        caller: &mut Caller<K>,
        call: Call,
    ) -> Result<Reply, NoMemory>
        ensures answered { IfOk result (λ reply.
            IsAnswered self.old self.new caller.old.number call reply) }
        ensures called { IfOk result (λ reply.
            HasCalled K.limits caller.old call reply caller.new) }
        ensures seen { OnOk result (caller.new.seen ≡ self.new.history) }
        ensures unchanged { OnErr result (IsUnchanged self.old self.new) }
        ensures caller { OnErr result (caller.new ≡ caller.old) }
    {
        self.step_after(rt, alloc, caller, call, None)
    }

    /// As `step`, with the work on the call's message where there is some.
    pub(crate) fn step_after<W: Wait>(
        &mut self,
        rt: &W,
        alloc: Global,
        caller: &mut Caller<K>,
        call: Call,
        work: Option<&Work>,
    ) -> Result<Reply, NoMemory>
        requires { IfSome (option_copied work) (IsAhead self.old.history call) }
        ensures answered { IfOk result (λ reply.
            IsAnswered self.old self.new caller.old.number call reply) }
        ensures called { IfOk result (λ reply.
            HasCalled K.limits caller.old call reply caller.new) }
        ensures seen { OnOk result (caller.new.seen ≡ self.new.history) }
        ensures unchanged { OnErr result (IsUnchanged self.old self.new) }
        ensures caller { OnErr result (caller.new ≡ caller.old) }
    {
        // By the account, whose contract says that the number is one of the token's callers.
        let number = caller.account().number();
        let keeps_board = call.keeps_board();
        let slot = add_slot(alloc, &mut self.writer, keeps_board)?;
        let Ok(reply) = self.token.call_after(alloc, number, call, work) else {
            // The writer has the slot already. It is filled with the board as it is and published,
            // so that nothing is left pending.
            publish_board(rt, &mut self.writer, slot, &self.token, &self.known);
            return Err(NoMemory);
        };
        // Tells the prover that one more entry can be counted.
        let _bound = self.token.journal().len();
        let mut front = self.known.front().duplicate();
        extend(
            rt,
            &mut front,
            &self.head,
            caller.known().front(),
            &self.token,
        );
        self.known.follow(&front, number, keeps_board);
        caller.follow(&mut self.books, &self.known);
        publish_board(rt, &mut self.writer, slot, &self.token, &self.known);
        Ok(reply)
    }
}
