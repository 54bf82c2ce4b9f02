//! What is made when a token is shared.
ghost use Rattle.std.specs.Prelude.{◌≡◌, ◌≤◌, [], IfOk, map};
ghost use Rattle.left_right.specs.Handles.{published, pending};
ghost use Rattle.ck_journal.specs.Boards.{board_of};
ghost use Rattle.ck_journal.specs.Histories.{start};
ghost use Rattle.ck_callers.specs.Accounts.{AreNew};
ghost use Rattle.ck_callers.specs.Callers.{new_caller};

use crate::boards::BoardCopy;
use crate::callers::Caller;
use crate::histories::Head;
use crate::identity::{NewIdentity, TokenId};
use crate::known_histories::KnownHistory;
use crate::ledgers::{Account, CallBooks};
use crate::slots::BoardSlot;
use ck_journal::TokenBoard;
use ck_types::NoMemory;
use left_right::{Absorb, WriteHandle};
use std::alloc::Global;
use std::sync::Wait;

/// What is made when a token is shared, before its first call: what lies beside the token under its
/// lock, and the callers.
#[derive(Drop)]
pub struct Opened<K: TokenId, R: Wait + Drop>
// `impl Absorb for BoardCopy` gives this bound. The prover wants it repeated, since a field's type
// needs it.
where
    BoardCopy<K>: Absorb<BoardSlot<K>>,
{
    pub books: CallBooks<K>,
    /// What is known of the history: only the base.
    pub known: KnownHistory<K>,
    /// The length of the one history.
    pub head: Head<K>,
    /// The writer of the board's two copies.
    pub writer: WriteHandle<BoardCopy<K>, BoardSlot<K>, R>,
    pub callers: Vec<Caller<K>>,
}

/// The callers that have these accounts, each with a reader of the board.
fn callers_of<K: TokenId, R: Wait + Drop>(
    alloc: Global,
    accounts: Vec<Account<K>>,
    known: &KnownHistory<K>,
    writer: &WriteHandle<BoardCopy<K>, BoardSlot<K>, R>,
) -> Result<Vec<Caller<K>>, NoMemory>
    requires counts { AreNew accounts.items }
    requires known { known.now.history ≡ start K.base }
    ensures { IfOk result (λ callers. callers.items ≡ map (new_caller K.base) accounts.items) }
{
    let mut callers = Vec::with_capacity(alloc, accounts.len())?;
    for account in accounts {
        let reader = writer.handle()?;
        callers.push_reserved(Caller::new(account, known, reader));
    }
    Ok(callers)
}

impl<K: TokenId, R: Wait + Drop> Opened<K, R> {
    ghost use Rattle.std.specs.Prelude.{◌≡◌, ◌≤◌, ℕ, [], IfOk};
    ghost use Rattle.left_right.specs.Handles.{published, pending};
    ghost use Rattle.ck_journal.specs.Boards.{board_of};
    ghost use Rattle.ck_journal.specs.Histories.{start};
    ghost use Rattle.ck_callers.specs.Accounts.{name_of, no_calls};
    ghost use Rattle.ck_callers.specs.Callers.{new_callers};

    /// Makes all that a shared token takes memory for when it is opened. Its board is this one.
    pub fn new(
        rt: R,
        alloc: Global,
        board: TokenBoard,
        callers: u32,
        identity: NewIdentity,
    ) -> Result<Opened<K, R>, NoMemory>
        requires board { board ≡ board_of K.limits (start K.base) }
        requires callers { (1 ≤ callers) × (callers ≤ 8) × (callers ≡ K.callers) }

        // `K` stands for the names of this identity.
        requires history { identity.history.seen.book ≡ K.book }
        requires ledgers { (n : ℕ) → K.ledger n ≡ name_of identity.ledgers n }

        // Nothing has been called yet, and the board is that of the base.
        ensures books { IfOk result (λ opened. opened.books ≡ no_calls) }
        ensures history { IfOk result (λ opened. opened.known.history ≡ start K.base) }
        ensures changed { IfOk result (λ opened. opened.known.changed ≡ start K.base) }
        ensures published { IfOk result (λ opened. published opened.writer ≡ start K.base) }
        ensures pending { IfOk result (λ opened. pending opened.writer ≡ []) }
        ensures callers { IfOk result (λ opened.
            opened.callers.items ≡ new_callers K.base callers) }
    {
        let NewIdentity { history, ledgers } = identity;
        let (head, front) = history.with_name::<K>();
        let known = KnownHistory::new(&front);
        let (books, accounts) = ledgers.with_name::<K>(alloc, callers)?;
        let (shown, hidden) = BoardCopy::pair(&board, &known);
        let writer = WriteHandle::new(alloc, rt, shown, hidden, callers as usize)?;
        let callers = callers_of(alloc, accounts, &known, &writer)?;
        Ok(Opened {
            books,
            known,
            head,
            writer,
            callers,
        })
    }
}
