ghost use Rattle.std.specs.Prelude.{◌≡◌};
ghost use Rattle.ck_journal.specs.Boards.{board_of};

use crate::identity::TokenId;
use crate::known_histories::KnownHistory;
use crate::slots::BoardSlot;
use ck_journal::TokenBoard;
use left_right::Absorb;
use std::alloc::AllocError;
use std::marker::Model;

/// One of the two copies of the board. Contracts see the history that it is of.
#[derive(Drop)]
pub struct BoardCopy<K: TokenId> {
    board: TokenBoard,
    known: KnownHistory<K>,
}

impl<K: TokenId> Model for BoardCopy<K> {
    ghost use Rattle.std.specs.Prelude.{◌≡◌};
    ghost use Rattle.ck_journal.specs.Boards.{board_of};
    ghost use Rattle.ck_journal.specs.Histories.{History};
    ghost use Rattle.ck_journal.specs.HistoryCode.{history_code};

    ghost Value = { History };

    ghost coded = { history_code };

    ghost view = { λ b. b.known.history };

    ghost invariant = { λ b. b.board ≡ board_of K.limits b.known.history };
}

impl<K: TokenId> BoardCopy<K> {
    /// The two copies, before the first entry. The clause is about the first, which is published
    /// first. Nothing rests on the history that the second shows.
    pub(crate) fn pair(board: &TokenBoard, known: &KnownHistory<K>) -> (BoardCopy<K>, BoardCopy<K>)
        requires { board.now ≡ board_of K.limits known.now.history }
        ensures { result.0 ≡ known.now.history }
    {
        (
            BoardCopy::new(board.duplicate(), known),
            BoardCopy::new(board.duplicate(), known),
        )
    }

    /// A copy of this board, which is of the known history.
    pub(crate) fn new(board: TokenBoard, known: &KnownHistory<K>) -> BoardCopy<K>
        requires { board ≡ board_of K.limits known.now.history }
        ensures { result ≡ known.now.history }
    {
        BoardCopy {
            board,
            known: known.duplicate(),
        }
    }

    /// One more copy, which takes no memory.
    fn duplicate(&self) -> BoardCopy<K>
        ensures { result ≡ self.now }
    {
        BoardCopy {
            board: self.board.duplicate(),
            known: self.known.duplicate(),
        }
    }

    /// The board itself, which answers C_GetSessionInfo and C_GetTokenInfo.
    pub(crate) fn board(&self) -> &TokenBoard
        ensures { result.now ≡ board_of K.limits self.now }
    {
        &self.board
    }

    /// The history that it is of, as callers know one.
    pub fn known(&self) -> &KnownHistory<K>
        ensures { result.now.history ≡ self.now }
    {
        &self.known
    }
}

/// No contract says which history the two copies are of once a slot was applied to them: that is
/// read off the published copy.
impl<K: TokenId> Absorb<BoardSlot<K>> for BoardCopy<K> {
    type State = ();

    ghost state = { λ b. tt };

    ghost applied = { λ state slot. tt };

    ghost never_fails = { Unit {0} };

    fn absorb_first(
        &mut self,
        slot: &BoardSlot<K>,
        _other: &BoardCopy<K>,
    ) -> Result<(), AllocError> {
        if let Some(content) = slot.content.try_lock()
            && let Some(new) = &*content
        {
            *self = new.duplicate();
        }
        Ok(())
    }
}
