ghost use Rattle.std.specs.Prelude.{◌≡◌};
ghost use Rattle.ck_journal.specs.Boards.{board_of};

use crate::boards::BoardCopy;
use crate::identity::TokenId;
use crate::known_histories::KnownHistory;
use ck_journal::TokenBoard;
use ck_types::NoMemory;
use std::alloc::Global;
use std::sync::{Arc, Mutex};

/// A slot for the board after a call. It is made before the call is answered, and filled
/// afterwards. It has two handles, of which the board's writer gets one. Only the thread that holds
/// the token's lock uses them, so nobody waits for the slot's own lock.
#[derive(Drop)]
pub struct BoardSlot<K: TokenId> {
    pub(crate) content: Arc<Mutex<Option<BoardCopy<K>>>>,
}

impl<K: TokenId> BoardSlot<K> {
    /// The two handles of a slot that isn't filled. No clause can name what lies under its lock.
    pub fn vacant(alloc: Global) -> Result<(BoardSlot<K>, BoardSlot<K>), NoMemory> {
        let content = Arc::new(alloc, Mutex::new(None))?;
        let other = Arc::try_clone(&content)?;
        Ok((BoardSlot { content }, BoardSlot { content: other }))
    }

    /// Fills the slot with the board after a call and the history that it is of. It takes no
    /// memory. The precondition says that the board is of this history, and the type of what the
    /// slot holds keeps that. No clause can say that the slot has the board afterwards.
    pub fn fill(&self, board: TokenBoard, known: &KnownHistory<K>)
        requires { board ≡ board_of K.limits known.now.history }
    {
        if let Some(mut content) = self.content.try_lock() {
            *content = Some(BoardCopy::new(board, known));
        }
    }
}
