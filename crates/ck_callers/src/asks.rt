ghost use Rattle.std.specs.Prelude.{◌≡◌};
ghost use Rattle.ck_types.specs.TokenLimits.{Ranges};
ghost use Rattle.ck_journal.specs.Answers.{answer};
ghost use Rattle.ck_journal.specs.Boards.{board_of};
ghost use Rattle.ck_journal.specs.Histories.{History};
ghost use Rattle.ck_callers.specs.Asks.{call_of_ask, reply_of_status};

use ck_journal::{Reply, TokenBoard};
use ck_types::{MECHANISM_COUNT, mechanism_types};

/// A question about the state of a token, which is answered without a call and has no entry.
#[derive(Clone, Copy, Debug, PartialEq, Eq)]
pub enum Ask {
    /// What C_GetSessionInfo gives of the session of this handle.
    Session(u64),
    /// What C_GetTokenInfo gives.
    Token,
    /// What C_GetMechanismList gives.
    Mechanisms,
}

/// What is answered to a question: the reply that the call would get, or the types of all
/// mechanisms (CK_MECHANISM_TYPE) in ascending order. These aren't a reply, whose list would take
/// memory.
#[derive(Drop)]
pub enum Status {
    Reply(Reply),
    Mechanisms([u64; MECHANISM_COUNT]),
}

/// What a board answers.
pub(crate) fn status_on(board: &TokenBoard, ask: Ask) -> Status
    ensures { (limits : Ranges) (h : History) → board.now ≡ board_of limits h
        → reply_of_status result ≡ answer limits h (call_of_ask ask) }
{
    match ask {
        Ask::Session(session) => Status::Reply(board.session_info(session)),
        Ask::Token => Status::Reply(board.token_info()),
        Ask::Mechanisms => Status::Mechanisms(mechanism_types()),
    }
}
