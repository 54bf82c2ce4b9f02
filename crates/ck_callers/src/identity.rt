use crate::histories::{HistoryId, NewHistory};
use crate::ledgers::NewLedgers;
use std::marker::Brand;

/// A type that stands for one shared token: its history, how many callers it has, and the ledger of
/// each caller's calls.
pub trait TokenId: HistoryId {
    ghost use Rattle.std.specs.Prelude.{ℕ};

    ghost ledger: { ℕ → ℕ };

    ghost callers: { ℕ };
}

// The proof of each call that passes Brand says what it stands for, so these values aren't used.
impl TokenId for Brand {
    ghost ledger = { λ caller. 0 };

    ghost callers = { 1 };
}

/// A history without entries and ledgers without calls. `SharedToken::open` and
/// `SharedToken::adopt` of ck_shared take them, and a type then stands for both.
pub struct NewIdentity {
    pub history: NewHistory,
    pub ledgers: NewLedgers,
}

impl NewIdentity {
    ghost use Rattle.std.specs.Prelude.{◌≡◌, []};
    ghost use Rattle.ck_callers.specs.Rules.{head_of};

    /// A new identity. No clause says which names its book and its ledgers get, so a type can be
    /// chosen that stands for them.
    pub fn new() -> NewIdentity
        ensures entries { result.history.seen.log ≡ [] }
        ensures head { result.history.head ≡ head_of result.history.seen.book }
    {
        NewIdentity {
            history: NewHistory::new(),
            ledgers: NewLedgers::new(),
        }
    }
}
