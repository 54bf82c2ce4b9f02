//! The callers of a token that threads share: one history for all of them, of which each knows a
//! front (a beginning); the books, which count each caller's answered calls; the board, a copy of
//! the state that callers read without the lock; and runs of callers, each in a thread of its own,
//! through a gate (what answers their calls).
//!
//! Only ck_shared uses these, to open a token and for what lies under its lock: `Front`, `Head`,
//! `KnownHistory`, `CallBooks`, `BoardSlot`, `BoardCopy`, `CallerCount`, `Opened` and `Account`,
//! and of `Caller` the methods `account`, `known`, `follow` and `show_settled`. The types that they
//! name are public with them: `HistoryId`, `NewHistory`, `CallerLedger` and `NewLedgers`.
#![tactic(auto)]

mod asks;
mod boards;
mod callers;
mod counts;
mod gates;
mod histories;
mod identity;
mod known_histories;
mod ledgers;
mod next_steps;
mod openings;
mod rules;
mod runs;
mod scripts;
mod slots;
mod steps;

pub use asks::{Ask, Status};
pub use boards::BoardCopy;
pub use callers::{Caller, News};
pub use counts::CallerCount;
pub use gates::Gate;
pub use histories::{Front, Head, HistoryId, NewHistory};
pub use identity::{NewIdentity, TokenId};
pub use known_histories::KnownHistory;
pub use ledgers::{Account, CallBooks, CallerLedger, NewLedgers};
pub use openings::Opened;
pub use runs::{run_scripts, run_steps};
pub use scripts::Script;
pub use slots::BoardSlot;
pub use steps::{Answered, Step};
