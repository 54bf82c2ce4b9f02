//! A token that threads share: its calls are made under one lock. Without the lock callers read its
//! state off a copy, the board.
#![tactic(auto)]

mod gates;
mod locked;
mod runtimes;
mod shared;
mod sharing;

pub use ck_callers::{
    Answered, Ask, Caller, Gate, NewIdentity, News, Script, Status, Step, TokenId, run_scripts,
    run_steps,
};
pub use locked::Locked;
pub use runtimes::Runtime;
pub use shared::{Ends, SharedToken, TakenMessage};
pub use sharing::{CallerWork, share};
