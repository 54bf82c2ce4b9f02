//! The parts of a token, its sessions, its objects and its operations, and what a call changes of
//! them, so that they stay what the journal says. Only ck_token uses this crate, which stands apart
//! so that it isn't proved again where a decision changes.
#![tactic(auto)]

mod additions;
mod boxed;
mod changes;
mod parts;

pub use boxed::Boxed;
pub use changes::Change;
pub use parts::Parts;
