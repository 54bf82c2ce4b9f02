//! The calls of a PKCS #11 token, their replies, the journal of both, and the definitions of what
//! each call answers, read off the journal.
#![tactic(auto)]

mod bases;
mod boards;
mod call_constructors;
mod calls;
mod cuts;
mod entry_lists;
mod journals;
pub mod laws;
mod operations;
mod replies;
mod session_flags;
mod tokens;
mod views;
mod works;

pub use bases::{Base, KeptObject};
pub use boards::{LoginStatus, TokenBoard, session_state};
pub use calls::{AttributeQuery, Call, Entry, MOST_CALLERS};
pub use cuts::{base_law, cut_law};
pub use entry_lists::Entries;
pub use journals::Journal;
pub use operations::{OperationKind, is_too_long};
pub use replies::{Answer, Body, Reply};
pub use session_flags::{READ_WRITE, RW_SESSION, SERIAL_SESSION, is_read_write};
pub use tokens::JournaledToken;
pub use views::{View, number_of_handle};
pub use works::Work;
