//! What the exports for C stand on, in plain Rust: a token that keeps the reply to its last call
//! (`Module`), a call with a message and the work on it (`MessageCall`), calls of the flat lists
//! that C gives, and what C reads of the body of a reply. No type here has a pointer of C.
#![tactic(auto)]

mod bodies;
mod copies;
mod message_calls;
mod modules;
mod outcomes;
mod queries;
mod templates;

pub use bodies::{
    QueryAnswer, SessionInfo, TokenInfo, answer_in, bytes_in, handle_in, handles_in, length_in,
    mechanisms_in, session_in, token_in, value_in,
};
pub use copies::copy_out;
pub use message_calls::MessageCall;
pub use modules::Module;
pub use outcomes::Outcome;
pub use queries::{Query, queries_of, room_of};
pub use templates::{TypeAndLength, template_of};
