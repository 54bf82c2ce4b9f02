//! The language of scripts: lines, the calls that they make, and the text of replies.
#![tactic(auto)]

mod arguments;
mod call_names;
mod calls;
mod line_errors;
mod lines;
mod replies;
mod similar_names;
mod splits;

// `Arity`, `CallName` and `NumberError` are public, since a `BadLine` has them.
pub use call_names::{Arity, CallName};
pub use line_errors::{BadLine, LineError, NumberError};
pub use lines::{LONGEST_LINE, Line, cut_line};
pub use replies::{push_line, push_reply, reply_line};
