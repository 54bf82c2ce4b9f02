//! The token behind the C interface of PKCS #11: a static library whose exports make a token in
//! memory that C gives, make its calls, and tell the replies to them. `module/token.h` declares
//! them for C, and says what C owes.
//!
//! An export that makes a call gives a number: 0 where the call was answered (`ospreyrack_code`
//! then reads its return code), 1 where there is no call, as in an empty or a bad line, and 2 where
//! there was no memory, so that neither the token nor its reply has changed. A call that brings a
//! message is given first, with a copy of it, and `ospreyrack_call` makes it.
#![tactic(auto)]

mod line_calls;
mod lives;
mod message_exports;
mod object_calls;
mod operation_calls;
mod places;
mod reply_readers;
mod search_calls;
mod session_calls;
