//! One token: it answers each call as the journal of the calls before it says, and then enters the
//! call in the journal.
//!
//! A program opens a session, logs in, makes a key and signs (a test of ck_run runs this). The 1
//! says who calls: a number of the program's choice, which stands in the journal and changes no
//! reply:
//!
//! ```
//! use anyhow::Context;
//! use ck_token::{Attribute, Bytes, Call, Mechanism, Pin, READ_WRITE, SHA256_HMAC, Template, Token,
//!     UserType};
//! use std::alloc::Global;
//!
//! fn sign(alloc: Global, token: &mut Token, message: Bytes) -> anyhow::Result<Option<Bytes>> {
//!     let (so, user) = (Pin::of(b"1234"), Pin::of(b"5678"));
//!     token.try_call(alloc, 1, Call::InitToken { pin: so })?;
//!     let opened = token.try_call(alloc, 1, Call::OpenSession { flags: READ_WRITE })?;
//!     let session = opened.handle().context("no session")?;
//!     token.try_call(alloc, 1, Call::login(session, UserType::So, so))?;
//!     token.try_call(alloc, 1, Call::InitPin { session, pin: user })?;
//!     token.try_call(alloc, 1, Call::Logout { session })?;
//!     token.try_call(alloc, 1, Call::login(session, UserType::User, user))?;
//!     let template = Template::secret_key(alloc, b"Jefe")?.flag(Attribute::Sensitive, true)?;
//!     let created = token.try_call(alloc, 1, Call::CreateObject { session, template })?;
//!     let key = created.handle().context("no key")?;
//!     let mechanism = Mechanism::new(alloc, SHA256_HMAC);
//!     token.try_call(alloc, 1, Call::sign_init(session, mechanism, key))?;
//!     let signed = token.try_call(alloc, 1, Call::sign(session, message, 32))?;
//!     Ok(signed.bytes())
//! }
//! ```
#![tactic(auto)]

mod cuts;
mod decisions;
mod journaled;
mod queries;
mod runs;
mod tokens;
mod try_calls;

pub use cuts::Uncut;
pub use runs::{Stopped, run};
pub use tokens::Token;
pub use try_calls::CallError;

// What users of a token need of the crates below.
pub use ck_journal::{
    Answer, AttributeQuery, Base, Body, Call, Entries, Entry, Journal, JournaledToken, KeptObject,
    MOST_CALLERS, OperationKind, READ_WRITE, RW_SESSION, Reply, SERIAL_SESSION, TokenBoard, Work,
};
pub use ck_objects::{
    Attribute, AttributeValue, Class, DATA, Field, GENERIC_SECRET, Item, KeyState, Placement,
    Record, SECRET_KEY, Template,
};
pub use ck_types::{
    Bytes, GENERIC_SECRET_KEY_GEN, Hash, Limits, MOST_SESSIONS, Mechanism, NoMemory, Pin, Rv,
    RvError, SHA224, SHA224_HMAC, SHA224_HMAC_GENERAL, SHA256, SHA256_HMAC, SHA256_HMAC_GENERAL,
    SHA384, SHA384_HMAC, SHA384_HMAC_GENERAL, SHA512, SHA512_HMAC, SHA512_HMAC_GENERAL, Sequence,
    SessionState, TokenFlags, UserType, digest_of, mac_of, mechanism_types,
};
