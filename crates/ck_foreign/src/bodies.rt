ghost use Rattle.std.specs.Prelude.{◌≡◌};
ghost use Rattle.std.specs.Option.{option_copied};
ghost use Rattle.ck_foreign.specs.Bodies.{handle_in, session_in, token_in, mechanisms_in};
ghost use Rattle.ck_journal.specs.Searches.{handles_in};
ghost use Rattle.ck_foreign.specs.Bodies.{answer_at, answer_in, value_in, length_in, bytes_in};

use ck_token::{Answer, Body};

/// A session's state (CK_STATE) and flags, as CK_SESSION_INFO has them.
#[repr(C)]
#[derive(Clone, Copy)]
pub struct SessionInfo {
    pub state: u64,
    pub flags: u64,
}

/// The token's flags, as CK_TOKEN_INFO has them; how many sessions may be open at once; how many
/// are open, and how many of these are read/write sessions.
#[repr(C)]
#[derive(Clone, Copy)]
pub struct TokenInfo {
    pub flags: u64,
    pub limit: u64,
    pub sessions: u64,
    pub rw_sessions: u64,
}

/// What a query of an attribute is answered with, as C numbers it.
#[derive(Clone, Copy)]
enum AnswerKind {
    Unavailable = 0,
    /// The value's length in bytes.
    Length = 1,
    Value = 2,
}

/// The answer to a query: its kind (`AnswerKind`), and the length of the value in bytes where it is
/// known, else 0.
#[repr(C)]
#[derive(Clone, Copy)]
pub struct QueryAnswer {
    pub kind: u64,
    pub length: u64,
}

/// The handle of a new session or object, else 0.
pub fn handle_in(body: &Body) -> u64
    ensures { result ≡ handle_in body.now }
{
    match body {
        Body::Handle(new) => *new,
        _ => 0,
    }
}

/// A session's state and flags; zeros where the reply has none.
pub fn session_in(body: &Body) -> SessionInfo
    ensures { result ≡ session_in body.now }
{
    match body {
        Body::Session { state, flags } => SessionInfo {
            state: state.number(),
            flags: *flags,
        },
        _ => SessionInfo { state: 0, flags: 0 },
    }
}

/// The token's flags and counts; zeros where the reply has none.
pub fn token_in(body: &Body) -> TokenInfo
    ensures { result ≡ token_in body.now }
{
    match body {
        Body::Token {
            flags,
            limit,
            sessions,
            rw_sessions,
        } => TokenInfo {
            flags: flags.number(),
            limit: *limit,
            sessions: *sessions,
            rw_sessions: *rw_sessions,
        },
        _ => TokenInfo {
            flags: 0,
            limit: 0,
            sessions: 0,
            rw_sessions: 0,
        },
    }
}

/// The types of mechanisms that the reply has.
pub fn mechanisms_in(body: &Body) -> &[u64]
    ensures { result.now ≡ mechanisms_in body.now }
{
    match body {
        Body::Mechanisms(types) => types.as_slice(),
        _ => &[],
    }
}

/// The handles of found objects that the reply has.
pub fn handles_in(body: &Body) -> &[u64]
    ensures { result.now ≡ handles_in body.now }
{
    match body {
        Body::Handles(handles) => handles.as_slice(),
        _ => &[],
    }
}

/// The answer to the query of this index, counted from 0; unavailable where there is none.
pub fn answer_in(body: &Body, index: usize) -> QueryAnswer
    ensures { result ≡ answer_in body.now index }
{
    match answer_at(body, index) {
        Some(Answer::Value(value)) => QueryAnswer {
            kind: AnswerKind::Value as u64,
            length: value.as_slice().len() as u64,
        },
        Some(Answer::Length(length)) => QueryAnswer {
            kind: AnswerKind::Length as u64,
            length: *length,
        },
        Some(Answer::Unavailable) | None => QueryAnswer {
            kind: AnswerKind::Unavailable as u64,
            length: 0,
        },
    }
}

/// The answer to the query of this index, counted from 0, where there is one.
fn answer_at(body: &Body, index: usize) -> Option<&Answer>
    ensures { option_copied result ≡ answer_at body.now index }
{
    match body {
        Body::Attributes(answers) => answers.as_slice().get(index),
        _ => None,
    }
}

/// The value that the query of this index is answered; no bytes where it isn't answered one.
pub fn value_in(body: &Body, index: usize) -> &[u8]
    ensures { result.now ≡ value_in body.now index }
{
    match answer_at(body, index) {
        Some(Answer::Value(value)) => value.as_slice(),
        _ => &[],
    }
}

/// The length of the digest or signature that the reply has or tells the length of, else 0.
pub fn length_in(body: &Body) -> u64
    ensures { result ≡ length_in body.now }
{
    match body {
        Body::Length(length) => *length,
        Body::Bytes(bytes) => bytes.as_slice().len() as u64,
        _ => 0,
    }
}

/// The digest or signature that the reply has; no bytes where it has none.
pub fn bytes_in(body: &Body) -> &[u8]
    ensures { result.now ≡ bytes_in body.now }
{
    match body {
        Body::Bytes(bytes) => bytes.as_slice(),
        _ => &[],
    }
}
