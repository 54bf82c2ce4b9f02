ghost use Rattle.std.specs.Prelude.{◌≡◌};
ghost use Rattle.ck_journal.specs.Bodies.{body_handle, body_handles, body_bytes, body_length};
ghost use Rattle.ck_journal.specs.Bodies.{body_attributes, result_of};

use ck_objects::AttributeValue;
use ck_types::{Bytes, Rv, RvError, Sequence, SessionState, TokenFlags};

/// The answer to one query of an attribute.
#[derive(Clone, Drop)]
pub enum Answer {
    Value(AttributeValue),
    /// The value's length in bytes.
    Length(u64),
    /// The value may not be revealed, the object doesn't have the attribute, or the room is too
    /// small (CK_UNAVAILABLE_INFORMATION).
    Unavailable,
}

/// What a reply has besides its return code.
#[derive(Clone, Drop)]
pub enum Body {
    Empty,
    /// The handle of a new session or a new object.
    Handle(u64),
    /// A session's state, and the flags that it was opened with (CK_SESSION_INFO).
    Session {
        state: SessionState,
        flags: u64,
    },
    /// CK_TOKEN_INFO: the token's flags, how many sessions may be open at once (ulMaxSessionCount),
    /// and how many sessions (ulSessionCount) and read/write sessions (ulRwSessionCount) are open.
    Token {
        flags: TokenFlags,
        limit: u64,
        sessions: u64,
        rw_sessions: u64,
    },
    /// The types of all mechanisms of the token, in ascending order.
    Mechanisms(Sequence<u64>),
    /// One answer for each query, in their order.
    Attributes(Sequence<Answer>),
    /// The handles of the objects that a search returns, in the order of their creations.
    Handles(Sequence<u64>),
    /// The length in bytes of the digest or the signature, where the room for it is too small or
    /// only its length was asked for.
    Length(u64),
    /// A digest or a signature.
    Bytes(Bytes),
}

/// The reply to a call.
#[derive(Drop)]
pub struct Reply {
    pub rv: Rv,
    pub body: Body,
}

impl Reply {
    /// The body where the call was answered CKR_OK, else the error, so that `?` hands it on. The
    /// body of a reply with an error is dropped.
    pub fn ok(self) -> Result<Body, RvError>
        ensures { result ≡ result_of self }
    {
        match self.rv {
            Rv::Ok => Ok(self.body),
            Rv::Error(error) => Err(error),
        }
    }
}

impl Body {
    /// The handle of a new session or a new object, if the body is one.
    pub fn handle(self) -> Option<u64>
        ensures { result ≡ body_handle self }
    {
        match self {
            Body::Handle(handle) => Some(handle),
            _ => None,
        }
    }

    /// The handles that a search returns, if the body has them.
    pub fn handles(self) -> Option<Sequence<u64>>
        ensures { result ≡ body_handles self }
    {
        match self {
            Body::Handles(handles) => Some(handles),
            _ => None,
        }
    }

    /// A digest or a signature, if the body is one.
    pub fn bytes(self) -> Option<Bytes>
        ensures { result ≡ body_bytes self }
    {
        match self {
            Body::Bytes(bytes) => Some(bytes),
            _ => None,
        }
    }

    /// The length in bytes of a digest or a signature, if the body is one.
    pub fn length(self) -> Option<u64>
        ensures { result ≡ body_length self }
    {
        match self {
            Body::Length(length) => Some(length),
            _ => None,
        }
    }

    /// The answers to queries of attributes, if the body has them.
    pub fn attributes(self) -> Option<Sequence<Answer>>
        ensures { result ≡ body_attributes self }
    {
        match self {
            Body::Attributes(answers) => Some(answers),
            _ => None,
        }
    }
}
