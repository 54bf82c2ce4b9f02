use crate::boxed::Boxed;
use ck_journal::OperationKind;
use ck_objects::{KeyState, Record, Template};
use ck_types::{Hash, Pin, Sequence, UserType};

/// What an answered call changes of sessions, objects and operations. `session` is a handle;
/// objects and keys are named here by their numbers.
#[derive(Drop)]
pub enum Change {
    Nothing,
    /// A wrong try of this user's PIN.
    WrongTry {
        user: UserType,
    },
    InitToken {
        pin: Pin,
    },
    InitPin {
        pin: Pin,
    },
    SetPin {
        owner: UserType,
        pin: Pin,
    },
    /// The new session's handle isn't here: ck_sessions counts on by one, as the reply did.
    OpenSession {
        flags: u64,
    },
    CloseSession {
        session: u64,
    },
    CloseAllSessions,
    LogIn {
        user: UserType,
    },
    LogOut,
    /// A creation, or a copy, in this session. The object's number isn't here: ck_store counts on
    /// by one, as the handle in the reply did.
    CreateObject {
        session: u64,
        attributes: Boxed<Record>,
    },
    /// New values of attributes of the object of this number.
    SetAttributes {
        number: u64,
        values: Template,
    },
    /// A new state of the key of this number.
    SetKeyState {
        number: u64,
        state: KeyState,
    },
    DestroyObject {
        number: u64,
    },
    /// The session's search starts or ends.
    SetSearch {
        session: u64,
        /// The numbers of the objects that a new search found; `None` ends the search.
        found: Option<Sequence<u64>>,
    },
    AdvanceSearch {
        session: u64,
        /// The number of the object that the search returned last; 0 where it has returned none.
        number: u64,
    },
    StartDigest {
        session: u64,
        hash: Hash,
    },
    /// A signing or a verification.
    StartHmac {
        kind: OperationKind,
        session: u64,
        hash: Hash,
        /// The number of the key.
        key: u64,
        /// How many bytes a signature has.
        len: u64,
    },
    /// The bytes of the call are one more piece. They aren't here: `apply` reads them off the call,
    /// so that they aren't copied.
    AddPiece {
        kind: OperationKind,
        session: u64,
    },
    /// A reply that may end the session's operation of the kind. Replies that have only a length
    /// are changes of this form too, so that one definition says the change of all such calls.
    FinishOperation {
        kind: OperationKind,
        session: u64,
        /// Whether it ends, where one is active.
        ends: bool,
    },
    /// The end of the session's operations of the kinds that the flags name.
    CancelOperations {
        session: u64,
        flags: u64,
    },
}
