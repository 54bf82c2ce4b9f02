use crate::operations::OperationKind;
use crate::replies::Reply;
use ck_objects::Template;
use ck_types::{Bytes, Mechanism, Pin, Sequence};
use std::alloc::AllocError;

/// What C_GetAttributeValue is asked of one attribute: its type, and the room for its value in
/// bytes. Room `None`, like a NULL pValue, asks only for the value's length (PKCS #11 Base 3.0,
/// Object management functions).
#[derive(Clone, Copy, Debug, PartialEq, Eq)]
pub struct AttributeQuery {
    pub kind: u64,
    pub room: Option<u64>,
}

/// A call of the application with its arguments, named after the standard's function (PKCS #11 Base
/// 3.0, Functions). Only SetKeyState is no function of the standard. `session`, `object` and `key`
/// are handles. docs/rules.md has when each call is refused, and by which return code.
#[derive(Drop)]
pub enum Call {
    InitToken {
        /// The security officer's PIN: the first initialization sets it.
        pin: Pin,
    },
    InitPin {
        session: u64,
        /// The normal user's new PIN.
        pin: Pin,
    },
    /// Changes the security officer's PIN in a session of state CKS_RW_SO_FUNCTIONS, else the
    /// normal user's.
    SetPin {
        session: u64,
        old: Pin,
        new: Pin,
    },
    OpenSession {
        /// CKF_SERIAL_SESSION (4), and for a read/write session also CKF_RW_SESSION (2).
        flags: u64,
    },
    CloseSession {
        session: u64,
    },
    CloseAllSessions,
    Login {
        session: u64,
        /// A user's number (CK_USER_TYPE): CKU_SO is 0, CKU_USER is 1.
        user: u64,
        pin: Pin,
    },
    Logout {
        session: u64,
    },
    GetSessionInfo {
        session: u64,
    },
    GetTokenInfo,
    GetMechanismList,
    /// Ends operations of the session.
    SessionCancel {
        session: u64,
        /// The kinds of operations that end: CKF_DIGEST (0x400), CKF_SIGN (0x800), CKF_VERIFY
        /// (0x2000), or some of these together (`OperationKind::flag`).
        flags: u64,
    },
    CreateObject {
        session: u64,
        template: Template,
    },
    GenerateKey {
        session: u64,
        mechanism: Mechanism,
        template: Template,
        /// The bytes of the key, which come from the caller. Where the template's CKA_VALUE_LEN
        /// isn't how many they are, the call is refused.
        random: Bytes,
    },
    CopyObject {
        session: u64,
        object: u64,
        template: Template,
    },
    GetAttributeValue {
        session: u64,
        object: u64,
        queries: Sequence<AttributeQuery>,
    },
    SetAttributeValue {
        session: u64,
        object: u64,
        template: Template,
    },
    /// Takes a key to another state (NIST SP 800-57 Part 1 Revision 5, Key states and transitions),
    /// which no function of the standard does.
    SetKeyState {
        session: u64,
        key: u64,
        /// The number of the state, as `KeyState` has it.
        state: u64,
    },
    DestroyObject {
        session: u64,
        object: u64,
    },
    FindObjectsInit {
        session: u64,
        template: Template,
    },
    FindObjects {
        session: u64,
        /// The most handles that the reply may have (ulMaxObjectCount).
        max: u64,
    },
    FindObjectsFinal {
        session: u64,
    },
    DigestInit {
        session: u64,
        mechanism: Mechanism,
    },
    Digest {
        session: u64,
        bytes: Bytes,
        /// The room for the digest in bytes, or `None`, like a NULL pDigest, to ask for its length.
        room: Option<u64>,
    },
    DigestUpdate {
        session: u64,
        bytes: Bytes,
    },
    DigestFinal {
        session: u64,
        /// As that of `Digest`.
        room: Option<u64>,
    },
    SignInit {
        session: u64,
        mechanism: Mechanism,
        key: u64,
    },
    Sign {
        session: u64,
        bytes: Bytes,
        /// The room for the signature in bytes, or `None`, like a NULL pSignature, to ask for its
        /// length.
        room: Option<u64>,
    },
    SignUpdate {
        session: u64,
        bytes: Bytes,
    },
    SignFinal {
        session: u64,
        /// As that of `Sign`.
        room: Option<u64>,
    },
    VerifyInit {
        session: u64,
        mechanism: Mechanism,
        key: u64,
    },
    Verify {
        session: u64,
        bytes: Bytes,
        signature: Bytes,
    },
    VerifyUpdate {
        session: u64,
        bytes: Bytes,
    },
    VerifyFinal {
        session: u64,
        signature: Bytes,
    },
}

/// A copy of a call: of each variant the fields that are copied, and behind `;` those that are
/// cloned, since they own memory.
macro_rules! copy_of {
    ($call:expr, $($name:ident { $($copied:ident),* $(; $($cloned:ident),+)? })+) => {
        match $call {
            $(Call::$name { $($copied,)* $($($cloned,)+)? } => Call::$name {
                $($copied: *$copied,)*
                $($($cloned: $cloned.clone()?,)+)?
            },)+
        }
    };
}

/// A copy of a call that has no mechanism, template, queries, message or signature takes no memory.
// Not derived: a derived copy clones the numbers too, and its proof has about 250 goals.
impl Clone for Call {
    ghost use Rattle.std.specs.Prelude.{◌≡◌, false};
    ghost use Rattle.ck_journal.specs.Calls.{brings_list};

    ghost is_clone = { λ call copy. copy ≡ call };

    ghost is_infallible = { λ call. brings_list call ≡ false };

    fn clone(&self) -> Result<Call, AllocError> {
        let copy = copy_of! {
            self,
            InitToken { pin }
            InitPin { session, pin }
            SetPin { session, old, new }
            OpenSession { flags }
            CloseSession { session }
            CloseAllSessions {}
            Login { session, user, pin }
            Logout { session }
            GetSessionInfo { session }
            GetTokenInfo {}
            GetMechanismList {}
            SessionCancel { session, flags }
            CreateObject { session; template }
            GenerateKey { session; mechanism, template, random }
            CopyObject { session, object; template }
            GetAttributeValue { session, object; queries }
            SetAttributeValue { session, object; template }
            SetKeyState { session, key, state }
            DestroyObject { session, object }
            FindObjectsInit { session; template }
            FindObjects { session, max }
            FindObjectsFinal { session }
            DigestInit { session; mechanism }
            Digest { session, room; bytes }
            DigestUpdate { session; bytes }
            DigestFinal { session, room }
            SignInit { session, key; mechanism }
            Sign { session, room; bytes }
            SignUpdate { session; bytes }
            SignFinal { session, room }
            VerifyInit { session, key; mechanism }
            Verify { session; bytes, signature }
            VerifyUpdate { session; bytes }
            VerifyFinal { session; signature }
        };
        Ok(copy)
    }
}

/// The fewest bytes of a long message.
const LONG_MESSAGE: usize = 4096;

impl Call {
    ghost use Rattle.std.specs.Prelude.{◌≡◌, not, Some, IsTrue};
    ghost use Rattle.ck_journal.specs.Boards.{BoardStays};
    ghost use Rattle.ck_journal.specs.Effects.{effects_of};
    ghost use Rattle.ck_journal.specs.Works.{operation_of, taken_bytes, brings_long_message};

    /// The kind and the session of the operation that the call starts, goes on with or finishes.
    pub fn operation(&self) -> Option<(OperationKind, u64)>
        ensures { result ≡ operation_of self.now }
    {
        match self {
            Call::DigestInit { session, .. }
            | Call::Digest { session, .. }
            | Call::DigestUpdate { session, .. }
            | Call::DigestFinal { session, .. } => Some((OperationKind::Digest, *session)),
            Call::SignInit { session, .. }
            | Call::Sign { session, .. }
            | Call::SignUpdate { session, .. }
            | Call::SignFinal { session, .. } => Some((OperationKind::Sign, *session)),
            Call::VerifyInit { session, .. }
            | Call::Verify { session, .. }
            | Call::VerifyUpdate { session, .. }
            | Call::VerifyFinal { session, .. } => Some((OperationKind::Verify, *session)),
            _ => None,
        }
    }

    /// The bytes of a message that the call brings: a single-part message, or one piece of a
    /// multiple-part one. They are empty for every other call.
    pub fn taken_bytes(&self) -> &[u8]
        ensures { result.now ≡ taken_bytes self.now }
    {
        match self {
            Call::Digest { bytes, .. }
            | Call::DigestUpdate { bytes, .. }
            | Call::Sign { bytes, .. }
            | Call::SignUpdate { bytes, .. }
            | Call::Verify { bytes, .. }
            | Call::VerifyUpdate { bytes, .. } => bytes.as_slice(),
            _ => &[],
        }
    }

    /// Whether the call brings a long message, of 4,096 bytes or more: to take in a shorter one is
    /// as fast as to begin the work on it and to take a lock again.
    pub fn brings_long_message(&self) -> bool
        ensures { result ≡ brings_long_message self.now }
    {
        self.taken_bytes().len() >= LONG_MESSAGE
    }

    /// Whether the call, whatever its reply, changes nothing of what a `TokenBoard` has of a token:
    /// the open sessions with their flags, the login, whether there are PINs, and the wrong tries.
    pub fn keeps_board(&self) -> bool
        ensures kind { result ≡ not (effects_of (Some self.now)).sessions }
        ensures stays { IsTrue result → BoardStays self.now }
    {
        !self.is_about_sessions()
    }

    /// Whether the call, where it is answered CKR_OK, may change sessions, the login, PINs or wrong
    /// tries. No other call counts a wrong try where it is refused.
    fn is_about_sessions(&self) -> bool
        ensures { result ≡ (effects_of (Some self.now)).sessions }
    {
        matches!(
            self,
            Call::InitToken { .. }
                | Call::InitPin { .. }
                | Call::SetPin { .. }
                | Call::OpenSession { .. }
                | Call::CloseSession { .. }
                | Call::CloseAllSessions
                | Call::Login { .. }
                | Call::Logout { .. }
        )
    }
}

/// The most callers that may share a token. A shared token numbers its callers from 1.
pub const MOST_CALLERS: u32 = 8;

/// An answered call: the caller's number, the call and the reply. Callers have numbers of the
/// application's choice, and no reply depends on them.
#[derive(Drop)]
pub struct Entry {
    pub caller: u32,
    pub call: Call,
    pub reply: Reply,
}
