ghost use Rattle.std.specs.Prelude.{◌≡◌};

use super::Token;
use ck_journal::{OperationKind, View, session_state};
use ck_objects::{Class, Record};
use ck_operations::Operation;
use ck_sessions::{Credential, Session};
use ck_types::{RvError, SessionState, UserType};

/// Readings of the token's parts. Their contracts say what they are in the history.
impl Token {
    ghost use Rattle.std.specs.Prelude.{◌<◌, ◌^◌, ℕ, true, false, not, Some, None, IfOk};
    ghost use Rattle.std.specs.Prelude.{IfErr, length};
    ghost use Rattle.std.specs.List.{list_any};
    ghost use Rattle.ck_types.specs.declared.errors.RvError.TheVariants as rv_error;
    ghost use Rattle.ck_journal.specs.Objects.{creations, view_of, is_user_in, object_named};
    ghost use Rattle.ck_journal.specs.Objects.{attributes_named, key_named};
    ghost use Rattle.ck_journal.specs.Pins.{is_initialized, present_pin, tries};
    ghost use Rattle.ck_journal.specs.Sessions.{openings, is_open, open_sessions, is_read_write};
    ghost use Rattle.ck_journal.specs.Sessions.{rw_sessions, login, user_logins, state_of};
    ghost use Rattle.ck_journal.specs.Operations.{is_active};
    ghost use Rattle.ck_operations.specs.Agreement.{OperationAgrees, active_operation};
    ghost use Rattle.ck_sessions.specs.Agreement.{session_row};

    /// Whether the token has been initialized, and so has a PIN of the security officer.
    pub(super) fn is_initialized(&self) -> bool
        ensures { result ≡ is_initialized self.now.history }
    {
        self.parts.sessions.is_initialized()
    }

    /// How many sessions are open.
    pub(super) fn session_count(&self) -> u64
        ensures { result ≡ length (open_sessions self.now.history) }
    {
        self.parts.sessions.count()
    }

    /// How many read/write sessions are open.
    pub(super) fn read_write_count(&self) -> u64
        ensures { result ≡ length (rw_sessions self.now.history) }
    {
        self.parts.sessions.read_write_count()
    }

    /// Whether a read-only session is open.
    pub(super) fn has_read_only(&self) -> bool
        ensures { result ≡ list_any (λ s. not (is_read_write self.now.history s))
            (open_sessions self.now.history) }
    {
        self.parts.sessions.has_read_only()
    }

    /// How many sessions have been opened.
    pub(super) fn openings(&self) -> u64
        ensures { result ≡ openings self.now.history }
    {
        self.parts.sessions.openings()
    }

    /// The open session that has the handle, else CKR_SESSION_HANDLE_INVALID (b3).
    // Inlined, since nearly every call begins with it.
    #[inline(always)]
    pub(super) fn session(&self, session: u64) -> Result<&Session, RvError>
        ensures open { IfOk result (λ row. is_open self.now.history session ≡ true) }
        ensures row { IfOk result (λ row. row.now ≡ session_row self.now.history session) }
        ensures none { IfErr result (λ code. code ≡ rv_error.SessionHandleInvalid) }
        ensures closed { IfErr result (λ code. is_open self.now.history session ≡ false) }
    {
        self.parts
            .sessions
            .get(session)
            .ok_or(RvError::SessionHandleInvalid)
    }

    /// The state of an open session.
    pub(super) fn state_of(&self, row: &Session) -> SessionState
        ensures { (s : ℕ) → row.now ≡ session_row self.now.history s
            → result ≡ state_of self.now.history s }
    {
        session_state(self.logged_in(), row.is_read_write())
    }

    /// Who is logged in.
    pub(super) fn logged_in(&self) -> Option<UserType>
        ensures { result ≡ login self.now.history }
    {
        self.parts.sessions.login()
    }

    /// Whether the normal user is logged in.
    pub(super) fn is_user_in(&self) -> bool
        ensures { result ≡ is_user_in self.now.history }
    {
        self.logged_in() == Some(UserType::User)
    }

    /// How many times the normal user has logged in.
    pub(super) fn user_logins(&self) -> u64
        ensures logins { result ≡ user_logins self.now.history }
        ensures bound { result < 2 ^ 31 }
    {
        self.parts.sessions.logins()
    }

    /// A user's PIN and wrong tries.
    pub(super) fn credential(&self, user: UserType) -> Credential
        ensures pin { result.pin ≡ present_pin user self.now.history }
        ensures tries { result.tries ≡ tries user self.now.history }
    {
        self.parts.sessions.credential(user)
    }

    /// What the handles of objects depend on now.
    pub(super) fn view(&self) -> View
        ensures view { result ≡ view_of self.now.history }
        ensures bound { result.logins < 2 ^ 31 }
    {
        View {
            is_user_in: self.is_user_in(),
            logins: self.user_logins(),
        }
    }

    /// How many objects have been created.
    pub(super) fn creations(&self) -> u64
        ensures { result ≡ creations self.now.history }
    {
        self.parts.objects.creations()
    }

    /// The session's active operation of the kind, else CKR_OPERATION_NOT_INITIALIZED (91).
    pub(super) fn operation(&self, kind: OperationKind, session: u64) -> Result<&Operation, RvError>
        ensures active { IfOk result (λ operation. is_active kind self.now.history session ≡ true) }
        ensures agrees { IfOk result (λ operation.
            OperationAgrees operation.now (active_operation kind self.now.history session)) }
        ensures none { IfErr result (λ code. code ≡ rv_error.OperationNotInitialized) }
        ensures idle { IfErr result (λ code. is_active kind self.now.history session ≡ false) }
    {
        self.parts
            .operations
            .get(kind, session)
            .ok_or(RvError::OperationNotInitialized)
    }

    /// The number and the attributes of the object that the handle names, else
    /// CKR_OBJECT_HANDLE_INVALID (82).
    pub(super) fn object(&self, handle: u64) -> Result<(u64, &Record), RvError>
        ensures number { IfOk result (λ found.
            object_named self.now.history handle ≡ Some found.0) }
        ensures attributes { IfOk result (λ found.
            attributes_named self.now.history handle ≡ Some found.1.now) }
        ensures none { IfErr result (λ code. code ≡ rv_error.ObjectHandleInvalid) }
        ensures unnamed { IfErr result (λ code. attributes_named self.now.history handle ≡ None) }
    {
        self.parts
            .objects
            .get(self.view(), handle)
            .ok_or(RvError::ObjectHandleInvalid)
    }

    /// The number and the attributes of the key that the handle names, else CKR_KEY_HANDLE_INVALID
    /// (60).
    pub(super) fn key(&self, handle: u64) -> Result<(u64, &Record), RvError>
        ensures number { IfOk result (λ found.
            object_named self.now.history handle ≡ Some found.0) }
        ensures attributes { IfOk result (λ found.
            key_named self.now.history handle ≡ Some found.1.now) }
        ensures none { IfErr result (λ code. code ≡ rv_error.KeyHandleInvalid) }
        ensures unnamed { IfErr result (λ code. key_named self.now.history handle ≡ None) }
    {
        match self.parts.objects.get(self.view(), handle) {
            Some((number, attributes)) if attributes.class() == Class::SecretKey => {
                Ok((number, attributes))
            }
            _ => Err(RvError::KeyHandleInvalid),
        }
    }
}
