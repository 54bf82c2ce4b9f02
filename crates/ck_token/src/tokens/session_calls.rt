ghost use Rattle.std.specs.Prelude.{◌≡◌};

use super::Token;
use crate::decisions::{Decision, Refused};
use ck_journal::{Body, OperationKind, READ_WRITE, SERIAL_SESSION, is_read_write};
use ck_parts::Change;
use ck_types::{Rv, RvError, Sequence, TokenFlags, UserType, error_if, mechanism_types};
use std::alloc::Global;

/// Opening and closing sessions, cancelling their operations, and what is read of them and of the
/// token (PKCS #11 Base 3.0, Session management functions; Slot and token management functions).
impl Token {
    ghost use Rattle.ck_journal.specs.Answers.{allowed_reply};
    ghost use Rattle.ck_journal.specs.declared.calls.Call.TheVariants as call;
    ghost use Rattle.ck_token.specs.Decisions.{IsDecision, reply_of};
    ghost use Rattle.ck_parts.specs.declared.changes.Change.TheVariants as change;

    /// C_OpenSession. Checks: CKR_TOKEN_NOT_RECOGNIZED (e1), CKR_SESSION_PARALLEL_NOT_SUPPORTED
    /// (b4), CKR_ARGUMENTS_BAD (7), CKR_SESSION_READ_WRITE_SO_EXISTS (b8), CKR_SESSION_COUNT (b1),
    /// CKR_DEVICE_MEMORY (31).
    pub(super) fn open_session(&self, flags: u64) -> Result<Decision, Refused>
        ensures { IsDecision self.now.limits self.now.history (call.OpenSession flags) result }
    {
        error_if(!self.is_initialized(), RvError::TokenNotRecognized)?;
        error_if(
            flags & SERIAL_SESSION == 0,
            RvError::SessionParallelNotSupported,
        )?;
        // CKF_SERIAL_SESSION and CKF_RW_SESSION are the only flags.
        error_if(flags & READ_WRITE != flags, RvError::ArgumentsBad)?;
        error_if(
            !is_read_write(flags) && self.logged_in() == Some(UserType::So),
            RvError::SessionReadWriteSoExists,
        )?;
        error_if(
            self.limits.sessions() <= self.session_count(),
            RvError::SessionCount,
        )?;
        let openings = self.openings();
        error_if(self.limits.openings() <= openings, RvError::DeviceMemory)?;
        Ok(Decision {
            rv: Rv::Ok,
            body: Body::Handle(openings + 1),
            change: Change::OpenSession { flags },
        })
    }

    /// C_CloseSession. Check: CKR_SESSION_HANDLE_INVALID (b3).
    pub(super) fn close_session(&self, session: u64) -> Result<Decision, Refused>
        ensures { IsDecision self.now.limits self.now.history (call.CloseSession session) result }
    {
        self.session(session)?;
        Ok(Decision::of_change(Change::CloseSession { session }))
    }

    /// C_GetSessionInfo. Check: CKR_SESSION_HANDLE_INVALID (b3).
    pub(super) fn get_session_info(&self, session: u64) -> Result<Decision, Refused>
        ensures { IsDecision self.now.limits self.now.history (call.GetSessionInfo session) result }
    {
        let row = self.session(session)?;
        Ok(Decision::of_body(Body::Session {
            state: self.state_of(row),
            flags: row.flags(),
        }))
    }

    /// C_GetTokenInfo, which is never refused.
    pub(super) fn get_token_info(&self) -> Decision
        ensures reply { reply_of result
            ≡ allowed_reply self.now.limits self.now.history call.GetTokenInfo }
        ensures change { result.change ≡ change.Nothing }
    {
        let user = self.credential(UserType::User);
        let so = self.credential(UserType::So);
        Decision::of_body(Body::Token {
            flags: TokenFlags::of(
                self.is_initialized(),
                user.pin.is_some(),
                user.tries,
                so.tries,
            ),
            limit: self.limits.sessions(),
            sessions: self.session_count(),
            rw_sessions: self.read_write_count(),
        })
    }

    /// C_SessionCancel. Checks: CKR_SESSION_HANDLE_INVALID (b3), CKR_ARGUMENTS_BAD (7).
    pub(super) fn session_cancel(&self, session: u64, flags: u64) -> Result<Decision, Refused>
        ensures { IsDecision self.now.limits self.now.history
            (call.SessionCancel session flags) result }
    {
        self.session(session)?;
        let known = OperationKind::Digest.flag()
            | OperationKind::Sign.flag()
            | OperationKind::Verify.flag();
        error_if(flags & known != flags, RvError::ArgumentsBad)?;
        Ok(Decision::of_change(Change::CancelOperations { session, flags }))
    }

    /// C_GetMechanismList, which is never refused.
    pub(super) fn get_mechanism_list(&self, alloc: Global) -> Result<Decision, Refused>
        ensures { IsDecision self.now.limits self.now.history call.GetMechanismList result }
    {
        let types = Vec::from_slice(alloc, &mechanism_types())?;
        Ok(Decision::of_body(Body::Mechanisms(Sequence::from_vec(types))))
    }
}
