ghost use Rattle.std.specs.Prelude.{◌≡◌, ℕ, true, List, length, IfOk, IfSome, MatchOption};
ghost use Rattle.std.specs.Option.{option_copied};
ghost use Rattle.ck_types.specs.Checks.{check_of, error_if};
ghost use Rattle.ck_types.specs.declared.return_codes.Rv.TheVariants as rv;
ghost use Rattle.ck_journal.specs.Answers.{ok, bytes_reply, key_state_error, may_serve, usage_flag};
ghost use Rattle.ck_journal.specs.Answers.{usage_error};
ghost use Rattle.ck_journal.specs.declared.operations.OperationKind.TheVariants as kind;
ghost use Rattle.ck_journal.specs.declared.replies.Body.TheVariants as body;
ghost use Rattle.ck_parts.specs.Changes.{finish_change};
ghost use Rattle.ck_parts.specs.declared.changes.Change.TheVariants as change;
ghost use Rattle.ck_token.specs.declared.decisions.Refused.TheVariants as refused;

use super::Token;
use super::mechanisms::check_no_parameter;
use crate::decisions::{Decision, Refused};
use ck_journal::{Body, OperationKind, is_too_long};
use ck_mac::{RunningTag, Tag};
use ck_objects::{Attribute, KeyState, Record};
use ck_operations::Operation;
use ck_parts::Change;
use ck_types::{Bytes, Mechanism, NoMemory, Rv, RvError, digest_of, error_if, mac_of};
use std::alloc::Global;

/// The change of a reply that may end the session's operation: it ends where `ends` is true, else
/// it stays.
// A function, since the proof of `verify` names what is known after it.
fn finish_change(kind: OperationKind, session: u64, ends: bool) -> Change
    ensures { result ≡ change.FinishOperation kind session ends }
{
    Change::FinishOperation {
        kind,
        session,
        ends,
    }
}

/// The reply that has only a length, where it is asked for (CKR_OK) or where the room is too small
/// (CKR_BUFFER_TOO_SMALL, 150); else `None`. The operation stays.
fn length_decision(
    kind: OperationKind,
    session: u64,
    len: u64,
    room: Option<u64>,
) -> Option<Decision>
    ensures { (bytes : List ℕ) → length bytes ≡ len → MatchOption result
        (bytes_reply room bytes ≡ ok (body.Bytes bytes))
        (λ d. (bytes_reply room bytes ≡ record { rv = d.rv; body = d.body })
        × (d.change ≡ finish_change kind session rv.Ok d.body)) }
{
    let rv = match room {
        None => Rv::Ok,
        Some(room) if room < len => Rv::Error(RvError::BufferTooSmall),
        Some(_) => return None,
    };
    Some(Decision {
        rv,
        body: Body::Length(len),
        change: finish_change(kind, session, false),
    })
}

/// The reply that has a digest or a signature, which ends the session's operation.
fn bytes_decision(
    alloc: Global,
    kind: OperationKind,
    session: u64,
    tag: &Tag,
) -> Result<Decision, NoMemory>
    ensures { IfOk result (λ decision. decision ≡ record {
      rv = rv.Ok;
      body = body.Bytes tag.now;
      change = change.FinishOperation kind session true;
    }) }
{
    let bytes = Bytes::from_slice(alloc, tag.bytes())?;
    Ok(Decision {
        rv: Rv::Ok,
        body: Body::Bytes(bytes),
        change: finish_change(kind, session, true),
    })
}

/// A refusal that ends the session's operation, where one is active.
fn ending_refusal(kind: OperationKind, session: u64, error: RvError) -> Refused
    ensures { result ≡ refused.Error error (change.FinishOperation kind session true) }
{
    Refused::Error {
        error,
        change: finish_change(kind, session, true),
    }
}

/// Whether a key of this state may do what operations of the kind do.
fn may_serve(kind: OperationKind, state: KeyState) -> bool
    ensures { result ≡ may_serve kind state }
{
    match kind {
        OperationKind::Digest => true,
        OperationKind::Sign => state.may_sign(),
        OperationKind::Verify => state.may_verify(),
    }
}

/// CKR_KEY_FUNCTION_NOT_PERMITTED (68) where the key's state forbids operations of the kind.
fn check_key_state(kind: OperationKind, key: &Record) -> Result<(), RvError>
    ensures { result ≡ check_of (key_state_error kind key.now) }
{
    let serves = key.key_state().is_some_and(|state| may_serve(kind, state));
    error_if(!serves, RvError::KeyFunctionNotPermitted)
}

/// The flag that a key needs for operations of the kind. A digest has no key, so nothing asks for
/// its flag.
fn usage_flag(kind: OperationKind) -> Attribute
    ensures { result ≡ usage_flag kind }
{
    match kind {
        OperationKind::Digest | OperationKind::Sign => Attribute::Sign,
        OperationKind::Verify => Attribute::Verify,
    }
}

/// CKR_KEY_FUNCTION_NOT_PERMITTED (68) where the key's flag or its state forbids operations of the
/// kind.
#[tactic(auto, using(ck_types::proofs::CheckLemmas::checks))]
fn check_usage(kind: OperationKind, key: &Record) -> Result<(), RvError>
    ensures { result ≡ check_of (usage_error kind key.now) }
{
    error_if(
        !key.is_set(usage_flag(kind)),
        RvError::KeyFunctionNotPermitted,
    )?;
    check_key_state(kind, key)
}

/// Digests, signatures and their checks: single-part and multiple-part operations (PKCS #11 Base
/// 3.0, Message digesting functions; Signing and MACing functions; Functions for verifying
/// signatures and MACs).
impl Token {
    ghost use Rattle.std.specs.Prelude.{false, Some, None, IfErr, is_some};
    ghost use Rattle.ck_journal.specs.Answers.{operation_error, key_error};
    ghost use Rattle.ck_journal.specs.Answers.{present_key_error, message_error};
    ghost use Rattle.ck_journal.specs.Answers.{final_error, verify_error, verify_final_error};
    ghost use Rattle.ck_journal.specs.Answers.{update_error, hmac_init_error, tag_in};
    ghost use Rattle.ck_journal.specs.Objects.{object_named};
    ghost use Rattle.ck_journal.specs.Operations.{is_active, message_in, is_updated};
    ghost use Rattle.ck_journal.specs.Works.{HoldsWith};
    ghost use Rattle.ck_types.specs.declared.errors.RvError.TheVariants as rv_error;
    ghost use Rattle.ck_journal.specs.declared.calls.Call.TheVariants as call;
    ghost use Rattle.ck_operations.specs.Agreement.{OperationAgrees, active_operation};
    ghost use Rattle.ck_parts.specs.Changes.{end_if_too_long, start_hmac};
    ghost use Rattle.ck_token.specs.Decisions.{IsDecision, IsDecided};

    // ---- starts

    /// CKR_OPERATION_ACTIVE (90) where the session has an active operation of the kind.
    fn check_idle(&self, kind: OperationKind, session: u64) -> Result<(), RvError>
        ensures { result ≡ check_of
            (error_if (is_active kind self.now.history session) rv_error.OperationActive) }
    {
        let is_active = self.operation(kind, session).is_ok();
        error_if(is_active, RvError::OperationActive)
    }

    /// C_DigestInit. Checks: CKR_SESSION_HANDLE_INVALID (b3), CKR_OPERATION_ACTIVE (90),
    /// CKR_MECHANISM_INVALID (70), CKR_MECHANISM_PARAM_INVALID (71).
    pub(super) fn digest_init(
        &self,
        session: u64,
        mechanism: &Mechanism,
    ) -> Result<Decision, Refused>
        ensures { IsDecision self.now.limits self.now.history
            (call.DigestInit session mechanism.now) result }
    {
        self.session(session)?;
        self.check_idle(OperationKind::Digest, session)?;
        let hash = digest_of(mechanism.kind).ok_or(RvError::MechanismInvalid)?;
        check_no_parameter(mechanism)?;
        Ok(Decision::of_change(Change::StartDigest { session, hash }))
    }

    /// The number of the key that the handle names, where operations of the kind may use it.
    /// Checks: CKR_KEY_HANDLE_INVALID (60), CKR_KEY_FUNCTION_NOT_PERMITTED (68) for its flag or its
    /// state.
    fn check_usable_key(&self, kind: OperationKind, handle: u64) -> Result<u64, RvError>
        ensures number { IfOk result (λ number.
            object_named self.now.history handle ≡ Some number) }
        ensures passes { IfOk result (λ number.
            key_error self.now.history handle (usage_error kind) ≡ None) }
        ensures fails { IfErr result (λ code.
            key_error self.now.history handle (usage_error kind) ≡ Some code) }
    {
        let (number, attributes) = self.key(handle)?;
        check_usage(kind, attributes)?;
        Ok(number)
    }

    /// C_SignInit and C_VerifyInit. Checks: CKR_SESSION_HANDLE_INVALID (b3), CKR_OPERATION_ACTIVE
    /// (90), CKR_MECHANISM_INVALID (70), CKR_MECHANISM_PARAM_INVALID (71), CKR_KEY_HANDLE_INVALID
    /// (60), CKR_KEY_FUNCTION_NOT_PERMITTED (68) for the key's flag or its state.
    pub(super) fn hmac_init(
        &self,
        kind: OperationKind,
        session: u64,
        mechanism: &Mechanism,
        key: u64,
    ) -> Result<Decision, Refused>
        ensures { IsDecided (hmac_init_error kind self.now.history session mechanism.now key)
            (ok body.Empty)
            (λ b. start_hmac kind session mechanism.now (object_named self.now.history key))
            (λ code. change.Nothing) true result }
    {
        self.session(session)?;
        self.check_idle(kind, session)?;
        let hash = mac_of(mechanism.kind).ok_or(RvError::MechanismInvalid)?;
        let len = mechanism
            .tag_length()
            .ok_or(RvError::MechanismParamInvalid)?;
        let number = self.check_usable_key(kind, key)?;
        Ok(Decision::of_change(Change::StartHmac {
            kind,
            session,
            hash,
            key: number,
            len,
        }))
    }

    // ---- checks of an active operation

    /// The session's active operation of the kind. Checks: CKR_SESSION_HANDLE_INVALID (b3),
    /// CKR_OPERATION_NOT_INITIALIZED (91).
    fn check_active(&self, kind: OperationKind, session: u64) -> Result<&Operation, RvError>
        ensures passes { IfOk result (λ operation.
            operation_error kind self.now.history session ≡ None) }
        ensures agrees { IfOk result (λ operation.
            OperationAgrees operation.now (active_operation kind self.now.history session)) }
        ensures fails { IfErr result (λ code.
            operation_error kind self.now.history session ≡ Some code) }
    {
        self.session(session)?;
        self.operation(kind, session)
    }

    /// The checks of the key of an operation, if it has one: it still exists, else
    /// CKR_KEY_HANDLE_INVALID (60), and its state permits the operation, else
    /// CKR_KEY_FUNCTION_NOT_PERMITTED (68).
    fn check_present_key(&self, kind: OperationKind, key: Option<u64>) -> Result<(), RvError>
        ensures { result ≡ check_of (present_key_error kind self.now.history key) }
    {
        let Some(number) = key else {
            return Ok(());
        };
        let attributes = self
            .parts
            .objects
            .at(number)
            .ok_or(RvError::KeyHandleInvalid)?;
        check_key_state(kind, attributes)
    }

    /// The session's active operation, where this may be its message, in a single part.
    /// Checks: those of `check_active`, CKR_OPERATION_NOT_INITIALIZED (91) where there was an
    /// update, CKR_DATA_LEN_RANGE (21), those of `check_present_key`.
    fn check_single_part(
        &self,
        kind: OperationKind,
        session: u64,
        bytes: &[u8],
    ) -> Result<&Operation, RvError>
        ensures passes { IfOk result (λ operation.
            message_error kind self.now.history session bytes.now ≡ None) }
        ensures agrees { IfOk result (λ operation.
            OperationAgrees operation.now (active_operation kind self.now.history session)) }
        ensures unused { IfOk result (λ operation.
            is_updated kind self.now.history session ≡ false) }
        ensures fails { IfErr result (λ code.
            message_error kind self.now.history session bytes.now ≡ Some code) }
    {
        let operation = self.check_active(kind, session)?;
        error_if(operation.is_updated(), RvError::OperationNotInitialized)?;
        error_if(is_too_long(bytes), RvError::DataLenRange)?;
        self.check_present_key(kind, operation.key())?;
        Ok(operation)
    }

    /// The session's active operation, where its multiple-part message may end. Checks: those of
    /// `check_active`, those of `check_present_key`.
    fn check_final(&self, kind: OperationKind, session: u64) -> Result<&Operation, RvError>
        ensures passes { IfOk result (λ operation.
            final_error kind self.now.history session ≡ None) }
        ensures agrees { IfOk result (λ operation.
            OperationAgrees operation.now (active_operation kind self.now.history session)) }
        ensures fails { IfErr result (λ code.
            final_error kind self.now.history session ≡ Some code) }
    {
        let operation = self.check_active(kind, session)?;
        self.check_present_key(kind, operation.key())?;
        Ok(operation)
    }

    // ---- messages

    /// C_Digest and C_Sign, of a single-part message. Checks: CKR_SESSION_HANDLE_INVALID (b3),
    /// CKR_OPERATION_NOT_INITIALIZED (91) where none is active or there was an update,
    /// CKR_DATA_LEN_RANGE (21); of a signature CKR_KEY_HANDLE_INVALID (60),
    /// CKR_KEY_FUNCTION_NOT_PERMITTED (68) for the key's state; then CKR_BUFFER_TOO_SMALL (150).
    /// Each reply ends the operation, except one that has only a length. `ready` is as that of
    /// `Operation::tag_with`.
    pub(super) fn finish_single_part(
        &self,
        alloc: Global,
        kind: OperationKind,
        session: u64,
        bytes: &[u8],
        room: Option<u64>,
        ready: Option<&RunningTag>,
    ) -> Result<Decision, Refused>
        requires { IfSome (option_copied ready)
            (HoldsWith kind self.now.history session bytes.now) }
        ensures { IsDecided (message_error kind self.now.history session bytes.now)
            (bytes_reply room (tag_in kind self.now.history session bytes.now))
            (λ b. finish_change kind session rv.Ok b)
            (λ code. finish_change kind session (rv.Error code) body.Empty) (is_some room) result }
    {
        // A match, since through the closure of a `map_err` the proof would have to carry what is
        // known of the operation. So it is in the three functions below that end an operation.
        let operation = match self.check_single_part(kind, session, bytes) {
            Err(error) => return Err(ending_refusal(kind, session, error)),
            Ok(operation) => operation,
        };
        if let Some(length) = length_decision(kind, session, operation.tag_len(), room) {
            return Ok(length);
        }
        let tag = operation.tag_with(bytes, ready);
        Ok(bytes_decision(alloc, kind, session, &tag)?)
    }

    /// C_DigestUpdate, C_SignUpdate and C_VerifyUpdate. Checks: CKR_SESSION_HANDLE_INVALID (b3),
    /// CKR_OPERATION_NOT_INITIALIZED (91), CKR_DATA_LEN_RANGE (21), which ends the operation.
    pub(super) fn update(
        &self,
        kind: OperationKind,
        session: u64,
        bytes: &[u8],
    ) -> Result<Decision, Refused>
        ensures { IsDecided (update_error kind self.now.history session bytes.now) (ok body.Empty)
            (λ b. change.AddPiece kind session) (end_if_too_long kind session) false result }
    {
        self.check_active(kind, session)?;
        if is_too_long(bytes) {
            return Err(ending_refusal(kind, session, RvError::DataLenRange));
        }
        Ok(Decision::of_change(Change::AddPiece { kind, session }))
    }

    /// C_DigestFinal and C_SignFinal, of a multiple-part message. Checks:
    /// CKR_SESSION_HANDLE_INVALID (b3), CKR_OPERATION_NOT_INITIALIZED (91); of a signature
    /// CKR_KEY_HANDLE_INVALID (60), CKR_KEY_FUNCTION_NOT_PERMITTED (68) for the key's state; then
    /// CKR_BUFFER_TOO_SMALL (150). Each reply ends the operation, except one that has only a
    /// length.
    pub(super) fn finish_multiple_part(
        &self,
        alloc: Global,
        kind: OperationKind,
        session: u64,
        room: Option<u64>,
    ) -> Result<Decision, Refused>
        ensures { IsDecided (final_error kind self.now.history session)
            (bytes_reply room (tag_in kind self.now.history session
            (message_in kind self.now.history session)))
            (λ b. finish_change kind session rv.Ok b)
            (λ code. finish_change kind session (rv.Error code) body.Empty) (is_some room) result }
    {
        let operation = match self.check_final(kind, session) {
            Err(error) => return Err(ending_refusal(kind, session, error)),
            Ok(operation) => operation,
        };
        if let Some(length) = length_decision(kind, session, operation.tag_len(), room) {
            return Ok(length);
        }
        Ok(bytes_decision(alloc, kind, session, &operation.tag())?)
    }

    /// The checks of C_Verify: those of `check_single_part`, CKR_SIGNATURE_LEN_RANGE (c1),
    /// CKR_SIGNATURE_INVALID (c0). `ready` is as that of `Operation::tag_with`.
    fn check_verify(
        &self,
        session: u64,
        bytes: &[u8],
        signature: &[u8],
        ready: Option<&RunningTag>,
    ) -> Result<(), RvError>
        requires { IfSome (option_copied ready)
            (HoldsWith kind.Verify self.now.history session bytes.now) }
        ensures { result
            ≡ check_of (verify_error self.now.history session bytes.now signature.now) }
    {
        let operation = self.check_single_part(OperationKind::Verify, session, bytes)?;
        operation.tag_with(bytes, ready).check(signature)
    }

    /// The checks of C_VerifyFinal: those of `check_final`, CKR_SIGNATURE_LEN_RANGE (c1),
    /// CKR_SIGNATURE_INVALID (c0).
    fn check_verify_final(&self, session: u64, signature: &[u8]) -> Result<(), RvError>
        ensures { result ≡ check_of (verify_final_error self.now.history session signature.now) }
    {
        let operation = self.check_final(OperationKind::Verify, session)?;
        operation.tag().check(signature)
    }

    /// C_Verify. Checks: CKR_SESSION_HANDLE_INVALID (b3), CKR_OPERATION_NOT_INITIALIZED (91) where
    /// none is active or there was an update, CKR_DATA_LEN_RANGE (21), CKR_KEY_HANDLE_INVALID (60),
    /// CKR_KEY_FUNCTION_NOT_PERMITTED (68) for the key's state, CKR_SIGNATURE_LEN_RANGE (c1),
    /// CKR_SIGNATURE_INVALID (c0). Each reply ends the operation. `ready` is as that of
    /// `Operation::tag_with`.
    pub(super) fn verify(
        &self,
        session: u64,
        bytes: &[u8],
        signature: &[u8],
        ready: Option<&RunningTag>,
    ) -> Result<Decision, Refused>
        requires { IfSome (option_copied ready)
            (HoldsWith kind.Verify self.now.history session bytes.now) }
        ensures { IsDecision self.now.limits self.now.history
            (call.Verify session bytes.now signature.now) result }
    {
        match self.check_verify(session, bytes, signature, ready) {
            Err(error) => Err(ending_refusal(OperationKind::Verify, session, error)),
            Ok(()) => Ok(Decision::of_change(finish_change(OperationKind::Verify, session, true))),
        }
    }

    /// C_VerifyFinal. Checks: CKR_SESSION_HANDLE_INVALID (b3), CKR_OPERATION_NOT_INITIALIZED (91),
    /// CKR_KEY_HANDLE_INVALID (60), CKR_KEY_FUNCTION_NOT_PERMITTED (68) for the key's state,
    /// CKR_SIGNATURE_LEN_RANGE (c1), CKR_SIGNATURE_INVALID (c0). Each reply ends the operation.
    pub(super) fn verify_final(&self, session: u64, signature: &[u8]) -> Result<Decision, Refused>
        ensures { IsDecision self.now.limits self.now.history
            (call.VerifyFinal session signature.now) result }
    {
        match self.check_verify_final(session, signature) {
            Err(error) => Err(ending_refusal(OperationKind::Verify, session, error)),
            Ok(()) => Ok(Decision::of_change(finish_change(OperationKind::Verify, session, true))),
        }
    }
}
