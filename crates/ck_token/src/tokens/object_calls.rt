ghost use Rattle.std.specs.Prelude.{◌≡◌, Some, None, IfOk, IfErr};
ghost use Rattle.ck_types.specs.Checks.{check_of};
ghost use Rattle.ck_objects.specs.KeyStates.{state_of_number};
ghost use Rattle.ck_objects.specs.Records.{state_in};
ghost use Rattle.ck_journal.specs.Answers.{prohibited_error, transition_error};

use super::Token;
use super::mechanisms::check_no_parameter;
use crate::decisions::{Decision, Refused};
use crate::queries::queries_decision;
use ck_journal::{AttributeQuery, Body};
use ck_objects::{Attribute, KeyState, Placement, Record, Template};
use ck_parts::{Boxed, Change};
use ck_sessions::Session;
use ck_types::{Mechanism, Rv, RvError, error_if, is_key_generator};
use std::alloc::Global;

/// CKR_ACTION_PROHIBITED (1b) where the flag (CKA_COPYABLE, CKA_MODIFIABLE or CKA_DESTROYABLE) is
/// false.
fn check_flag(attributes: &Record, flag: Attribute) -> Result<(), RvError>
    ensures { result ≡ check_of (prohibited_error flag attributes.now) }
{
    error_if(!attributes.is_set(flag), RvError::ActionProhibited)
}

/// The state of this number, where the key may go over to it. Checks: CKR_ARGUMENTS_BAD (7) where
/// no state has the number, CKR_ACTION_PROHIBITED (1b).
fn check_transition(key: &Record, number: u64) -> Result<KeyState, RvError>
    ensures state { IfOk result (λ state. state_of_number number ≡ Some state) }
    ensures passes { IfOk result (λ state.
        transition_error (state_in key.now) (state_of_number number) ≡ None) }
    ensures fails { IfErr result (λ code.
        transition_error (state_in key.now) (state_of_number number) ≡ Some code) }
{
    let after = KeyState::of(number).ok_or(RvError::ArgumentsBad)?;
    let is_allowed = key
        .key_state()
        .is_some_and(|before| before.may_become(after));
    error_if(!is_allowed, RvError::ActionProhibited)?;
    Ok(after)
}

/// Creating, copying, reading, changing and destroying objects (PKCS #11 Base 3.0, Object
/// management functions; Key management functions).
impl Token {
    ghost use Rattle.std.specs.Prelude.{◌+◌, ◌<◌, ◌^◌, ℕ};
    ghost use Rattle.ck_journal.specs.Answers.{ok, read_only_session_error, placement_error};
    ghost use Rattle.ck_journal.specs.Answers.{new_handle};
    ghost use Rattle.ck_journal.specs.Objects.{creations};
    ghost use Rattle.ck_journal.specs.declared.replies.Body.TheVariants as body;
    ghost use Rattle.ck_journal.specs.declared.calls.Call.TheVariants as call;
    ghost use Rattle.ck_sessions.specs.Agreement.{session_row};
    ghost use Rattle.ck_token.specs.Decisions.{IsDecision, addition_error, reply_of};
    ghost use Rattle.ck_parts.specs.declared.changes.Change.TheVariants as change;

    // ---- checks

    /// CKR_SESSION_READ_ONLY (b5) where a read-only session writes a token object.
    // A method only for its clause, which is about the token's history.
    fn check_writable(&self, row: &Session, placement: Placement) -> Result<(), RvError>
        ensures { (s : ℕ) → row.now ≡ session_row self.now.history s
            → result ≡ check_of (read_only_session_error self.now.history s placement) }
    {
        error_if(
            placement.token && !row.is_read_write(),
            RvError::SessionReadOnly,
        )
    }

    /// The checks of where a new object stands: CKR_SESSION_READ_ONLY (b5) for a token object in a
    /// read-only session, CKR_USER_NOT_LOGGED_IN (101) for a private object where the normal user
    /// isn't logged in.
    fn check_placement(&self, row: &Session, placement: Placement) -> Result<(), RvError>
        ensures { (s : ℕ) → row.now ≡ session_row self.now.history s
            → result ≡ check_of (placement_error self.now.history s placement) }
    {
        self.check_writable(row, placement)?;
        error_if(
            placement.private && !self.is_user_in(),
            RvError::UserNotLoggedIn,
        )
    }

    /// The number of a new object, where one of this placement may be made. Checks: those of
    /// `check_placement`, and CKR_DEVICE_MEMORY (31) where as many objects have been created as the
    /// token allows.
    fn check_new_object(&self, row: &Session, placement: Placement) -> Result<u64, RvError>
        ensures number { IfOk result (λ number. number ≡ creations self.now.history + 1) }
        ensures bound { IfOk result (λ number. number < 2 ^ 32) }
        ensures passes { (s : ℕ) → row.now ≡ session_row self.now.history s
            → IfOk result (λ number.
            addition_error self.now.limits self.now.history s placement ≡ None) }
        ensures fails { (s : ℕ) → row.now ≡ session_row self.now.history s
            → IfErr result (λ code.
            addition_error self.now.limits self.now.history s placement ≡ Some code) }
    {
        self.check_placement(row, placement)?;
        let creations = self.creations();
        error_if(self.limits.creations() <= creations, RvError::DeviceMemory)?;
        Ok(creations + 1)
    }

    // ---- the calls

    /// C_CreateObject. Checks: CKR_SESSION_HANDLE_INVALID (b3); of the template
    /// (`Template::check_creation`) CKR_ATTRIBUTE_TYPE_INVALID (12) or CKR_ATTRIBUTE_VALUE_INVALID
    /// (13) item by item, CKR_TEMPLATE_INCONSISTENT (d1), CKR_TEMPLATE_INCOMPLETE (d0) without a
    /// class, 12 or CKR_ATTRIBUTE_READ_ONLY (10) item by item, and for a key d0 without a key type
    /// or a value, 13 for the length of the value; then CKR_SESSION_READ_ONLY (b5),
    /// CKR_USER_NOT_LOGGED_IN (101), CKR_DEVICE_MEMORY (31).
    pub(super) fn create_object(
        &self,
        alloc: Global,
        session: u64,
        template: &Template,
    ) -> Result<Decision, Refused>
        ensures { IsDecision self.now.limits self.now.history
            (call.CreateObject session template.now) result }
    {
        let row = self.session(session)?;
        template.check_creation()?;
        let number = self.check_new_object(row, template.creation_placement())?;
        let made = Record::create_with(alloc, template)?;
        let attributes = Boxed::new(alloc, made)?;
        Ok(self.creation(session, number, attributes))
    }

    /// C_GenerateKey. Checks: CKR_SESSION_HANDLE_INVALID (b3), CKR_MECHANISM_INVALID (70),
    /// CKR_MECHANISM_PARAM_INVALID (71); of the template (`Template::check_generation`)
    /// CKR_ATTRIBUTE_TYPE_INVALID (12) or CKR_ATTRIBUTE_VALUE_INVALID (13) item by item,
    /// CKR_TEMPLATE_INCONSISTENT (d1) for two values of one type or another class, 12 or
    /// CKR_ATTRIBUTE_READ_ONLY (10) item by item, CKR_TEMPLATE_INCOMPLETE (d0), CKR_KEY_SIZE_RANGE
    /// (62), CKR_ARGUMENTS_BAD (7); then CKR_SESSION_READ_ONLY (b5), CKR_USER_NOT_LOGGED_IN (101),
    /// CKR_DEVICE_MEMORY (31).
    pub(super) fn generate_key(
        &self,
        alloc: Global,
        session: u64,
        mechanism: &Mechanism,
        template: &Template,
        random: &[u8],
    ) -> Result<Decision, Refused>
        ensures { IsDecision self.now.limits self.now.history
            (call.GenerateKey session mechanism.now template.now random.now) result }
    {
        let row = self.session(session)?;
        let generates = is_key_generator(mechanism.kind);
        error_if(!generates, RvError::MechanismInvalid)?;
        check_no_parameter(mechanism)?;
        template.check_generation(random)?;
        let number = self.check_new_object(row, template.generation_placement())?;
        let made = Record::generate_with(alloc, template, random)?;
        let attributes = Boxed::new(alloc, made)?;
        Ok(self.creation(session, number, attributes))
    }

    /// The decision to add an object.
    // Inlined, so that a decision isn't copied.
    #[inline(always)]
    fn creation(&self, session: u64, number: u64, attributes: Boxed<Record>) -> Decision
        requires number { number ≡ creations self.now.history + 1 }
        requires bound { number < 2 ^ 32 }
        ensures reply { reply_of result
            ≡ ok (body.Handle (new_handle self.now.history attributes)) }
        ensures change { result.change ≡ change.CreateObject session attributes }
    {
        let handle = self.view().handle(attributes.get(), number);
        Decision {
            rv: Rv::Ok,
            body: Body::Handle(handle),
            change: Change::CreateObject {
                session,
                attributes,
            },
        }
    }

    /// C_CopyObject. Checks: CKR_SESSION_HANDLE_INVALID (b3), CKR_OBJECT_HANDLE_INVALID (82),
    /// CKR_ACTION_PROHIBITED (1b); of the template (`Record::check_copy`)
    /// CKR_ATTRIBUTE_TYPE_INVALID (12) or CKR_ATTRIBUTE_VALUE_INVALID (13) item by item,
    /// CKR_TEMPLATE_INCONSISTENT (d1), 12 or CKR_ATTRIBUTE_READ_ONLY (10) item by item, 10 where it
    /// weakens a key, d1 where it makes a private object public; then CKR_SESSION_READ_ONLY (b5),
    /// CKR_USER_NOT_LOGGED_IN (101), CKR_DEVICE_MEMORY (31).
    pub(super) fn copy_object(
        &self,
        alloc: Global,
        session: u64,
        object: u64,
        template: &Template,
    ) -> Result<Decision, Refused>
        ensures { IsDecision self.now.limits self.now.history
            (call.CopyObject session object template.now) result }
    {
        let row = self.session(session)?;
        let (_, source) = self.object(object)?;
        check_flag(source, Attribute::Copyable)?;
        source.check_copy(template)?;
        let number = self.check_new_object(row, source.copy_placement(template))?;
        let made = source.copy_with(alloc, template)?;
        let attributes = Boxed::new(alloc, made)?;
        Ok(self.creation(session, number, attributes))
    }

    /// C_GetAttributeValue. Checks: CKR_SESSION_HANDLE_INVALID (b3), CKR_OBJECT_HANDLE_INVALID
    /// (82). Then all queries are answered, with the first of these codes that one of them has:
    /// CKR_ATTRIBUTE_SENSITIVE (11), CKR_ATTRIBUTE_TYPE_INVALID (12), CKR_BUFFER_TOO_SMALL (150),
    /// CKR_OK.
    pub(super) fn get_attribute_value(
        &self,
        alloc: Global,
        session: u64,
        object: u64,
        queries: &[AttributeQuery],
    ) -> Result<Decision, Refused>
        ensures { IsDecision self.now.limits self.now.history
            (call.GetAttributeValue session object queries.now) result }
    {
        self.session(session)?;
        let (_, attributes) = self.object(object)?;
        Ok(queries_decision(alloc, attributes, queries)?)
    }

    /// C_SetAttributeValue. Checks: CKR_SESSION_HANDLE_INVALID (b3), CKR_OBJECT_HANDLE_INVALID
    /// (82), CKR_SESSION_READ_ONLY (b5), CKR_ACTION_PROHIBITED (1b); of the template
    /// (`Record::check_change`) CKR_ATTRIBUTE_TYPE_INVALID (12) or CKR_ATTRIBUTE_VALUE_INVALID (13)
    /// item by item, CKR_TEMPLATE_INCONSISTENT (d1), 12 or CKR_ATTRIBUTE_READ_ONLY (10) item by
    /// item, 10 where it weakens a key.
    pub(super) fn set_attribute_value(
        &self,
        session: u64,
        object: u64,
        template: &Template,
    ) -> Result<Decision, Refused>
        ensures { IsDecision self.now.limits self.now.history
            (call.SetAttributeValue session object template.now) result }
    {
        let row = self.session(session)?;
        let (number, present) = self.object(object)?;
        self.check_writable(row, present.placement())?;
        check_flag(present, Attribute::Modifiable)?;
        present.check_change(template)?;
        let values = template.clone()?;
        Ok(Decision::of_change(Change::SetAttributes { number, values }))
    }

    /// Setting a key's state, for which the standard has no function. Checks:
    /// CKR_SESSION_HANDLE_INVALID (b3), CKR_KEY_HANDLE_INVALID (60), CKR_SESSION_READ_ONLY (b5),
    /// CKR_ARGUMENTS_BAD (7), CKR_ACTION_PROHIBITED (1b).
    pub(super) fn set_key_state(
        &self,
        session: u64,
        key: u64,
        state: u64,
    ) -> Result<Decision, Refused>
        ensures { IsDecision self.now.limits self.now.history
            (call.SetKeyState session key state) result }
    {
        let row = self.session(session)?;
        let (number, attributes) = self.key(key)?;
        self.check_writable(row, attributes.placement())?;
        let state = check_transition(attributes, state)?;
        Ok(Decision::of_change(Change::SetKeyState { number, state }))
    }

    /// C_DestroyObject. Checks: CKR_SESSION_HANDLE_INVALID (b3), CKR_OBJECT_HANDLE_INVALID (82),
    /// CKR_SESSION_READ_ONLY (b5), CKR_ACTION_PROHIBITED (1b).
    pub(super) fn destroy_object(&self, session: u64, object: u64) -> Result<Decision, Refused>
        ensures { IsDecision self.now.limits self.now.history
            (call.DestroyObject session object) result }
    {
        let row = self.session(session)?;
        let (number, attributes) = self.object(object)?;
        self.check_writable(row, attributes.placement())?;
        check_flag(attributes, Attribute::Destroyable)?;
        Ok(Decision::of_change(Change::DestroyObject { number }))
    }
}
