ghost use Rattle.std.specs.Prelude.{◌≡◌, ◌==◌, not, Some, Option};
ghost use Rattle.ck_types.specs.Checks.{check_of, error_if};
ghost use Rattle.ck_types.specs.declared.errors.RvError.TheVariants as rv_error;
ghost use Rattle.ck_journal.specs.Answers.{logged_in_error};
ghost use Rattle.ck_journal.specs.Pins.{is_pin, pin_owner};
ghost use Rattle.ck_token.specs.Decisions.{IsCheckAbout};

use super::Token;
use crate::decisions::{Decision, Refused};
use ck_parts::Change;
use ck_sessions::Credential;
use ck_types::{MOST_TRIES, Pin, RvError, SessionState, UserType, error_if};

/// Whether the given PIN is the known one. Where none is known it isn't.
fn is_pin(known: Option<Pin>, given: Pin) -> bool
    ensures { result ≡ is_pin known given }
{
    known.is_some_and(|pin| pin.matches(&given))
}

/// Whose PIN C_SetPIN changes in a session of this state.
fn pin_owner(state: SessionState) -> UserType
    ensures { result ≡ pin_owner state }
{
    match state {
        SessionState::RwSo => UserType::So,
        _ => UserType::User,
    }
}

/// CKR_PIN_LOCKED (a4) after three wrong tries.
fn check_lock(credential: Credential) -> Result<(), RvError>
    ensures { result ≡ check_of (error_if (credential.tries == 3) rv_error.PinLocked) }
{
    error_if(credential.tries == MOST_TRIES, RvError::PinLocked)
}

/// CKR_PIN_INCORRECT (a0) where this isn't the user's PIN, which counts as a wrong try.
fn check_pin(user: UserType, credential: Credential, pin: Pin) -> Result<(), Refused>
    ensures { IsCheckAbout (Some user)
        (error_if (not (is_pin credential.pin pin)) rv_error.PinIncorrect) result }
{
    if is_pin(credential.pin, pin) {
        Ok(())
    } else {
        Err(Refused::Error {
            error: RvError::PinIncorrect,
            change: Change::WrongTry { user },
        })
    }
}

/// CKR_USER_ALREADY_LOGGED_IN (100) where the user is logged in, CKR_USER_ANOTHER_ALREADY_LOGGED_IN
/// (104) where another one is.
fn check_not_logged_in(user: UserType, login: Option<UserType>) -> Result<(), RvError>
    ensures { result ≡ check_of (logged_in_error user login) }
{
    match login {
        None => Ok(()),
        Some(other) if other == user => Err(RvError::UserAlreadyLoggedIn),
        Some(_) => Err(RvError::UserAnotherAlreadyLoggedIn),
    }
}

/// Initializing the token, setting PINs, and logging in and out (PKCS #11 Base 3.0, Slot and token
/// management functions; Session management functions).
impl Token {
    ghost use Rattle.ck_journal.specs.Answers.{user_login_error, read_only_error, logins_error};
    ghost use Rattle.ck_journal.specs.declared.calls.Call.TheVariants as call;
    ghost use Rattle.ck_token.specs.Decisions.{IsDecision};

    /// C_InitToken. Checks: CKR_SESSION_EXISTS (b6); of a token that isn't initialized
    /// CKR_PIN_LEN_RANGE (a2), else CKR_PIN_LOCKED (a4), CKR_PIN_INCORRECT (a0).
    pub(super) fn init_token(&self, pin: Pin) -> Result<Decision, Refused>
        ensures { IsDecision self.now.limits self.now.history (call.InitToken pin) result }
    {
        error_if(self.session_count() != 0, RvError::SessionExists)?;
        if self.is_initialized() {
            let so = self.credential(UserType::So);
            check_lock(so)?;
            check_pin(UserType::So, so, pin)?;
        } else {
            error_if(!pin.fits(), RvError::PinLenRange)?;
        }
        Ok(Decision::of_change(Change::InitToken { pin }))
    }

    /// C_InitPIN. Checks: CKR_SESSION_HANDLE_INVALID (b3), CKR_USER_NOT_LOGGED_IN (101),
    /// CKR_PIN_LEN_RANGE (a2).
    pub(super) fn init_pin(&self, session: u64, pin: Pin) -> Result<Decision, Refused>
        ensures { IsDecision self.now.limits self.now.history (call.InitPin session pin) result }
    {
        let row = self.session(session)?;
        error_if(
            self.state_of(row) != SessionState::RwSo,
            RvError::UserNotLoggedIn,
        )?;
        error_if(!pin.fits(), RvError::PinLenRange)?;
        Ok(Decision::of_change(Change::InitPin { pin }))
    }

    /// C_SetPIN. Checks: CKR_SESSION_HANDLE_INVALID (b3), CKR_SESSION_READ_ONLY (b5),
    /// CKR_USER_PIN_NOT_INITIALIZED (102), CKR_PIN_LOCKED (a4), CKR_PIN_LEN_RANGE (a2),
    /// CKR_PIN_INCORRECT (a0).
    pub(super) fn set_pin(&self, session: u64, old: Pin, new: Pin) -> Result<Decision, Refused>
        ensures { IsDecision self.now.limits self.now.history (call.SetPin session old new) result }
    {
        let row = self.session(session)?;
        error_if(!row.is_read_write(), RvError::SessionReadOnly)?;
        let owner = pin_owner(self.state_of(row));
        let credential = self.credential(owner);
        error_if(credential.pin.is_none(), RvError::UserPinNotInitialized)?;
        check_lock(credential)?;
        error_if(!new.fits(), RvError::PinLenRange)?;
        check_pin(owner, credential, old)?;
        Ok(Decision::of_change(Change::SetPin { owner, pin: new }))
    }

    /// C_Login. Checks: CKR_SESSION_HANDLE_INVALID (b3), CKR_USER_TYPE_INVALID (103),
    /// CKR_USER_ALREADY_LOGGED_IN (100) or CKR_USER_ANOTHER_ALREADY_LOGGED_IN (104),
    /// CKR_SESSION_READ_ONLY_EXISTS (b7), CKR_USER_PIN_NOT_INITIALIZED (102), CKR_PIN_LOCKED (a4),
    /// CKR_PIN_INCORRECT (a0), CKR_DEVICE_MEMORY (31).
    pub(super) fn login(&self, session: u64, user: u64, pin: Pin) -> Result<Decision, Refused>
        ensures { IsDecision self.now.limits self.now.history (call.Login session user pin) result }
    {
        self.session(session)?;
        let user = UserType::of(user).ok_or(RvError::UserTypeInvalid)?;
        self.check_login(user, pin)?;
        Ok(Decision::of_change(Change::LogIn { user }))
    }

    /// The checks of C_Login that are about this user: CKR_USER_ALREADY_LOGGED_IN (100) or
    /// CKR_USER_ANOTHER_ALREADY_LOGGED_IN (104), CKR_SESSION_READ_ONLY_EXISTS (b7),
    /// CKR_USER_PIN_NOT_INITIALIZED (102), CKR_PIN_LOCKED (a4), CKR_PIN_INCORRECT (a0),
    /// CKR_DEVICE_MEMORY (31).
    fn check_login(&self, user: UserType, pin: Pin) -> Result<(), Refused>
        ensures { IsCheckAbout (Some user)
            (user_login_error self.now.limits self.now.history user pin) result }
    {
        check_not_logged_in(user, self.logged_in())?;
        self.check_no_read_only(user)?;
        let credential = self.credential(user);
        error_if(credential.pin.is_none(), RvError::UserPinNotInitialized)?;
        check_lock(credential)?;
        check_pin(user, credential, pin)?;
        self.check_login_count(user)?;
        Ok(())
    }

    /// CKR_SESSION_READ_ONLY_EXISTS (b7) for the security officer where a read-only session is
    /// open.
    fn check_no_read_only(&self, user: UserType) -> Result<(), RvError>
        ensures { result ≡ check_of (read_only_error user self.now.history) }
    {
        match user {
            UserType::So => error_if(self.has_read_only(), RvError::SessionReadOnlyExists),
            UserType::User => Ok(()),
        }
    }

    /// CKR_DEVICE_MEMORY (31) where the normal user has logged in as often as the token allows.
    fn check_login_count(&self, user: UserType) -> Result<(), RvError>
        ensures { result ≡ check_of (logins_error self.now.limits user self.now.history) }
    {
        match user {
            UserType::So => Ok(()),
            UserType::User => error_if(
                self.limits.logins() <= self.user_logins(),
                RvError::DeviceMemory,
            ),
        }
    }

    /// C_Logout. Checks: CKR_SESSION_HANDLE_INVALID (b3), CKR_USER_NOT_LOGGED_IN (101).
    pub(super) fn logout(&self, session: u64) -> Result<Decision, Refused>
        ensures { IsDecision self.now.limits self.now.history (call.Logout session) result }
    {
        self.session(session)?;
        error_if(self.logged_in().is_none(), RvError::UserNotLoggedIn)?;
        Ok(Decision::of_change(Change::LogOut))
    }
}
