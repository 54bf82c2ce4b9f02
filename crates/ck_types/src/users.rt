ghost use Rattle.std.specs.Prelude.{◌≡◌, Some};
ghost use Rattle.ck_types.specs.Users.{user_of, user_number, session_state_number};

/// Who logs in (CK_USER_TYPE; PKCS #11 Base 3.0, Session types).
#[derive(Clone, Copy, Debug, PartialEq, Eq)]
pub enum UserType {
    /// The security officer (CKU_SO).
    So = 0,
    /// The normal user (CKU_USER).
    User = 1,
}

impl UserType {
    /// The user with this number: CKU_SO is 0, CKU_USER is 1. `None` for any other number, for
    /// which C_Login has the code CKR_USER_TYPE_INVALID.
    pub fn of(number: u64) -> Option<UserType>
        ensures { result ≡ user_of number }
    {
        match number {
            0 => Some(UserType::So),
            1 => Some(UserType::User),
            _ => None,
        }
    }

    /// The number that the standard gives the user: CKU_SO is 0, CKU_USER is 1.
    pub fn number(self) -> u64
        ensures number { result ≡ user_number self }
        ensures user { user_of result ≡ Some self }
    {
        self as u64
    }
}

/// The state of a session (CK_STATE; PKCS #11 Base 3.0, Session types): read-only or read/write,
/// and who is logged in.
#[derive(Clone, Copy, Debug, PartialEq, Eq)]
pub enum SessionState {
    /// CKS_RO_PUBLIC_SESSION.
    RoPublic = 0,
    /// CKS_RO_USER_FUNCTIONS.
    RoUser = 1,
    /// CKS_RW_PUBLIC_SESSION.
    RwPublic = 2,
    /// CKS_RW_USER_FUNCTIONS.
    RwUser = 3,
    /// CKS_RW_SO_FUNCTIONS.
    RwSo = 4,
}

impl SessionState {
    /// The number that the standard gives the state.
    pub fn number(self) -> u64
        ensures { result ≡ session_state_number self }
    {
        self as u64
    }
}
