ghost use Rattle.std.specs.Prelude.{◌≡◌, Some, IfSome};

use thiserror::Error;

/// A return code that the token knows, except CKR_OK (CK_RV; PKCS #11 Base 3.0, Function return
/// values), with the number that the standard gives it. No call is answered `HostMemory` or
/// `KeyTypeInconsistent`: a call without memory ends with `NoMemory`, for which the C module gives
/// CKR_HOST_MEMORY, and all keys are of one key type.
#[derive(Clone, Copy, Debug, Error, PartialEq, Eq)]
pub enum RvError {
    #[error("CKR_HOST_MEMORY")]
    HostMemory = 0x2,
    #[error("CKR_ARGUMENTS_BAD")]
    ArgumentsBad = 0x7,
    #[error("CKR_ATTRIBUTE_READ_ONLY")]
    AttributeReadOnly = 0x10,
    #[error("CKR_ATTRIBUTE_SENSITIVE")]
    AttributeSensitive = 0x11,
    #[error("CKR_ATTRIBUTE_TYPE_INVALID")]
    AttributeTypeInvalid = 0x12,
    #[error("CKR_ATTRIBUTE_VALUE_INVALID")]
    AttributeValueInvalid = 0x13,
    #[error("CKR_ACTION_PROHIBITED")]
    ActionProhibited = 0x1b,
    #[error("CKR_DATA_LEN_RANGE")]
    DataLenRange = 0x21,
    #[error("CKR_DEVICE_MEMORY")]
    DeviceMemory = 0x31,
    #[error("CKR_KEY_HANDLE_INVALID")]
    KeyHandleInvalid = 0x60,
    #[error("CKR_KEY_SIZE_RANGE")]
    KeySizeRange = 0x62,
    #[error("CKR_KEY_TYPE_INCONSISTENT")]
    KeyTypeInconsistent = 0x63,
    #[error("CKR_KEY_FUNCTION_NOT_PERMITTED")]
    KeyFunctionNotPermitted = 0x68,
    #[error("CKR_MECHANISM_INVALID")]
    MechanismInvalid = 0x70,
    #[error("CKR_MECHANISM_PARAM_INVALID")]
    MechanismParamInvalid = 0x71,
    #[error("CKR_OBJECT_HANDLE_INVALID")]
    ObjectHandleInvalid = 0x82,
    #[error("CKR_OPERATION_ACTIVE")]
    OperationActive = 0x90,
    #[error("CKR_OPERATION_NOT_INITIALIZED")]
    OperationNotInitialized = 0x91,
    #[error("CKR_PIN_INCORRECT")]
    PinIncorrect = 0xa0,
    #[error("CKR_PIN_LEN_RANGE")]
    PinLenRange = 0xa2,
    #[error("CKR_PIN_LOCKED")]
    PinLocked = 0xa4,
    #[error("CKR_SESSION_COUNT")]
    SessionCount = 0xb1,
    #[error("CKR_SESSION_HANDLE_INVALID")]
    SessionHandleInvalid = 0xb3,
    #[error("CKR_SESSION_PARALLEL_NOT_SUPPORTED")]
    SessionParallelNotSupported = 0xb4,
    #[error("CKR_SESSION_READ_ONLY")]
    SessionReadOnly = 0xb5,
    #[error("CKR_SESSION_EXISTS")]
    SessionExists = 0xb6,
    #[error("CKR_SESSION_READ_ONLY_EXISTS")]
    SessionReadOnlyExists = 0xb7,
    #[error("CKR_SESSION_READ_WRITE_SO_EXISTS")]
    SessionReadWriteSoExists = 0xb8,
    #[error("CKR_SIGNATURE_INVALID")]
    SignatureInvalid = 0xc0,
    #[error("CKR_SIGNATURE_LEN_RANGE")]
    SignatureLenRange = 0xc1,
    #[error("CKR_TEMPLATE_INCOMPLETE")]
    TemplateIncomplete = 0xd0,
    #[error("CKR_TEMPLATE_INCONSISTENT")]
    TemplateInconsistent = 0xd1,
    #[error("CKR_TOKEN_NOT_RECOGNIZED")]
    TokenNotRecognized = 0xe1,
    #[error("CKR_USER_ALREADY_LOGGED_IN")]
    UserAlreadyLoggedIn = 0x100,
    #[error("CKR_USER_NOT_LOGGED_IN")]
    UserNotLoggedIn = 0x101,
    #[error("CKR_USER_PIN_NOT_INITIALIZED")]
    UserPinNotInitialized = 0x102,
    #[error("CKR_USER_TYPE_INVALID")]
    UserTypeInvalid = 0x103,
    #[error("CKR_USER_ANOTHER_ALREADY_LOGGED_IN")]
    UserAnotherAlreadyLoggedIn = 0x104,
    #[error("CKR_BUFFER_TOO_SMALL")]
    BufferTooSmall = 0x150,
}

impl RvError {
    ghost use Rattle.ck_types.specs.ReturnCodes.{error_number, error_of};
    ghost use Rattle.ck_types.specs.declared.errors.RvError.{RvError};

    /// The error with this number, or `None` where the token has no such error.
    pub(crate) fn of(number: u64) -> Option<RvError>
        ensures error { result ≡ error_of number }
        ensures number { IfSome result (λ error. error_number error ≡ number) }
        ensures known { (error : RvError) → error_number error ≡ number → result ≡ Some error }
    {
        match number {
            0x2 => Some(RvError::HostMemory),
            0x7 => Some(RvError::ArgumentsBad),
            0x10 => Some(RvError::AttributeReadOnly),
            0x11 => Some(RvError::AttributeSensitive),
            0x12 => Some(RvError::AttributeTypeInvalid),
            0x13 => Some(RvError::AttributeValueInvalid),
            0x1b => Some(RvError::ActionProhibited),
            0x21 => Some(RvError::DataLenRange),
            0x31 => Some(RvError::DeviceMemory),
            0x60 => Some(RvError::KeyHandleInvalid),
            0x62 => Some(RvError::KeySizeRange),
            0x63 => Some(RvError::KeyTypeInconsistent),
            0x68 => Some(RvError::KeyFunctionNotPermitted),
            0x70 => Some(RvError::MechanismInvalid),
            0x71 => Some(RvError::MechanismParamInvalid),
            0x82 => Some(RvError::ObjectHandleInvalid),
            0x90 => Some(RvError::OperationActive),
            0x91 => Some(RvError::OperationNotInitialized),
            0xa0 => Some(RvError::PinIncorrect),
            0xa2 => Some(RvError::PinLenRange),
            0xa4 => Some(RvError::PinLocked),
            0xb1 => Some(RvError::SessionCount),
            0xb3 => Some(RvError::SessionHandleInvalid),
            0xb4 => Some(RvError::SessionParallelNotSupported),
            0xb5 => Some(RvError::SessionReadOnly),
            0xb6 => Some(RvError::SessionExists),
            0xb7 => Some(RvError::SessionReadOnlyExists),
            0xb8 => Some(RvError::SessionReadWriteSoExists),
            0xc0 => Some(RvError::SignatureInvalid),
            0xc1 => Some(RvError::SignatureLenRange),
            0xd0 => Some(RvError::TemplateIncomplete),
            0xd1 => Some(RvError::TemplateInconsistent),
            0xe1 => Some(RvError::TokenNotRecognized),
            0x100 => Some(RvError::UserAlreadyLoggedIn),
            0x101 => Some(RvError::UserNotLoggedIn),
            0x102 => Some(RvError::UserPinNotInitialized),
            0x103 => Some(RvError::UserTypeInvalid),
            0x104 => Some(RvError::UserAnotherAlreadyLoggedIn),
            0x150 => Some(RvError::BufferTooSmall),
            _ => None,
        }
    }

    /// The number that the standard gives the code.
    pub fn number(&self) -> u64
        ensures { result ≡ error_number self.now }
    {
        *self as u64
    }
}
