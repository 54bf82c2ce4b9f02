ghost use Rattle.std.specs.Prelude.{◌≡◌};
ghost use Rattle.ck_types.specs.Numbers.{same_bytes, number_bytes};

use crate::key_states::KeyState;

/// CKO_DATA, the class of data objects (PKCS #11 Base 3.0, Data objects).
pub const DATA: u64 = 0;

/// CKO_SECRET_KEY, the class of secret keys (PKCS #11 Base 3.0, Secret key objects).
pub const SECRET_KEY: u64 = 4;

/// CKK_GENERIC_SECRET, the key type of all keys of the token (PKCS #11 Current Mechanisms 3.0,
/// Generic secret key).
pub const GENERIC_SECRET: u64 = 16;

/// The form of an attribute's value.
#[derive(Clone, Copy, Debug, PartialEq, Eq)]
pub(crate) enum Form {
    /// One byte, 0 or 1 (CK_BBOOL).
    Flag,
    /// 8 bytes, the least significant first (CK_ULONG).
    Number,
    /// A number that is CKO_DATA (0) or CKO_SECRET_KEY (4).
    Class,
    /// A number that is CKK_GENERIC_SECRET (16).
    KeyType,
    /// A number; in a template 0 (pre-activation) or 1 (active).
    KeyState,
    /// Any bytes.
    Bytes,
}

impl Form {
    ghost use Rattle.ck_objects.specs.Attributes.{is_of_form};

    /// Whether a template may give these bytes as a value of this form.
    pub(crate) fn admits(self, value: &[u8]) -> bool
        ensures { result ≡ is_of_form self value.now }
    {
        match self {
            Form::Flag => value == [0].as_slice() || value == [1].as_slice(),
            Form::Number => value.len() == 8,
            Form::Class => is_number(value, DATA) || is_number(value, SECRET_KEY),
            Form::KeyType => is_number(value, GENERIC_SECRET),
            Form::KeyState => {
                is_number(value, KeyState::PreActivation.number())
                    || is_number(value, KeyState::Active.number())
            }
            Form::Bytes => true,
        }
    }
}

/// Whether these are the 8 bytes of the number, the least significant first.
pub(crate) fn is_number(value: &[u8], number: u64) -> bool
    ensures { result ≡ same_bytes value.now (number_bytes number) }
{
    value == number.to_le_bytes().as_slice()
}
