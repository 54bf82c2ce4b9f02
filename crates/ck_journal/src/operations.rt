ghost use Rattle.std.specs.Prelude.{◌≡◌};
ghost use Rattle.ck_journal.specs.Operations.{is_too_long};

/// The kinds of operations that take a message: a single-part one at once, or a multiple-part one
/// in pieces. A session has at most one active operation of each kind (PKCS #11 Base 3.0, Message
/// digesting functions, Signing and MACing functions, Functions for verifying signatures and MACs).
#[derive(Clone, Copy, Debug, PartialEq, Eq)]
pub enum OperationKind {
    Digest,
    Sign,
    Verify,
}

impl OperationKind {
    ghost use Rattle.ck_journal.specs.Operations.{kind_flag, names_kind};

    /// The flag by which C_SessionCancel names operations of the kind (CKF_DIGEST, CKF_SIGN,
    /// CKF_VERIFY; PKCS #11 Base 3.0, Session management functions).
    pub fn flag(self) -> u64
        ensures { result ≡ kind_flag self }
    {
        match self {
            OperationKind::Digest => 0x400,
            OperationKind::Sign => 0x800,
            OperationKind::Verify => 0x2000,
        }
    }

    /// Whether the flags name operations of the kind.
    pub fn is_named_by(self, flags: u64) -> bool
        ensures { result ≡ names_kind flags self }
    {
        flags & self.flag() != 0
    }
}

/// The most bytes that a single-part message, or one piece of a multiple-part one, may have: a
/// limit of this token.
const LONGEST_PIECE: usize = 0x10_0000;

/// Whether the bytes are more than a single-part message, or one piece of a multiple-part one, may
/// have, which is 2^20 (CKR_DATA_LEN_RANGE).
pub fn is_too_long(bytes: &[u8]) -> bool
    ensures { result ≡ is_too_long bytes.now }
{
    bytes.len() > LONGEST_PIECE
}
