ghost use Rattle.std.specs.Prelude.{◌≡◌, ◌≤◌, length, take};
ghost use Rattle.ck_types.specs.Checks.{check_of};
ghost use Rattle.ck_mac.specs.Macs.{signature_error};
ghost use Rattle.ck_mac.specs.Padding.{with_zeros};

use ck_types::{RvError, constant_time_eq, error_if};
use std::marker::Model;

/// The length in bytes of the longest digest.
const LONGEST_TAG: usize = 64;

/// A digest, an HMAC or the first bytes of one. Contracts see it as its bytes.
#[derive(Drop)]
pub struct Tag {
    bytes: [u8; LONGEST_TAG],
    len: usize,
}

impl Model for Tag {
    ghost use Rattle.std.specs.Prelude.{ℕ, List, ◌≤◌, take};

    ghost Value = { List ℕ };

    ghost view = { λ t. take t.len t.bytes };

    ghost invariant = { λ t. t.len ≤ 64 };
}

impl Tag {
    /// The tag of these bytes.
    pub(crate) fn of(bytes: &[u8]) -> Tag
        requires { length bytes.now ≤ 64 }
        ensures { result ≡ bytes.now }
    {
        Tag {
            bytes: with_zeros(bytes),
            len: bytes.len(),
        }
    }

    /// Cuts the tag to its first `len` bytes, where it has more.
    pub(crate) fn truncate(&mut self, len: usize)
        ensures { self.new ≡ take len self.old }
    {
        if len < self.len {
            self.len = len;
        }
    }

    /// The bytes of the tag, in their order.
    pub fn bytes(&self) -> &[u8]
        ensures { result.now ≡ self.now }
    {
        &self.bytes[..self.len]
    }

    /// Checks a signature against the tag: CKR_SIGNATURE_LEN_RANGE for another length,
    /// CKR_SIGNATURE_INVALID for other bytes of the same length. The comparison doesn't stop at the
    /// first byte that differs.
    pub fn check(&self, signature: &[u8]) -> Result<(), RvError>
        ensures { result ≡ check_of (signature_error self.now signature.now) }
    {
        error_if(signature.len() != self.len, RvError::SignatureLenRange)?;
        let is_same = constant_time_eq(signature, self.bytes());
        error_if(!is_same, RvError::SignatureInvalid)
    }
}

/// The bytes, followed by zeros up to `N` bytes.
pub(crate) fn with_zeros<const N: usize>(bytes: &[u8]) -> [u8; N]
    requires { length bytes.now ≤ N }
    ensures { result ≡ with_zeros N bytes.now }
{
    let mut all = [0; N];
    all[..bytes.len()].copy_from_slice(bytes);
    all
}
