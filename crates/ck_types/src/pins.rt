ghost use Rattle.std.specs.Prelude.{◌≡◌};

use crate::comparisons::constant_time_eq;
use sha2::{Digest, Sha256};

/// The length in bytes of the shortest PIN that may be set.
const SHORTEST_PIN: u64 = 4;

/// The length in bytes of the longest PIN that may be set.
const LONGEST_PIN: u64 = 64;

/// How many wrong tries lock a PIN. The standard leaves the number to the token.
pub const MOST_TRIES: u64 = 3;

/// What the token keeps of a PIN: its length and its SHA-256 digest (FIPS 180-4). Two PINs count as
/// the same where both are equal, as `matches` says. There is no `==`, since it would stop at the
/// first difference.
#[derive(Clone, Copy)]
pub struct Pin {
    /// The length of the PIN in bytes.
    pub len: u64,
    /// The SHA-256 digest of the PIN's bytes.
    pub digest: [u8; 32],
}

impl Pin {
    ghost use Rattle.ck_types.specs.Pins.{pin_of, fits_a_pin, same_pin};

    /// The PIN of these bytes. There may be any number of them. This takes no memory.
    pub fn of(bytes: &[u8]) -> Pin
        ensures { result ≡ pin_of bytes.now }
    {
        Pin {
            len: bytes.len() as u64,
            digest: Sha256::digest(bytes),
        }
    }

    /// Whether the PIN may be set: it has 4 to 64 bytes. Where a call would set another one, the
    /// check that fails gives CKR_PIN_LEN_RANGE. A PIN that is only tried may have any length.
    pub fn fits(&self) -> bool
        ensures { result ≡ fits_a_pin self.now }
    {
        (SHORTEST_PIN..=LONGEST_PIN).contains(&self.len)
    }

    /// Whether the two PINs have the same length and the same digest. Where the lengths differ, the
    /// digests aren't looked at. Where they are equal, the digests are compared by
    /// `constant_time_eq`, which doesn't stop at the first difference.
    pub fn matches(&self, other: &Pin) -> bool
        ensures { result ≡ same_pin self.now other.now }
    {
        self.len == other.len && constant_time_eq(&self.digest, &other.digest)
    }
}
