ghost use Rattle.std.specs.Prelude.{◌≡◌};
ghost use Rattle.ck_types.specs.Mechanisms.{digest_hash, hmac_hash, is_key_generator};
ghost use Rattle.ck_types.specs.Mechanisms.{given_tag_length, algorithm_of, mechanism_types};

use crate::hashes::Hash;
use crate::mechanism_numbers::{
    GENERIC_SECRET_KEY_GEN, SHA224, SHA224_HMAC, SHA224_HMAC_GENERAL, SHA256, SHA256_HMAC,
    SHA256_HMAC_GENERAL, SHA384, SHA384_HMAC, SHA384_HMAC_GENERAL, SHA512, SHA512_HMAC,
    SHA512_HMAC_GENERAL,
};
use crate::memory::NoMemory;
use crate::numbers::number_from_bytes;
use crate::sequences::Bytes;
use std::alloc::Global;

/// A mechanism with its parameter (CK_MECHANISM; PKCS #11 Base 3.0, Data types for mechanisms).
#[derive(Clone, Drop)]
pub struct Mechanism {
    /// The mechanism's type (CK_MECHANISM_TYPE), known to the token or not.
    pub kind: u64,
    /// The bytes of the parameter. Where there are none, there is no parameter.
    pub parameter: Bytes,
}

impl Mechanism {
    ghost use Rattle.std.specs.Prelude.{[], IfOk};
    ghost use Rattle.ck_types.specs.Mechanisms.{tag_length};
    ghost use Rattle.ck_types.specs.Numbers.{number_bytes};

    /// A mechanism of this type without a parameter; the type is, for example, `SHA256_HMAC`. It
    /// takes no memory.
    pub fn new(alloc: Global, kind: u64) -> Mechanism
        ensures { result ≡ record { kind = kind; parameter = [] } }
    {
        Mechanism {
            kind,
            parameter: Bytes::new(alloc),
        }
    }

    /// A mechanism of this type with a length in bytes as its parameter (CK_MAC_GENERAL_PARAMS);
    /// the type is, for example, `SHA256_HMAC_GENERAL`. The length isn't checked.
    pub fn with_length(alloc: Global, kind: u64, length: u64) -> Result<Mechanism, NoMemory>
        ensures { IfOk result (λ made.
            made ≡ record { kind = kind; parameter = number_bytes length }) }
    {
        let parameter = Bytes::from_slice(alloc, &length.to_le_bytes())?;
        Ok(Mechanism { kind, parameter })
    }

    /// The length in bytes of the mechanism's signatures, or `None` where it doesn't sign or its
    /// parameter isn't valid. A whole HMAC has no parameter. The parameter of a general HMAC is the
    /// length (CK_MAC_GENERAL_PARAMS): 8 bytes, the least significant first, from 1 to the digest's
    /// length.
    pub fn tag_length(&self) -> Option<u64>
        ensures { result ≡ tag_length self.now }
    {
        let parameter = self.parameter.as_slice();
        match algorithm_of(self.kind)? {
            Algorithm::Hmac(hash) => parameter.is_empty().then_some(hash.len()),
            Algorithm::GeneralHmac(hash) => given_tag_length(hash, parameter),
            Algorithm::Digest(_) | Algorithm::GenericSecretKey => None,
        }
    }
}

/// The length that the parameter gives, or `None` where it isn't 8 bytes or isn't from 1 to the
/// digest's length.
fn given_tag_length(hash: Hash, parameter: &[u8]) -> Option<u64>
    ensures { result ≡ given_tag_length hash parameter.now }
{
    let length = number_from_bytes(parameter)?;
    (1..=hash.len()).contains(&length).then_some(length)
}

/// What a mechanism computes.
#[derive(Clone, Copy)]
enum Algorithm {
    Digest(Hash),
    Hmac(Hash),
    /// The first bytes of an HMAC. Their number is the parameter.
    GeneralHmac(Hash),
    GenericSecretKey,
}

/// How many mechanisms the token has.
pub const MECHANISM_COUNT: usize = 13;

/// All mechanisms of the token, by ascending type.
const MECHANISMS: [(u64, Algorithm); MECHANISM_COUNT] = [
    (SHA256, Algorithm::Digest(Hash::Sha256)),
    (SHA256_HMAC, Algorithm::Hmac(Hash::Sha256)),
    (SHA256_HMAC_GENERAL, Algorithm::GeneralHmac(Hash::Sha256)),
    (SHA224, Algorithm::Digest(Hash::Sha224)),
    (SHA224_HMAC, Algorithm::Hmac(Hash::Sha224)),
    (SHA224_HMAC_GENERAL, Algorithm::GeneralHmac(Hash::Sha224)),
    (SHA384, Algorithm::Digest(Hash::Sha384)),
    (SHA384_HMAC, Algorithm::Hmac(Hash::Sha384)),
    (SHA384_HMAC_GENERAL, Algorithm::GeneralHmac(Hash::Sha384)),
    (SHA512, Algorithm::Digest(Hash::Sha512)),
    (SHA512_HMAC, Algorithm::Hmac(Hash::Sha512)),
    (SHA512_HMAC_GENERAL, Algorithm::GeneralHmac(Hash::Sha512)),
    (GENERIC_SECRET_KEY_GEN, Algorithm::GenericSecretKey),
];

/// The types of all mechanisms of the token, ascending (C_GetMechanismList; PKCS #11 Base 3.0, Slot
/// and token management functions). The numbers are those of Current Mechanisms 3.0.
pub fn mechanism_types() -> [u64; MECHANISM_COUNT]
    ensures { result ≡ mechanism_types }
{
    MECHANISMS.map(|(kind, _)| kind)
}

/// What the mechanism of this type computes, where the token has it.
fn algorithm_of(kind: u64) -> Option<Algorithm>
    ensures { result ≡ algorithm_of kind }
{
    MECHANISMS.iter().find(|row| row.0 == kind).map(|row| row.1)
}

/// The hash function of the mechanism of this type, where it computes a digest (PKCS #11 Current
/// Mechanisms 3.0, SHA-224 to SHA-512); else `None`.
pub fn digest_of(kind: u64) -> Option<Hash>
    ensures { result ≡ digest_hash kind }
{
    match algorithm_of(kind)? {
        Algorithm::Digest(hash) => Some(hash),
        _ => None,
    }
}

/// The hash function of the mechanism of this type, where it computes an HMAC, whole or its first
/// bytes (PKCS #11 Current Mechanisms 3.0, SHA-224 to SHA-512); else `None`.
pub fn mac_of(kind: u64) -> Option<Hash>
    ensures { result ≡ hmac_hash kind }
{
    match algorithm_of(kind)? {
        Algorithm::Hmac(hash) | Algorithm::GeneralHmac(hash) => Some(hash),
        _ => None,
    }
}

/// Whether the mechanism of this type generates keys (PKCS #11 Current Mechanisms 3.0, Generic
/// secret key).
pub fn is_key_generator(kind: u64) -> bool
    ensures { result ≡ is_key_generator kind }
{
    matches!(algorithm_of(kind), Some(Algorithm::GenericSecretKey))
}
