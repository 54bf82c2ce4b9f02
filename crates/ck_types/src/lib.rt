//! The plain values of which the calls of a PKCS #11 token are made, on which all other crates
//! stand: return codes, mechanisms, users, PINs, flags, limits, and lists.
#![tactic(auto)]

mod checks;
mod comparisons;
mod errors;
mod hashes;
mod mechanism_numbers;
mod mechanisms;
mod memory;
mod numbers;
mod pins;
mod return_codes;
mod sequences;
mod token_flags;
mod token_limits;
mod users;

pub use checks::error_if;
pub use comparisons::constant_time_eq;
pub use errors::RvError;
pub use hashes::Hash;
pub use mechanism_numbers::{
    GENERIC_SECRET_KEY_GEN, SHA224, SHA224_HMAC, SHA224_HMAC_GENERAL, SHA256, SHA256_HMAC,
    SHA256_HMAC_GENERAL, SHA384, SHA384_HMAC, SHA384_HMAC_GENERAL, SHA512, SHA512_HMAC,
    SHA512_HMAC_GENERAL,
};
pub use mechanisms::{
    MECHANISM_COUNT, Mechanism, digest_of, is_key_generator, mac_of, mechanism_types,
};
pub use memory::NoMemory;
pub use numbers::number_from_bytes;
pub use pins::{MOST_TRIES, Pin};
pub use return_codes::Rv;
pub use sequences::{Bytes, Sequence};
pub use token_flags::TokenFlags;
pub use token_limits::{Limits, MOST_SESSIONS};
pub use users::{SessionState, UserType};
