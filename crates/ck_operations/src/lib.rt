//! The active digest, signing and verification operations of a PKCS #11 token's sessions, as the
//! journal has them.
#![tactic(auto)]

mod active_operations;
mod operation_table;
mod rows;

pub use active_operations::Operation;
pub use operation_table::Operations;
