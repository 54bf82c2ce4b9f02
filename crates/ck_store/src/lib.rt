//! The objects of a PKCS #11 token, as the journal has them.
#![tactic(auto)]

mod bases;
mod endings;
mod labels;
mod places;
mod session_lists;
mod stored_objects;
mod stores;

pub use stores::Store;
