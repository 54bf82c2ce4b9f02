//! The sessions of a PKCS #11 token, who is logged in, and the PINs, as the journal has them.
#![tactic(auto)]

mod credentials;
mod open_sessions;
mod rows;
mod searches;
mod session_table;

pub use credentials::Credential;
pub use open_sessions::Session;
pub use session_table::Sessions;
