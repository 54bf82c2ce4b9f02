//! Auditors of journals: the calls of a journal are made again, and each reply is compared. Also
//! whether a caller got the replies of its entries, and whether two replies are the same.
#![tactic(auto)]

mod audits;
mod comparisons;

pub use audits::{Verdict, audit, audit_token};
pub use comparisons::{are_replies_of, are_same_replies};
