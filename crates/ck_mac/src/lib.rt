//! Digests (FIPS 180-4) and HMACs (FIPS 198-1) of messages that come in pieces. Nothing here takes
//! memory.
#![tactic(auto)]

mod digests;
mod macs;
mod running_tags;
mod tags;

pub use digests::Running;
pub use macs::Mac;
pub use running_tags::RunningTag;
pub use tags::Tag;
