//! Scripts of calls that are read from a source: played line by line on a token and answered to a
//! sink, or read whole for callers in threads. The token is of any type `T` that answers calls and
//! enters them in a journal.
#![tactic(auto)]

mod caller_scripts;
mod counts;
mod devices;
mod faults;
mod memory_devices;
mod players;
mod plays;
mod readings;

pub use caller_scripts::read_calls;
pub use devices::{ReadSource, Sink, Source, WriteSink};
pub use faults::PlayFault;
pub use memory_devices::{MemorySink, MemorySource};
pub use players::write_all;
pub use plays::{MOST_READS, play, play_with};
