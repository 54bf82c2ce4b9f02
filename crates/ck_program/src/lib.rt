//! What the program's arguments ask for, and the program over any options, source and sink: it
//! plays a script line by line, or the lines of each caller in a thread of its own, or writes its
//! help, and ends with a status. The token is of any type `T` that answers calls and enters them in
//! a journal.
#![tactic(auto)]

mod arguments;
mod faults;
mod options;
mod programs;
mod thread_plays;

pub use arguments::options_of;
pub use ck_shared::Runtime;
pub use faults::{ArgumentFault, ProgramFault};
pub use options::{BadArguments, Callers, Options};
pub use programs::{play_threads, run, run_on_std};
