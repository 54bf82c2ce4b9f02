//! What the program may be asked to do.
ghost use Rattle.std.specs.Prelude.{◌≡◌, ◌≤◌};

use ck_journal::MOST_CALLERS;
use thiserror::Error;

/// How many callers play a script in threads. The token that they share isn't made yet (ck_callers'
/// `CallerCount` is of one that is).
#[derive(Clone, Copy, Debug, PartialEq, Eq)]
pub struct Callers {
    pub count: u32,
    pub ghost in_range: { (1 ≤ count) × (count ≤ 8) },
}

/// What the program is asked to do.
#[derive(Debug, Drop)]
pub enum Options {
    /// To play the script line by line.
    LineByLine,
    /// To play the lines of each caller in a thread of its own.
    InThreads(Callers),
    /// To write this text on how it is used.
    Help(String),
}

/// Why the arguments are bad.
#[derive(Debug, Drop, Error)]
pub enum BadArguments {
    /// What `clap` says of them.
    #[error("{0}")]
    Refused(String),
    /// The value of `--callers` is no number of callers.
    #[error("--callers takes a number from 1 to {MOST_CALLERS}")]
    Callers,
    #[error("an argument isn't text in UTF-8")]
    NotText,
}
