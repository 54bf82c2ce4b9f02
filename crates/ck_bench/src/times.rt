//! Times that are measured.
use std::io;
use std::time::Duration;

/// What becomes of the times that are measured.
#[derive(Clone, Copy)]
pub(crate) enum Times {
    Written,
    /// They aren't written, since they are others in each run.
    LeftOut,
}

impl Times {
    /// Writes what was measured and its time, where times are written.
    pub(crate) fn write<R: Print>(self, rt: &R, name: &str, time: Duration) -> io::Result<()> {
        match self {
            Times::Written => println!(rt; "{name}: {} ns", time.as_nanos()),
            Times::LeftOut => Ok(()),
        }
    }
}
