//! Counts of a device's reads, of the ends that it found, and of its failures. Except for the reads
//! of a `MemorySource`, only contracts read them. By these counts a contract can say how many times
//! the end was found and how many times a device failed, even of a device whose bytes aren't known.
//! Each count stops at the largest number of 64 bits.
ghost use Rattle.std.specs.Prelude.{◌≡◌, ℕ, suc, List};
ghost use Rattle.ck_plays.specs.Devices.{Reading, Writing, AreCounts, IsCount, after_read};
ghost use Rattle.ck_plays.specs.Devices.{after_write};

use std::io;

/// How many reads were made, found the end, and failed.
#[derive(Clone, Copy)]
pub(crate) struct ReadCounts {
    pub(crate) reads: u64,
    pub(crate) ends: u64,
    pub(crate) failures: u64,
}

impl ReadCounts {
    /// The counts before the first read.
    pub(crate) fn new() -> ReadCounts
        ensures { result ≡ record { reads = 0; ends = 0; failures = 0 } }
    {
        ReadCounts {
            reads: 0,
            ends: 0,
            failures: 0,
        }
    }

    /// Counts a read into the beginning of a buffer.
    pub(crate) fn count(&mut self, read: &io::Result<usize>, buffer: &[u8])
        ensures counted { (r : Reading) → AreCounts self.old r
            → AreCounts self.new (after_read r read.now buffer.now) }
        ensures reads { IsCount self.new.reads (suc self.old.reads) }
    {
        self.reads = self.reads.saturating_add(1);
        match read {
            Ok(0) if !buffer.is_empty() => self.ends = self.ends.saturating_add(1),
            Ok(_) => {}
            Err(_) => self.failures = self.failures.saturating_add(1),
        }
    }
}

/// How many writes have failed after one more.
pub(crate) fn failures_after(failures: u64, write: &io::Result<usize>) -> u64
    ensures { (w : Writing) (bytes : List ℕ) → IsCount failures w.failures
        → IsCount result (after_write w write.now bytes).failures }
{
    match write {
        Ok(count) if *count > 0 => failures,
        _ => failures.saturating_add(1),
    }
}
