//! A source and a sink in memory, which fail where they are asked to. Only tests use them. They are
//! public, since the tests stand in ck_run.
use crate::counts::{ReadCounts, failures_after};
use crate::devices::{Sink, Source};
use std::alloc::Global;
use std::io::{self, Read};

/// A script in memory. Numbers of reads are counted from 1.
#[derive(Drop)]
pub struct MemorySource<'a> {
    rest: &'a [u8],
    most: usize,
    fails_at: Option<u64>,
    counts: ReadCounts,
}

impl<'a> MemorySource<'a> {
    ghost use Rattle.std.specs.Prelude.{◌≡◌, ◌≤◌, ◌↔◌, ℕ, suc, List, [], Some, IfOk, IsErr};
    ghost use Rattle.std.specs.Prelude.{length, max, min};
    ghost use Rattle.std.specs.Io.KnownBytes.{ReadConsumes};
    ghost use Rattle.ck_plays.specs.Devices.{Reading, IsCount};

    /// A source that gives at most `most` bytes a read, and one at least where some are left. The
    /// read of number `fails_at` fails.
    pub fn new(script: &'a [u8], most: usize, fails_at: Option<u64>) -> MemorySource<'a>
        ensures reading { (earlier : List ℕ) → ⟦<MemorySource<'a> as Source>⟧.is_read result
            (record {
              script = Some script.now;
              bytes = [];
              earlier = earlier;
              reads = 0;
              ends = 0;
              failures = 0;
            }) }
        ensures most { result.most ≡ most }
        ensures fails_at { result.fails_at ≡ fails_at }
    {
        MemorySource {
            rest: script,
            most,
            fails_at,
            counts: ReadCounts::new(),
        }
    }

    /// Gives the first bytes of what is left, or fails where this read is to fail.
    fn give(&mut self, buffer: &mut [u8]) -> io::Result<usize>
        ensures bound { IfOk result (λ count. count ≤ length buffer.new) }
        ensures given { ReadConsumes (Some self.old.rest.now) (Some self.new.rest.now)
            result buffer.new }
        ensures most { IfOk result (λ count. count ≤ max self.new.most 1) }
        ensures failing { IsErr result
            ↔ (Some (min (suc self.old.counts.reads) 18446744073709551615) ≡ self.new.fails_at) }
        ensures set { (self.new.most ≡ self.old.most) × (self.new.fails_at ≡ self.old.fails_at)
            × (self.new.counts ≡ self.old.counts) }
    {
        if Some(self.counts.reads.saturating_add(1)) == self.fails_at {
            return Err(io::Error::from(io::ErrorKind::Other));
        }
        let count = buffer.len().min(self.most.max(1));
        self.rest.read(&mut buffer[..count])
    }

    /// How many reads were made.
    pub fn reads(&self) -> u64
        ensures { (r : Reading) → ⟦<MemorySource<'a> as Source>⟧.is_read self.now r
            → IsCount result r.reads }
    {
        self.counts.reads
    }
}

impl<'a> Source for MemorySource<'a> {
    ghost use Rattle.std.specs.Prelude.{◌≡◌, ◌≤◌, ◌↔◌, length, max, IfOk, IsErr, Some};
    ghost use Rattle.ck_plays.specs.Devices.{Reading, IsReadOf, after_read};

    ghost is_read = { λ s r. IsReadOf (Some s.rest.now) s.counts r };

    fn read(&mut self, buffer: &mut [u8]) -> io::Result<usize>
        ensures bound { IfOk result (λ count. count ≤ length buffer.new) }
        ensures reading { (r : Reading) → ⟦<MemorySource<'a> as Source>⟧.is_read self.old r
            → ⟦<MemorySource<'a> as Source>⟧.is_read self.new (after_read r result buffer.new) }
        ensures most { IfOk result (λ count. count ≤ max self.new.most 1) }
        ensures failing { IsErr result ↔ (Some self.new.counts.reads ≡ self.new.fails_at) }
        ensures set { (self.new.most ≡ self.old.most) × (self.new.fails_at ≡ self.old.fails_at) }
    {
        let read = self.give(buffer);
        self.counts.count(&read, buffer);
        read
    }
}

/// Replies in memory. Numbers of writes are counted from 1.
#[derive(Drop)]
pub struct MemorySink {
    bytes: Vec<u8>,
    most: usize,
    fails_at: Option<u64>,
    stops_at: Option<u64>,
    writes: u64,
    // Only contracts read it: how many writes failed or took no byte.
    failures: u64,
}

impl MemorySink {
    ghost use Rattle.std.specs.Prelude.{◌≡◌, [], true};
    ghost use Rattle.ck_plays.specs.Devices.{Writing};

    /// A sink that takes at most `most` bytes a write. The write of number `fails_at` fails, and
    /// that of number `stops_at` takes no byte.
    pub fn new(
        alloc: Global,
        most: usize,
        fails_at: Option<u64>,
        stops_at: Option<u64>,
    ) -> MemorySink
        ensures writing { ⟦<MemorySink as Sink>⟧.is_written result
            (record { is_known = true; bytes = []; failures = 0 }) }
        ensures writes { result.writes ≡ 0 }
        ensures most { result.most ≡ most }
        ensures fails_at { result.fails_at ≡ fails_at }
        ensures stops_at { result.stops_at ≡ stops_at }
    {
        MemorySink {
            bytes: Vec::new(alloc),
            most,
            fails_at,
            stops_at,
            writes: 0,
            failures: 0,
        }
    }

    /// What was written.
    pub fn as_slice(&self) -> &[u8]
        ensures { (w : Writing) → ⟦<MemorySink as Sink>⟧.is_written self.now w
            → w.is_known ≡ true → result.now ≡ w.bytes }
    {
        &self.bytes
    }
}

impl Sink for MemorySink {
    ghost use Rattle.std.specs.Prelude.{◌≡◌, ◌≤◌, ◌<◌, ◌+◌, ◌⊎◌, suc, length, IfOk, IsErr};
    ghost use Rattle.std.specs.Prelude.{OnErr, Some, vec_len, vec_capacity};
    ghost use Rattle.ck_plays.specs.Devices.{Writing, after_write, IsCount, IsWrittenTo};
    ghost use Rattle.ck_plays.specs.MemoryDevices.{count_taken};

    ghost is_written = { λ s w. IsWrittenTo (Some s.bytes.items) s.failures w };

    fn write(&mut self, bytes: &[u8]) -> io::Result<usize>
        requires some { 0 < length bytes.now }
        ensures bound { IfOk result (λ count. count ≤ length bytes.now) }
        ensures writing { (w : Writing) → ⟦<MemorySink as Sink>⟧.is_written self.old w
            → ⟦<MemorySink as Sink>⟧.is_written self.new (after_write w result bytes.now) }
        ensures counted { IsCount self.new.writes (suc self.old.writes) }
        ensures failing { Some self.new.writes ≡ self.new.fails_at → IsErr result }
        ensures stopping { Some self.new.writes ≡ self.new.stops_at
            → IfOk result (λ count. count ≡ 0) }
        ensures most { IfOk result (λ count. count ≡
            count_taken (length bytes.now) self.new.most self.new.stops_at self.new.writes) }
        ensures err { OnErr result ((Some self.new.writes ≡ self.new.fails_at)
            ⊎ (vec_capacity self.old.bytes < vec_len self.old.bytes
            + count_taken (length bytes.now) self.new.most self.new.stops_at self.new.writes)) }
        ensures set { (self.new.most ≡ self.old.most) × (self.new.fails_at ≡ self.old.fails_at)
            × (self.new.stops_at ≡ self.old.stops_at) }
    {
        self.writes = self.writes.saturating_add(1);
        let count = if Some(self.writes) == self.stops_at {
            0
        } else {
            bytes.len().min(self.most)
        };
        let fails = Some(self.writes) == self.fails_at
            || self.bytes.extend_from_slice(&bytes[..count]).is_err();
        let write = if fails {
            Err(io::Error::from(io::ErrorKind::Other))
        } else {
            Ok(count)
        };
        self.failures = failures_after(self.failures, &write);
        write
    }
}
