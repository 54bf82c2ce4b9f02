use crate::counts::{ReadCounts, failures_after};
use std::io;

/// Where a script comes from. It is read as std's `Read` is. Contracts see what was read of it, as
/// far as `is_read` tells.
pub trait Source {
    ghost use Rattle.std.specs.Prelude.{IfOk, ◌≤◌, length};
    ghost use Rattle.ck_plays.specs.Devices.{Reading, after_read};

    /// Whether this was read of the source up to now.
    ghost is_read: { Self → Reading → Type 0 };

    /// Reads into the buffer's beginning and says how many bytes it read, 0 at the end.
    fn read(&mut self, buffer: &mut [u8]) -> io::Result<usize>
        ensures bound { IfOk result (λ count. count ≤ length buffer.new) }
        ensures reading { (r : Reading) → is_read self.old r
            → is_read self.new (after_read r result buffer.new) };
}

/// Where replies go. It is written as std's `Write` is. Contracts see what was written to it, as
/// far as `is_written` tells.
pub trait Sink {
    ghost use Rattle.std.specs.Prelude.{IfOk, ◌<◌, ◌≤◌, length};
    ghost use Rattle.ck_plays.specs.Devices.{Writing, after_write};

    /// Whether this was written to the sink up to now.
    ghost is_written: { Self → Writing → Type 0 };

    /// Takes some of the first bytes and says how many it took. It is never asked to take none.
    fn write(&mut self, bytes: &[u8]) -> io::Result<usize>
        requires some { 0 < length bytes.now }
        ensures bound { IfOk result (λ count. count ≤ length bytes.now) }
        ensures writing { (w : Writing) → is_written self.old w
            → is_written self.new (after_write w result bytes.now) };
}

/// A reader of std. Contracts see the bytes that it is known to have left, and how many reads were
/// made, found the end, and failed.
#[derive(Drop)]
pub struct ReadSource<R> {
    reader: R,
    // Only contracts read them (counts.rt).
    counts: ReadCounts,
}

impl<R: io::Read> ReadSource<R> {
    ghost use Rattle.std.specs.Prelude.{◌≡◌, ℕ, List, []};

    /// A source of what the reader has left.
    pub fn new(reader: R) -> ReadSource<R>
        ensures counts { result.counts ≡ record { reads = 0; ends = 0; failures = 0 } }
        ensures reading { (earlier : List ℕ) → ⟦<ReadSource<R> as Source>⟧.is_read result
            (record {
              script = R.remaining reader;
              bytes = [];
              earlier = earlier;
              reads = 0;
              ends = 0;
              failures = 0;
            }) }
    {
        ReadSource {
            reader,
            counts: ReadCounts::new(),
        }
    }
}

impl<R: io::Read> Source for ReadSource<R> {
    ghost use Rattle.ck_plays.specs.Devices.{IsReadOf};

    ghost is_read = { λ s r. IsReadOf (R.remaining s.reader) s.counts r };

    fn read(&mut self, buffer: &mut [u8]) -> io::Result<usize> {
        let read = self.reader.read(buffer);
        self.counts.count(&read, buffer);
        read
    }
}

/// A writer of std. Contracts see the bytes that it is known to hold, and how many writes failed.
#[derive(Drop)]
pub struct WriteSink<W> {
    writer: W,
    // Only contracts read it (counts.rt).
    failures: u64,
}

impl<W: io::Write> WriteSink<W> {
    ghost use Rattle.std.specs.Prelude.{◌≡◌, ℕ, List, Some, true, false};

    /// A sink that writes to the writer.
    pub fn new(writer: W) -> WriteSink<W>
        ensures failures { result.failures ≡ 0 }
        ensures known { (held : List ℕ) → W.contents writer ≡ Some held
            → ⟦<WriteSink<W> as Sink>⟧.is_written result
            (record { is_known = true; bytes = held; failures = 0 }) }
        ensures unknown { (bytes : List ℕ) → ⟦<WriteSink<W> as Sink>⟧.is_written result
            (record { is_known = false; bytes = bytes; failures = 0 }) }
    {
        WriteSink {
            writer,
            failures: 0,
        }
    }
}

impl<W: io::Write> Sink for WriteSink<W> {
    ghost use Rattle.ck_plays.specs.Devices.{IsWrittenTo};

    ghost is_written = { λ s w. IsWrittenTo (W.contents s.writer) s.failures w };

    fn write(&mut self, bytes: &[u8]) -> io::Result<usize> {
        let write = self.writer.write(bytes);
        self.failures = failures_after(self.failures, &write);
        write
    }
}
