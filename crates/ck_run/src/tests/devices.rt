//! Devices in memory, and what is written to them while a script is played.
use ck_plays::{MemorySink, MemorySource, PlayFault, play_with};
use ck_token::{Limits, Token};
use std::alloc::Global;
use std::process::Abort;

/// How devices in memory move bytes, and which of their reads and writes fail.
#[derive(Clone, Copy)]
pub(crate) struct Devices {
    /// The most bytes of a read and of a write.
    pub(crate) most_bytes: usize,
    pub(crate) read_fails_at: Option<u64>,
    pub(crate) write_fails_at: Option<u64>,
    pub(crate) write_stops_at: Option<u64>,
    /// The most reads.
    pub(crate) most_reads: u64,
}

impl Devices {
    /// Devices that never fail.
    pub(crate) fn of(most_bytes: usize) -> Devices {
        Devices {
            most_bytes,
            read_fails_at: None,
            write_fails_at: None,
            write_stops_at: None,
            most_reads: 1_000,
        }
    }

    pub(crate) fn reader<'a>(&self, script: &'a [u8]) -> MemorySource<'a> {
        MemorySource::new(script, self.most_bytes, self.read_fails_at)
    }

    pub(crate) fn writer(&self, alloc: Global) -> MemorySink {
        MemorySink::new(
            alloc,
            self.most_bytes,
            self.write_fails_at,
            self.write_stops_at,
        )
    }
}

/// How playing ends. Of a bad line only the number counts.
#[derive(Clone, Copy, Debug, PartialEq)]
pub(crate) enum End {
    Played,
    Line(u64),
    Read,
    Write,
    Memory,
    Endless,
}

/// How playing ends with this result.
fn end_of(played: Result<(), PlayFault>) -> End {
    match played {
        Ok(()) => End::Played,
        Err(PlayFault::Line(number, _)) => End::Line(number),
        Err(PlayFault::Read) => End::Read,
        Err(PlayFault::Write) => End::Write,
        Err(PlayFault::Memory) => End::Memory,
        Err(PlayFault::Turns) => End::Endless,
    }
}

/// Plays a script, and says how that ends.
fn play(alloc: Global, script: &[u8], devices: Devices, writer: &mut MemorySink) -> End {
    let limits = Limits::largest();
    let mut reader = devices.reader(script);
    end_of(play_with::<Token, _, _>(alloc, limits, &mut reader, writer, devices.most_reads))
}

/// Plays a script: these replies are written, and playing ends so.
pub(crate) fn check_play(
    rt: &impl Abort,
    alloc: Global,
    script: &[u8],
    devices: Devices,
    replies: &[u8],
    end: End,
) {
    let mut writer = devices.writer(alloc);
    let ended = play(alloc, script, devices, &mut writer);
    assert!(rt;
        writer.as_slice() == replies && ended == end,
        "{script:?}: {ended:?}"
    );
}

/// Plays a script that is a text: these replies are written, and playing ends so.
pub(crate) fn check_script(
    rt: &impl Abort,
    alloc: Global,
    devices: Devices,
    (script, replies, end): (&str, &str, End),
) {
    let (script, replies) = (script.as_bytes(), replies.as_bytes());
    check_play(rt, alloc, script, devices, replies, end);
}
