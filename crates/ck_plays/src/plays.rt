//! Scripts that are read from a source, and answered to a sink.
ghost use Rattle.std.specs.Prelude.{◌<◌, length, IfOk, IfErr};
ghost use Rattle.ck_types.specs.TokenLimits.{Ranges};
ghost use Rattle.ck_plays.specs.Devices.{Reading, Writing};
ghost use Rattle.ck_plays.specs.Players.{IsReading, AnswersRead, StopsInRead};
ghost use Rattle.ck_plays.specs.Plays.{IsPlayed, most_reads};

use crate::devices::{Sink, Source};
use crate::faults::PlayFault;
use crate::players::Player;
use crate::readings::{new_buffer, read_some};
use ck_journal::JournaledToken;
use ck_types::Limits;
use std::alloc::Global;

/// The most reads of a script, 2^32. There is a bound, since it is proved that playing ends, and a
/// source may have no end.
pub const MOST_READS: u64 = 4_294_967_296;

/// Plays a script on a new token, in at most 2^32 reads.
pub fn play<T: JournaledToken, R: Source, W: Sink>(
    alloc: Global,
    limits: Limits,
    reader: &mut R,
    writer: &mut W,
) -> Result<(), PlayFault>
    ensures { (read : Reading) (written : Writing)
        → R.is_read reader.old read → W.is_written writer.old written
        → IsPlayed limits most_reads read written
        (R.is_read reader.new) (W.is_written writer.new) result }
{
    play_with::<T, R, W>(alloc, limits, reader, writer, MOST_READS)
}

/// Plays a script on a new token: one call after the other as the lines stand. Before it reads on,
/// it answers all lines that have their ends, and before it makes a call, it has written the
/// replies to those before. It makes at most `most` reads.
pub fn play_with<T: JournaledToken, R: Source, W: Sink>(
    alloc: Global,
    limits: Limits,
    reader: &mut R,
    writer: &mut W,
    most: u64,
) -> Result<(), PlayFault>
    ensures { (read : Reading) (written : Writing)
        → R.is_read reader.old read → W.is_written writer.old written
        → IsPlayed limits most read written
        (R.is_read reader.new) (W.is_written writer.new) result }
{
    let mut buffer = new_buffer(alloc)?;
    let mut player = Player::<T>::new(alloc, limits);
    play_on(&mut player, alloc, reader, writer, &mut buffer, most)
}

/// Reads and answers until the source ends, in at most `most` reads.
fn play_on<T: JournaledToken, R: Source, W: Sink>(
    player: &mut Player<T>,
    alloc: Global,
    reader: &mut R,
    writer: &mut W,
    buffer: &mut [u8],
    most: u64,
) -> Result<(), PlayFault>
    requires room { 0 < length buffer.old }
    ensures { (limits : Ranges) (read : Reading) (written : Writing)
        → IsReading limits read written 0 player.old
        (R.is_read reader.old) (W.is_written writer.old)
        → IsPlayed limits most read written
        (R.is_read reader.new) (W.is_written writer.new) result }
{
    // The label is the loop's name in the proofs.
    'reading: for _read in 0..most {
        if answer_read(player, alloc, reader, writer, buffer)? {
            return Ok(());
        }
    }
    Err(PlayFault::Turns)
}

/// Reads once and answers the lines that this ends. Says whether it found the end.
fn answer_read<T: JournaledToken, R: Source, W: Sink>(
    player: &mut Player<T>,
    alloc: Global,
    reader: &mut R,
    writer: &mut W,
    buffer: &mut [u8],
) -> Result<bool, PlayFault>
    requires room { 0 < length buffer.old }
    ensures ok { IfOk result (AnswersRead player.old (R.is_read reader.old)
        (W.is_written writer.old)
        player.new (R.is_read reader.new) (W.is_written writer.new)) }
    ensures err { IfErr result (StopsInRead player.old (R.is_read reader.old)
        (W.is_written writer.old) (R.is_read reader.new) (W.is_written writer.new)) }
{
    let count = read_some(reader, buffer)?;
    if count == 0 {
        player.end_line(alloc, writer)?;
        return Ok(true);
    }
    player.answer_chunk(alloc, writer, &buffer[..count])?;
    Ok(false)
}
