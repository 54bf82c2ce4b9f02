//! Single reads of a source, and scripts that are read whole.
ghost use Rattle.std.specs.Prelude.{◌≡◌, ◌<◌, ◌≤◌, ◌==◌, [], length, take, IfOk, IfErr, OnErr};
ghost use Rattle.std.specs.Prelude.{Ok, if◌then◌else◌};
ghost use Rattle.ck_plays.specs.Devices.{Reading, end_read, failed_read, read_on};
ghost use Rattle.ck_plays.specs.Readings.{IsReadWhole, IsUnread};

use crate::devices::Source;
use crate::faults::PlayFault;
use ck_types::NoMemory;
use std::alloc::Global;

/// How many bytes one read asks for.
const CHUNK: usize = 65_536;

/// Room for the bytes of one read.
pub(crate) fn new_buffer(alloc: Global) -> Result<Vec<u8>, NoMemory>
    ensures { IfOk result (λ buffer. length buffer.items ≡ CHUNK) }
{
    let buffer = vec![in alloc; 0u8; CHUNK]?;
    Ok(buffer)
}

/// Reads once, or answers that the reader failed. No bytes are the end.
pub(crate) fn read_some<R: Source>(reader: &mut R, buffer: &mut [u8]) -> Result<usize, PlayFault>
    requires room { 0 < length buffer.old }
    ensures bound { IfOk result (λ count. count ≤ length buffer.new) }
    ensures ok { IfOk result (λ count. (r : Reading) → R.is_read reader.old r
        → R.is_read reader.new
        (if count == 0 then end_read r else read_on r (take count buffer.new))) }
    ensures fault { IfErr result (λ fault. fault ≡ PlayFault.Read) }
    ensures err { OnErr result ((r : Reading) → R.is_read reader.old r
        → R.is_read reader.new (failed_read r)) }
{
    reader.read(buffer).map_err(|_| PlayFault::Read)
}

/// Reads a source to its end, in at most `most` reads.
fn read_to_end<R: Source>(
    reader: &mut R,
    script: &mut Vec<u8>,
    buffer: &mut [u8],
    most: u64,
) -> Result<(), PlayFault>
    requires room { 0 < length buffer.old }
    requires none { script.old.items ≡ [] }
    ensures { (read : Reading) → R.is_read reader.old read
        → IsReadWhole most read (R.is_read reader.new) script.new.items result }
{
    // The label is the loop's name in the proofs.
    'reading: for _read in 0..most {
        let count = read_some(reader, buffer)?;
        if count == 0 {
            return Ok(());
        }
        script.extend_from_slice(&buffer[..count])?;
    }
    Err(PlayFault::Turns)
}

/// Reads a script whole, in at most `most` reads.
pub(crate) fn read_script<R: Source>(
    alloc: Global,
    reader: &mut R,
    most: u64,
) -> Result<Vec<u8>, PlayFault>
    ensures ok { IfOk result (λ script. (read : Reading) → R.is_read reader.old read
        → IsReadWhole most read (R.is_read reader.new) script.items (Ok tt)) }
    ensures err { IfErr result (λ fault. (read : Reading) → R.is_read reader.old read
        → IsUnread most read (R.is_read reader.new) fault) }
{
    let mut buffer = new_buffer(alloc)?;
    let mut script = Vec::new(alloc);
    read_to_end(reader, &mut script, &mut buffer, most)?;
    Ok(script)
}
