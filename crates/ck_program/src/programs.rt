//! The program over any options, reader and writer.
ghost use Rattle.std.specs.Prelude.{◌≡◌, ◌⊎◌, ◌↔◌, Ok, Err, OnErr};
ghost use Rattle.ck_plays.specs.Devices.{Reading, Writing};
ghost use Rattle.ck_program.specs.Faults.{program_status_of};
ghost use Rattle.ck_program.specs.Programs.{AreBad, IsCarriedOut, IsPlay, IsStatus};
ghost use Rattle.ck_program.specs.ThreadPlays.{IsPlayedInThreads};
ghost use Rattle.ck_program.specs.declared.faults.ProgramFault.{ProgramFault};

use crate::faults::{ArgumentFault, ProgramFault};
use crate::options::{Callers, Options};
use crate::thread_plays::play_calls;
use ck_journal::JournaledToken;
use ck_plays::{MOST_READS, ReadSource, Sink, Source, WriteSink, play, read_calls, write_all};
use ck_shared::Runtime;
use ck_types::Limits;
use std::alloc::Global;
use std::io;

/// Reads a script whole in at most `most` reads, plays the lines of these callers on a new token,
/// those of each in a thread of its own, and writes how many entries the journal has and what its
/// audit finds.
pub fn play_threads<T: JournaledToken + Send, R: Source, W: Sink, RT: Runtime>(
    rt: RT,
    alloc: Global,
    limits: Limits,
    callers: Callers,
    reader: &mut R,
    writer: &mut W,
    most: u64,
) -> Result<(), ProgramFault>
    ensures { (read : Reading) (written : Writing)
        → R.is_read reader.old read → W.is_written writer.old written
        → IsPlayedInThreads limits callers.count most read written
        (R.is_read reader.new) (W.is_written writer.new) result }
{
    let calls = read_calls(alloc, reader, callers.count, most)?;
    let summary = play_calls::<T, RT>(rt, alloc, limits, callers, &calls)?;
    write_all(writer, summary.as_bytes())?;
    Ok(())
}

/// Does what the options say with the largest limits.
fn play_options<T: JournaledToken + Send, R: Source, W: Sink, RT: Runtime>(
    rt: RT,
    alloc: Global,
    options: Options,
    reader: &mut R,
    writer: &mut W,
) -> Result<(), ProgramFault>
    ensures { (read : Reading) (written : Writing)
        → R.is_read reader.old read → W.is_written writer.old written
        → IsCarriedOut options read written
        (R.is_read reader.new) (W.is_written writer.new) result }
{
    let limits = Limits::largest();
    match options {
        Options::LineByLine => play::<T, R, W>(alloc, limits, reader, writer)?,
        Options::InThreads(callers) => {
            play_threads::<T, R, W, RT>(rt, alloc, limits, callers, reader, writer, MOST_READS)?
        }
        Options::Help(text) => write_all(writer, text.as_bytes())?,
    }
    Ok(())
}

/// Does what the options say with the largest limits, and says with which status the program ends:
/// 0 where it was done, 1 at a bad line, 3 after another fault, and 2 where the arguments are bad.
/// What went wrong is said on standard error.
pub fn run<T: JournaledToken + Send, R: Source, W: Sink, RT: Eprint + Runtime>(
    rt: RT,
    alloc: Global,
    options: Result<Options, ArgumentFault>,
    reader: &mut R,
    writer: &mut W,
) -> u8
    ensures status { IsStatus result }

    // Bad arguments, or no memory to read them: nothing is read or written.
    ensures bad_arguments { result ≡ 2 ↔ AreBad options }
    ensures without_memory { options ≡ Err ArgumentFault.Memory → result ≡ 3 }
    ensures untouched { OnErr options
        ((reader.new ≡ reader.old) × (writer.new ≡ writer.old)) }

    // What they ask for: it is done, or stopped by a fault.
    ensures played { (chosen : Options) → options ≡ Ok chosen → result ≡ 0
        → (read : Reading) (written : Writing)
        → R.is_read reader.old read → W.is_written writer.old written
        → IsCarriedOut chosen read written
        (R.is_read reader.new) (W.is_written writer.new) (Ok tt) }
    ensures stopped { (chosen : Options) → options ≡ Ok chosen → (result ≡ 1) ⊎ (result ≡ 3)
        → (fault : ProgramFault) × (program_status_of fault ≡ result)
        × ((read : Reading) (written : Writing)
        → R.is_read reader.old read → W.is_written writer.old written
        → IsCarriedOut chosen read written
        (R.is_read reader.new) (W.is_written writer.new) (Err fault)) }
{
    // Where standard error takes nothing, the status still says what came of it.
    match options {
        Ok(options) => match play_options::<T, R, W, RT>(rt, alloc, options, reader, writer) {
            Ok(()) => 0,
            Err(fault) => {
                let _ = eprintln!(&rt; "ck_run: {fault}");
                fault.status()
            }
        },
        Err(argument_fault) => {
            let _ = eprintln!(&rt; "ck_run: {argument_fault}");
            argument_fault.status()
        }
    }
}

/// Does what `run` does, with a reader and a writer of std that haven't been used. It need not be
/// known which bytes they give and hold: of these the contract says only what was counted.
pub fn run_on_std<T: JournaledToken + Send, R: io::Read, W: io::Write, RT: Eprint + Runtime>(
    rt: RT,
    alloc: Global,
    options: Result<Options, ArgumentFault>,
    reader: &mut ReadSource<R>,
    writer: &mut WriteSink<W>,
) -> u8
    requires unread { reader.old.counts ≡ record { reads = 0; ends = 0; failures = 0 } }
    requires unwritten { writer.old.failures ≡ 0 }
    ensures status { IsStatus result }

    // Bad arguments, or no memory to read them: nothing is read or written.
    ensures bad_arguments { result ≡ 2 ↔ AreBad options }
    ensures without_memory { options ≡ Err ArgumentFault.Memory → result ≡ 3 }
    ensures untouched { OnErr options
        ((reader.new ≡ reader.old) × (writer.new ≡ writer.old)) }

    // What they ask for: it is done, or stopped by a fault.
    ensures end_found { (chosen : Options) → options ≡ Ok chosen → IsPlay chosen → result ≡ 0
        → (reader.new.counts.ends ≡ 1) × (reader.new.counts.failures ≡ 0) }
    ensures all_written { (chosen : Options) → options ≡ Ok chosen → result ≡ 0
        → writer.new.failures ≡ 0 }
    ensures stopped { (chosen : Options) → options ≡ Ok chosen → (result ≡ 1) ⊎ (result ≡ 3)
        → (fault : ProgramFault) × (program_status_of fault ≡ result)
        × ((read : Reading) (written : Writing)
        → ⟦<ReadSource<R> as Source>⟧.is_read reader.old read
        → ⟦<WriteSink<W> as Sink>⟧.is_written writer.old written
        → IsCarriedOut chosen read written (⟦<ReadSource<R> as Source>⟧.is_read reader.new)
        (⟦<WriteSink<W> as Sink>⟧.is_written writer.new) (Err fault)) }
{
    run::<T, ReadSource<R>, WriteSink<W>, RT>(rt, alloc, options, reader, writer)
}
