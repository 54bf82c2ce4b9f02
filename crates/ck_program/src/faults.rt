//! Why the program didn't do what it was asked.
ghost use Rattle.std.specs.Prelude.{◌≡◌};
ghost use Rattle.ck_program.specs.Faults.{argument_status_of, of_threads, program_status_of};
ghost use Rattle.ck_program.specs.declared.faults.ArgumentFault.TheVariants as argument;
ghost use Rattle.ck_program.specs.declared.faults.ProgramFault.TheVariants as fault;
ghost use Rattle.ck_program.specs.declared.faults.ThreadFault.TheVariants as threads;

use crate::options::BadArguments;
use ck_plays::PlayFault;
use ck_types::NoMemory;
use std::alloc::{AllocError, AllocFailed};
use std::io;
use thiserror::Error;

/// Why callers in threads didn't make all their calls.
#[derive(Drop)]
pub(crate) enum ThreadFault {
    Memory,
    /// No thread could be made for a caller.
    NotStarted,
}

impl From<NoMemory> for ThreadFault {
    ghost from_gives = { λ _ made. made ≡ threads.Memory };

    fn from(_error: NoMemory) -> ThreadFault {
        ThreadFault::Memory
    }
}

impl From<AllocError> for ThreadFault {
    ghost from_gives = { λ _ made. made ≡ threads.Memory };

    fn from(_error: AllocError) -> ThreadFault {
        ThreadFault::Memory
    }
}

impl<T: Drop> From<AllocFailed<T>> for ThreadFault {
    ghost from_gives = { λ _ made. made ≡ threads.Memory };

    fn from(_error: AllocFailed<T>) -> ThreadFault {
        ThreadFault::Memory
    }
}

/// Why the program didn't do what its options say.
#[derive(Debug, Drop, Error)]
pub enum ProgramFault {
    /// Reading or writing stopped, or a line is bad, or there was no memory.
    #[error(transparent)]
    Play(PlayFault),
    /// No thread could be made for a caller.
    #[error("thread not started")]
    Thread,
}

impl From<PlayFault> for ProgramFault {
    ghost from_gives = { λ play made. made ≡ fault.Play play };

    fn from(play: PlayFault) -> ProgramFault {
        ProgramFault::Play(play)
    }
}

impl From<ThreadFault> for ProgramFault {
    ghost from_gives = { λ threads made. made ≡ of_threads threads };

    fn from(fault: ThreadFault) -> ProgramFault {
        match fault {
            ThreadFault::Memory => ProgramFault::Play(PlayFault::Memory),
            ThreadFault::NotStarted => ProgramFault::Thread,
        }
    }
}

impl ProgramFault {
    /// The status with which the program ends after the fault: 1 for a bad line, else 3.
    pub fn status(&self) -> u8
        ensures { result ≡ program_status_of self.now }
    {
        match self {
            ProgramFault::Play(play) => play.status(),
            ProgramFault::Thread => 3,
        }
    }
}

/// Why there are no options: the arguments are bad, or there was no memory.
#[derive(Debug, Drop, Error)]
pub enum ArgumentFault {
    #[error("bad arguments: {0}")]
    Bad(BadArguments),
    /// There was no memory to read them.
    #[error("out of memory")]
    Memory,
}

impl From<io::Error> for ArgumentFault {
    fn from(error: io::Error) -> ArgumentFault {
        match error.kind() {
            io::ErrorKind::OutOfMemory => ArgumentFault::Memory,
            // Only an argument that isn't text is another error.
            _ => ArgumentFault::Bad(BadArguments::NotText),
        }
    }
}

impl From<AllocError> for ArgumentFault {
    ghost from_gives = { λ _ made. made ≡ argument.Memory };

    fn from(_error: AllocError) -> ArgumentFault {
        ArgumentFault::Memory
    }
}

impl ArgumentFault {
    /// The status with which the program ends after the fault: 2 for bad arguments, else 3.
    pub fn status(&self) -> u8
        ensures { result ≡ argument_status_of self.now }
    {
        match self {
            ArgumentFault::Bad(_) => 2,
            ArgumentFault::Memory => 3,
        }
    }
}
