ghost use Rattle.std.specs.Prelude.{◌≡◌};
ghost use Rattle.ck_plays.specs.declared.faults.PlayFault.TheVariants.{Memory};
ghost use Rattle.ck_plays.specs.Faults.{status_of};

use ck_script::BadLine;
use ck_types::NoMemory;
use std::alloc::{AllocError, AllocFailed};
use thiserror::Error;

/// Why a script wasn't played to its end.
#[derive(Debug, Drop, Error)]
pub enum PlayFault {
    /// The first bad line, from 1, and why it is bad.
    #[error("line {0}: bad script: {1}")]
    Line(u64, BadLine),
    #[error("read fault")]
    Read,
    #[error("write fault")]
    Write,
    #[error("out of memory")]
    Memory,
    /// The reader didn't come to its end in as many reads as it may take ("turns").
    #[error("reader does not end")]
    Turns,
}

impl From<NoMemory> for PlayFault {
    ghost from_gives = { λ _ e. e ≡ Memory };

    fn from(_error: NoMemory) -> PlayFault {
        PlayFault::Memory
    }
}

impl From<AllocError> for PlayFault {
    ghost from_gives = { λ _ e. e ≡ Memory };

    fn from(_error: AllocError) -> PlayFault {
        PlayFault::Memory
    }
}

impl<T: Drop> From<AllocFailed<T>> for PlayFault {
    ghost from_gives = { λ _ e. e ≡ Memory };

    fn from(_error: AllocFailed<T>) -> PlayFault {
        PlayFault::Memory
    }
}

impl PlayFault {
    /// The status with which the program ends after the fault: 1 for a bad line, else 3.
    pub fn status(&self) -> u8
        ensures { result ≡ status_of self.now }
    {
        match self {
            PlayFault::Line(_, _) => 1,
            PlayFault::Read | PlayFault::Write | PlayFault::Memory | PlayFault::Turns => 3,
        }
    }
}
