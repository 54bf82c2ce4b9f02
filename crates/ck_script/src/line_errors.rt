ghost use Rattle.std.specs.Prelude.{◌≡◌};
ghost use Rattle.ck_script.specs.declared.line_errors.LineError.TheVariants.{Memory, Bad};

use crate::call_names::{Arity, CallName};
use crate::lines::LONGEST_LINE;
use ck_journal::MOST_CALLERS;
use ck_types::NoMemory;
use std::alloc::{AllocError, AllocFailed};
use thiserror::Error;

/// Why a text is no number.
#[derive(Clone, Copy, Debug, PartialEq, Eq, Error)]
pub enum NumberError {
    #[error("a number is written in decimal digits")]
    NotDecimal,
    #[error("a code number is written in the digits 0 to 9 and a to f, without 0x")]
    NotHexadecimal,
    #[error("a number has no leading zero")]
    LeadingZero,
    #[error("a number is below 2^64")]
    TooLarge,
}

/// Why a line is not a line of a script. Where a line has several faults, one of them is named.
#[derive(Clone, Copy, Debug, PartialEq, Eq, Error)]
pub enum BadLine {
    #[error("a line has at most {LONGEST_LINE} bytes")]
    TooLong,
    /// There is a control character in the line.
    #[error("the line isn't text")]
    NotText,
    #[error("a byte order mark stands before the line")]
    ByteOrderMark,
    #[error("a carriage return stands at the end of the line")]
    CarriageReturn,
    #[error("there is a tab in the line: single spaces separate its words")]
    Tab,
    #[error("there are two spaces in a row, or one at an end of the line: \
        single spaces separate its words")]
    Space,
    #[error("a line is a caller, a call and its arguments")]
    NoCall,
    #[error("the caller is a number from 1 to {MOST_CALLERS}")]
    UnknownCaller,
    /// A caller above this number, up to which callers play the script.
    #[error("the caller is a number from 1 to {0}")]
    CallerAbove(u32),
    #[error("no call has this name")]
    UnknownCall,
    /// The call that was probably meant.
    #[error("no call has this name, the nearest is {0}")]
    MisspelledCall(CallName),
    #[error("{0} takes {1}")]
    ArgumentCount(CallName, Arity),
    #[error(transparent)]
    Number(#[from] NumberError),
    #[error("bytes are written in two hexadecimal digits each, and no bytes as -")]
    Bytes,
    #[error("a mechanism is written as type, or with its parameter as type:bytes")]
    Mechanism,
    #[error("a template is written as type=bytes,.. and an empty one as -")]
    Item,
    #[error("queries are written as type:room,.. and none as -")]
    Query,
}

/// Why a line wasn't read.
#[derive(Clone, Copy, Debug, PartialEq, Eq, Error)]
pub enum LineError {
    #[error("out of memory")]
    Memory,
    #[error(transparent)]
    Bad(BadLine),
}

impl From<BadLine> for LineError {
    ghost from_gives = { λ reason e. e ≡ Bad reason };

    fn from(reason: BadLine) -> LineError {
        LineError::Bad(reason)
    }
}

impl From<NoMemory> for LineError {
    ghost from_gives = { λ _ e. e ≡ Memory };

    fn from(_error: NoMemory) -> LineError {
        LineError::Memory
    }
}

impl From<AllocError> for LineError {
    ghost from_gives = { λ _ e. e ≡ Memory };

    fn from(_error: AllocError) -> LineError {
        LineError::Memory
    }
}

impl<T: Drop> From<AllocFailed<T>> for LineError {
    ghost from_gives = { λ _ e. e ≡ Memory };

    fn from(_error: AllocFailed<T>) -> LineError {
        LineError::Memory
    }
}
