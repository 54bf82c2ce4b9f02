//! Files are read.
use std::alloc::Global;
use std::fs::Files;
use std::{fs, io, str};
use thiserror::Error;

/// Why a file can't be read.
#[derive(Debug, Drop, Error)]
pub(crate) enum FileError {
    #[error("out of memory")]
    Memory,
    #[error(transparent)]
    Io(io::Error),
    #[error("line {0} isn't text in UTF-8")]
    NotText(u64),
    #[error("line {0} ends with a carriage return (CR LF), and lines end with a line feed only")]
    CarriageReturn(u64),
}

impl From<io::Error> for FileError {
    fn from(error: io::Error) -> FileError {
        match error.kind() {
            io::ErrorKind::OutOfMemory => FileError::Memory,
            _ => FileError::Io(error),
        }
    }
}

/// The number of the line that follows these bytes, or that they end in.
fn line_behind(bytes: &[u8]) -> u64 {
    let ends = bytes.iter().filter(|byte| **byte == b'\n').count();
    (ends as u64).saturating_add(1)
}

/// The text of these bytes, whose lines end with a line feed only.
pub(crate) fn text_of(bytes: &[u8]) -> Result<&str, FileError> {
    let text = match str::from_utf8(bytes) {
        Ok(text) => text,
        Err(error) => {
            let front = bytes.get(..error.valid_up_to()).unwrap_or(bytes);
            return Err(FileError::NotText(line_behind(front)));
        }
    };
    match text.split('\n').position(|line| line.ends_with('\r')) {
        Some(index) => Err(FileError::CarriageReturn((index as u64).saturating_add(1))),
        None => Ok(text),
    }
}

/// The bytes of the file of this name.
pub(crate) fn read_file<R: Files + AllocGlobal>(rt: &R, name: &str) -> Result<Vec<u8>, FileError> {
    Ok(fs::read(rt, name)?)
}
