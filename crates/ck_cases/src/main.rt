//! Plays files of recorded calls, compares the replies that come with those that are recorded, and
//! audits the journals. A line is written for each of the first lines that differ or are bad, and
//! one that counts the lines of the file. A call, a cut or an audit that finds no memory is made
//! again, and the count says how many times.
#![tactic(auto)]

mod arguments;
mod cases;
mod files;
mod findings;
mod limits;
mod lines;
mod outcomes;
mod reports;
mod retries;
mod shown;
mod statuses;

use arguments::{ArgumentError, Request, request_of};
use cases::{Output, PlayOptions, play_text};
use files::{FileError, read_file, text_of};
use statuses::Status;
use std::env::Env;
use std::fs::Files;
use std::process::ExitCode;
use std::{env, io};

/// Plays the lines of the file of this name, which has these bytes.
fn play_bytes<R: Print + Eprint + AllocGlobal>(
    rt: &R,
    name: &str,
    bytes: &[u8],
    options: &PlayOptions,
) -> io::Result<Status> {
    let text = match text_of(bytes) {
        Ok(text) => text,
        Err(error) => return report_file_error(rt, name, &error),
    };
    match play_text(rt.alloc(), name, text, options) {
        Ok(played) => {
            eprint!(rt; "{}", played.errors)?;
            print!(rt; "{}", played.output)?;
            Ok(Status::of(played.is_right))
        }
        Err(error) => {
            match options.output {
                Output::Report => println!(rt; "{name}: {error}")?,
                Output::Replies => eprintln!(rt; "{name}: {error}")?,
            }
            Ok(Status::Wrong)
        }
    }
}

/// Writes why a file isn't read.
fn report_file_error<R: Eprint>(rt: &R, name: &str, error: &FileError) -> io::Result<Status> {
    eprintln!(rt; "ck_cases: {name}: {error}")?;
    match error {
        FileError::Memory => Ok(Status::Wrong),
        _ => Ok(Status::BadInput),
    }
}

/// Plays the file of this name.
fn play_file<R: Files + Print + Eprint + AllocGlobal>(
    rt: &R,
    name: &str,
    options: &PlayOptions,
) -> io::Result<Status> {
    match read_file(rt, name) {
        Ok(bytes) => play_bytes(rt, name, &bytes, options),
        Err(error) => report_file_error(rt, name, &error),
    }
}

/// Plays the files of these names, and gives the worst status.
fn play_files<R: Files + Print + Eprint + AllocGlobal>(
    rt: &R,
    names: &[&str],
    options: &PlayOptions,
) -> io::Result<Status> {
    let mut worst = Status::Right;
    for name in names {
        worst = worst.max(play_file(rt, name, options)?);
    }
    Ok(worst)
}

/// The arguments that the program was started with.
fn given_arguments<R: Env + AllocGlobal>(rt: &R) -> Result<Vec<String>, ArgumentError> {
    Ok(env::args(rt)?.collect(rt.alloc())?)
}

/// Writes why the arguments can't be used.
fn report_argument_error<R: Eprint>(rt: &R, error: &ArgumentError) -> io::Result<Status> {
    eprint!(rt; "{error}")?;
    match error {
        ArgumentError::Memory => Ok(Status::Wrong),
        _ => Ok(Status::BadInput),
    }
}

/// Does what the arguments ask for.
fn run<R: Env + Files + Print + Eprint + AllocGlobal>(rt: &R) -> io::Result<Status> {
    let arguments = match given_arguments(rt) {
        Ok(arguments) => arguments,
        Err(error) => return report_argument_error(rt, &error),
    };
    match request_of(rt.alloc(), &arguments) {
        Ok(Request::Play { names, options }) => play_files(rt, &names, &options),
        Ok(Request::Help(text)) => {
            print!(rt; "{text}")?;
            Ok(Status::Right)
        }
        Err(error) => report_argument_error(rt, &error),
    }
}

fn main(rt: HostRuntime) -> ExitCode {
    match run(&rt) {
        Ok(status) => ExitCode::from(status.number()),
        Err(error) => {
            // Where standard error takes nothing, the status still says it.
            let _ = eprintln!(rt; "ck_cases: {error}");
            ExitCode::FAILURE
        }
    }
}
