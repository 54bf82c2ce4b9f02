//! What the program's arguments ask for.
use crate::cases::{Output, PlayOptions};
use crate::limits::{LimitsError, limits_in};
use ck_token::Limits;
use clap::error::ErrorKind;
use clap::{Arg, ArgAction, ArgMatches, Command, value_parser};
use std::alloc::{AllocError, Global};
use std::io;
use thiserror::Error;

/// The most findings of a file that are written, where no other number is given.
const MOST_FINDINGS: &str = "100";

/// What stands at the end of the help.
const EXAMPLE: &str = "\
Example: a file token.cases with a recorded run

  # Bytes are hexadecimal: 31323334 is the text 1234. This line is skipped.
  limits largest
  1 InitToken 31323334 -> 0
  1 OpenSession 6 -> 0 1
  1 Login 1 1 393939 -> 0

A line 'limits' begins a new token: 'limits largest', or four numbers as in
'limits 64 1000 1000 1000'. Each other line is a caller, a call and its arguments,
and behind the arrow the recorded reply, if there is one. 'ck_cases token.cases'
makes the calls on a new token and writes

  token.cases: line 5: 1 Login 1 1 393939: got 102 CKR_USER_PIN_NOT_INITIALIZED, expected 0 CKR_OK
  token.cases: 2 passed, 1 differ

To play the run with other limits, and to keep it with the replies that come:

  ck_cases --limits 2,1000,1000,1000 token.cases
  ck_cases --replies token.cases > kept.cases

The status is 0 where all is as recorded, 1 where a line differs or is bad, and 2
where the arguments are bad or a file can't be read.";

/// What the program is asked to do.
#[derive(Drop)]
pub(crate) enum Request<'a> {
    /// To play the files of these names.
    Play {
        names: Vec<&'a str>,
        options: PlayOptions,
    },
    /// To write this text on how it is used.
    Help(String),
}

/// Why the arguments can't be used. Each text has its line end, as those of clap have.
#[derive(Debug, Drop, Error)]
pub(crate) enum ArgumentError {
    #[error("error: out of memory\n")]
    Memory,
    #[error("error: an argument isn't text in UTF-8\n")]
    NotText,
    #[error(transparent)]
    Command(clap::Error),
    #[error("error: invalid value for '--limits': {0}, with commas between the numbers\n")]
    Limits(LimitsError),
    #[error("error: '--replies' takes one file\n")]
    Files,
}

impl From<AllocError> for ArgumentError {
    fn from(_error: AllocError) -> ArgumentError {
        ArgumentError::Memory
    }
}

impl From<io::Error> for ArgumentError {
    fn from(error: io::Error) -> ArgumentError {
        match error.kind() {
            io::ErrorKind::OutOfMemory => ArgumentError::Memory,
            _ => ArgumentError::NotText,
        }
    }
}

/// The program's command line.
fn command<'a>(alloc: Global) -> Result<Command<'a>, AllocError> {
    let files = Arg::new(alloc, "FILE")
        .required(true)
        .num_args(1..)
        .action(ArgAction::Append)
        .help("Files of calls and their replies");
    let limits = Arg::new(alloc, "limits")
        .long("limits")
        .value_name("LIMITS")
        .help(
            "Play with the limits SESSIONS,OPENINGS,CREATIONS,LOGINS, or 'largest', in all cases",
        );
    let most = Arg::new(alloc, "most")
        .long("most")
        .value_name("N")
        .value_parser(value_parser!(u64))
        .default_value(MOST_FINDINGS)
        .help("Name at most N lines of a file that differ or are bad; the others are only counted");
    let replies = Arg::new(alloc, "replies")
        .long("replies")
        .action(ArgAction::SetTrue)
        .help("Write the file with the replies that came, and nothing else");
    Command::new(alloc, "ck_cases")
        .about("Plays recorded PKCS #11 calls on a new token, and compares the replies")
        .after_help(EXAMPLE)
        .arg(files)?
        .arg(limits)?
        .arg(most)?
        .arg(replies)
}

/// The limits of the option, where it is given.
fn limits_of(matches: &ArgMatches<'_>) -> Result<Option<Limits>, LimitsError> {
    matches
        .get_str("limits")
        .map(|text| limits_in(text, ','))
        .transpose()
}

/// What is to be written.
fn output_of(matches: &ArgMatches<'_>) -> Output {
    if matches.get_flag("replies") {
        return Output::Replies;
    }
    Output::Report
}

/// What the arguments that the command takes ask for.
fn request_in<'a>(alloc: Global, matches: &ArgMatches<'a>) -> Result<Request<'a>, ArgumentError> {
    let limits = limits_of(matches).map_err(ArgumentError::Limits)?;
    let output = output_of(matches);
    let names = matches.get_strs("FILE").unwrap_or(&[]);
    if matches!(output, Output::Replies) && names.len() > 1 {
        return Err(ArgumentError::Files);
    }
    let names = Vec::from_slice(alloc, names)?;
    // The option has a default, which clap has read.
    let most = matches.get_one("most").unwrap_or(u64::MAX);
    let options = PlayOptions {
        limits,
        most,
        output,
    };
    Ok(Request::Play { names, options })
}

/// What the program is asked to do by its arguments, of which the first is its name.
pub(crate) fn request_of<'a>(
    alloc: Global,
    arguments: &'a [String],
) -> Result<Request<'a>, ArgumentError> {
    match command(alloc)?.try_get_matches_from(arguments) {
        Ok(matches) => request_in(alloc, &matches),
        Err(error) => match error.kind() {
            ErrorKind::DisplayHelp => Ok(Request::Help(format!(in alloc; "{error}")?)),
            ErrorKind::OutOfMemory => Err(ArgumentError::Memory),
            _ => Err(ArgumentError::Command(error)),
        },
    }
}
