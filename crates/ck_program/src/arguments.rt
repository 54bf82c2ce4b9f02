//! What the program's arguments ask for.
ghost use Rattle.std.specs.Prelude.{◌≡◌, ◌⊎◌, IfOk, codes, map, option_map, string_bytes};
ghost use Rattle.clap.specs.Words.{app_of, first_value, found_of};
ghost use Rattle.ck_program.specs.Options.{IsAskedBy, IsChosenBy, IsRefusal, callers_in, program};

use crate::faults::ArgumentFault;
use crate::options::{BadArguments, Callers, Options};
use ck_journal::MOST_CALLERS;
use clap::error::ErrorKind;
use clap::{Arg, ArgMatches, Command, Error};
use std::alloc::{AllocError, Global};

/// The program's command line: its one option is `--callers` with a value.
fn command<'a>(alloc: Global) -> Result<Command<'a>, AllocError>
    ensures { IfOk result (λ command. app_of command ≡ program) }
{
    let callers = Arg::new(alloc, "callers")
        .long("callers")
        .value_name("N")
        .help("Play each caller's lines in a thread of its own; N is 1 to 8");
    Command::new(alloc, "ck_run")
        .about("Plays a script of PKCS #11 calls, read from standard input, on a new token")
        .arg(callers)
}

/// A number of callers: one digit from 1 to the most.
fn callers_in(text: &str) -> Option<Callers>
    ensures { option_map (λ callers. callers.count) result ≡ callers_in text.now }
{
    match text.as_bytes() {
        [digit] if b'1' <= *digit && u32::from(*digit - b'0') <= MOST_CALLERS => Some(Callers {
            count: u32::from(*digit - b'0'),
        }),
        _ => None,
    }
}

/// What the arguments that the command takes ask for.
fn options_in(matches: &ArgMatches<'_>) -> Result<Options, ArgumentFault>
    ensures { IsChosenBy (first_value (found_of matches.now) (codes "callers")) result }
{
    let Some(text) = matches.get_str("callers") else {
        return Ok(Options::LineByLine);
    };
    let callers = callers_in(text).ok_or(ArgumentFault::Bad(BadArguments::Callers))?;
    Ok(Options::InThreads(callers))
}

/// What an error of the command says, without its first word.
fn reason_of(alloc: Global, error: &Error) -> Result<String, AllocError> {
    let text = format!(in alloc; "{error}")?;
    let reason = text.as_str();
    let reason = reason.strip_prefix("error: ").unwrap_or(reason);
    String::from_str(alloc, reason.trim_end())
}

/// The fault of arguments that the command refuses.
fn refusal(alloc: Global, error: &Error) -> ArgumentFault
    ensures { IsRefusal result ⊎ (result ≡ ArgumentFault.Memory) }
{
    match reason_of(alloc, error) {
        Ok(reason) => ArgumentFault::Bad(BadArguments::Refused(reason)),
        Err(_) => ArgumentFault::Memory,
    }
}

/// What the program is asked to do by its arguments, of which the first is its name.
pub fn options_of(alloc: Global, arguments: &[String]) -> Result<Options, ArgumentFault>
    ensures { IsAskedBy (map string_bytes arguments.now) result }
{
    match command(alloc)?.try_get_matches_from(arguments) {
        Ok(matches) => options_in(&matches),
        Err(error) => match error.kind() {
            ErrorKind::DisplayHelp => Ok(Options::Help(format!(in alloc; "{error}")?)),
            ErrorKind::OutOfMemory => Err(ArgumentFault::Memory),
            _ => Err(refusal(alloc, &error)),
        },
    }
}
