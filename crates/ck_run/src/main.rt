//! The program ck_run: does what its arguments ask for, from standard input to standard output.
#![tactic(auto)]

#[cfg(test)]
mod tests;

use ck_plays::{ReadSource, WriteSink};
use ck_program::{ArgumentFault, Options, options_of, run_on_std};
use ck_token::Token;
use std::alloc::Global;
use std::env::Env;
use std::process::ExitCode;
use std::{env, io};

/// What the program is asked to do by the arguments that it was started with. Of these std has no
/// clause, and so neither has this.
fn given_options<R: Env + Alloc<A = Global>>(rt: &R) -> Result<Options, ArgumentFault> {
    let alloc = rt.alloc();
    let arguments: Vec<String> = env::args(rt)?.collect(alloc)?;
    options_of(alloc, &arguments)
}

fn main(rt: HostRuntime) -> ExitCode {
    ExitCode::from(run_on_std::<Token, _, _, _>(
        rt,
        rt.alloc(),
        given_options(&rt),
        &mut ReadSource::new(rt.reader()),
        &mut WriteSink::new(io::writer(&rt)),
    ))
}
