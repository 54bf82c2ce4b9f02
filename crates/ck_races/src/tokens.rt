//! Tokens before they are shared, and calls that are made without sharing one.
ghost use Rattle.std.specs.Prelude.{◌≡◌, IfOk};
ghost use Rattle.ck_token.specs.Histories.{start, start_of};

use crate::races::{Race, RaceLine, check_reply, line_in};
use ck_token::{Limits, Token};
use std::alloc::Global;

/// Makes a call, and looks whether its reply is that of the file.
fn make_call(alloc: Global, token: &mut Token, line: &RaceLine) -> anyhow::Result<()> {
    let reply = token.call(alloc, line.caller, line.call.clone()?)?;
    check_reply(alloc, line, &reply)
}

/// Makes calls one after the other.
pub(crate) fn make_calls(
    alloc: Global,
    token: &mut Token,
    lines: &[RaceLine],
) -> anyhow::Result<()> {
    for line in lines {
        make_call(alloc, token, line)?;
    }
    Ok(())
}

/// Makes calls, and cuts the journal.
fn make_and_cut(alloc: Global, token: &mut Token, lines: &[RaceLine]) -> anyhow::Result<()>
    ensures { IfOk result (λ _. token.new.history ≡ start (start_of token.new.history)) }
{
    make_calls(alloc, token, lines)?;
    token.cut(alloc)?;
    Ok(())
}

/// A token on which calls were made, and whose journal was cut.
fn token_after(alloc: Global, limits: Limits, lines: &[RaceLine]) -> anyhow::Result<Token>
    ensures { IfOk result (λ token. token.history ≡ start (start_of token.history)) }
{
    let mut token = Token::new(alloc, limits);
    make_and_cut(alloc, &mut token, lines)?;
    Ok(token)
}

/// A token of a race, on which the calls before its cut were made.
pub(crate) fn prepared_token(alloc: Global, race: &Race) -> anyhow::Result<Token>
    ensures { IfOk result (λ token. token.history ≡ start (start_of token.history)) }
{
    token_after(alloc, race.limits, &race.earlier)
}

/// The calls, with their replies, that these texts write.
pub(crate) fn lines_in<'a>(alloc: Global, texts: &[&'a str]) -> anyhow::Result<Vec<RaceLine<'a>>> {
    let mut lines = Vec::new(alloc);
    let mut number = 0u64;
    for text in texts {
        number = number.saturating_add(1);
        lines.push(line_in(alloc, number, text)?)?;
    }
    Ok(lines)
}

/// A token on which the calls of these texts were made, and whose journal was cut.
pub(crate) fn cut_token(alloc: Global, texts: &[&str]) -> anyhow::Result<Token>
    ensures { IfOk result (λ token. token.history ≡ start (start_of token.history)) }
{
    let lines = lines_in(alloc, texts)?;
    token_after(alloc, Limits::largest(), &lines)
}

/// A token that is initialized, and whose journal was cut.
pub(crate) fn initialized_token(alloc: Global) -> anyhow::Result<Token>
    ensures { IfOk result (λ token. token.history ≡ start (start_of token.history)) }
{
    cut_token(alloc, &["1 InitToken 31323334 -> 0"])
}
