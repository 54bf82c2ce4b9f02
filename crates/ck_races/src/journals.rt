//! What a token's journal is compared with when its callers are done.
use crate::races::{Race, RaceLine, check_reply};
use crate::tokens::make_calls;
use anyhow::{bail, ensure};
use ck_audit::{Verdict, are_replies_of, audit_token};
use ck_script::reply_line;
use ck_token::{Journal, NoMemory, Reply, Token};
use std::alloc::Global;

/// A caller's number, and the replies that it got, in the order of its calls.
#[derive(Drop)]
pub(crate) struct CallerReplies {
    pub(crate) number: u32,
    pub(crate) replies: Vec<Reply>,
}

/// Checks that the caller at this index, from 0, has this number, from 1.
pub(crate) fn check_number(index: usize, number: u32) -> anyhow::Result<()> {
    ensure!(
        number as usize == index.saturating_add(1),
        "what comes of the callers is not in the order of their numbers"
    );
    Ok(())
}

/// What `share` gave of each caller, where all made their calls and stand in the order of their
/// numbers.
pub(crate) fn in_order_of_callers(
    alloc: Global,
    outputs: Vec<anyhow::Result<CallerReplies>>,
) -> anyhow::Result<Vec<CallerReplies>> {
    let mut all = Vec::new(alloc);
    for (index, output) in outputs.into_iter().enumerate() {
        let output = output?;
        check_number(index, output.number)?;
        all.push(output)?;
    }
    Ok(all)
}

/// Checks that each caller got the replies of its entries, in their order.
pub(crate) fn check_replies(journal: &Journal, all: Vec<CallerReplies>) -> anyhow::Result<()> {
    for CallerReplies { number, replies } in all {
        ensure!(
            are_replies_of(number, journal.iter(), &replies),
            "the replies to caller {number} are not those of its entries"
        );
    }
    Ok(())
}

/// Checks by an audit that the journal is legal. Says how many entries it has.
pub(crate) fn check_audit(alloc: Global, token: &Token) -> anyhow::Result<u64> {
    match audit_token(alloc, token)? {
        Verdict::Legal => Ok(token.journal().len()),
        Verdict::Wrong(number) => bail!("entry {number} is wrong in an audit"),
    }
}

/// Checks by an audit that the journal is legal, where calls were made again. Says how many were.
pub(crate) fn check_retried(alloc: Global, token: &Token, retries: u64) -> anyhow::Result<u64> {
    if retries > 0 {
        check_audit(alloc, token)?;
    }
    Ok(retries)
}

/// Checks that each call has an entry, and that the first were made in this order of their callers.
pub(crate) fn check_order(
    journal: &Journal,
    lines: &[RaceLine],
    callers: &[u32],
) -> anyhow::Result<()> {
    let is_kept = journal.len() == lines.len() as u64
        && journal
            .iter()
            .zip(callers)
            .all(|(entry, caller)| entry.caller == *caller);
    ensure!(is_kept, "the calls were not made in their order");
    Ok(())
}

/// Compares the replies with those of the lines, up to the first entry of another caller. Says
/// whether there is no such entry.
fn check_in_order(alloc: Global, lines: &[RaceLine], journal: &Journal) -> anyhow::Result<bool> {
    for (entry, line) in journal.iter().zip(lines) {
        if entry.caller != line.caller {
            return Ok(false);
        }
        check_reply(alloc, line, &entry.reply)?;
    }
    Ok(true)
}

/// Checks that each line has its entry, with its reply.
pub(crate) fn check_entries(
    alloc: Global,
    lines: &[RaceLine],
    journal: &Journal,
) -> anyhow::Result<()> {
    let is_kept = journal.len() == lines.len() as u64;
    ensure!(is_kept, "not an entry for each call");
    for (entry, line) in journal.iter().zip(lines) {
        check_reply(alloc, line, &entry.reply)?;
    }
    Ok(())
}

/// The texts of the entries' replies.
fn texts_of(alloc: Global, journal: &Journal) -> Result<Vec<String>, NoMemory> {
    let mut texts = Vec::new(alloc);
    for entry in journal.iter() {
        texts.push(reply_line(alloc, &entry.reply)?)?;
    }
    Ok(texts)
}

/// Checks that the texts of replies are those of the lines, each as many times.
fn check_texts(lines: &[RaceLine], texts: &[String]) -> anyhow::Result<()> {
    for line in lines {
        let came = texts.iter().filter(|text| text.as_str() == line.reply);
        let wanted = lines.iter().filter(|other| other.reply == line.reply);
        ensure!(
            came.count() == wanted.count(),
            "the replies are not those of the race"
        );
    }
    Ok(())
}

/// Checks that the replies are those of the lines, whichever callers got them.
pub(crate) fn check_in_any_order(
    alloc: Global,
    lines: &[RaceLine],
    journal: &Journal,
) -> anyhow::Result<()> {
    let texts = texts_of(alloc, journal)?;
    check_texts(lines, &texts)
}

/// Checks what came of a race, whose first calls were made in this order of their callers. Where
/// the replies are those of its lines, what is made afterwards is answered as it says.
pub(crate) fn check_token(
    alloc: Global,
    token: &mut Token,
    race: &Race,
    callers: &[u32],
) -> anyhow::Result<()> {
    let (journal, lines) = (token.journal(), &race.lines);
    check_order(journal, lines, callers)?;
    let is_in_order = check_in_order(alloc, lines, journal)?;
    if race.is_in_any_order {
        check_in_any_order(alloc, lines, journal)?;
    }
    if is_in_order || race.is_in_any_order {
        make_calls(alloc, token, &race.afterwards)?;
    }
    Ok(())
}
