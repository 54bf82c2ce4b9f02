//! A token that is played a script, line by line.
ghost use Rattle.std.specs.Prelude.{◌≡◌, ◌++◌, ◌<◌, ◌≤◌, [], length, take, IfOk, IfErr};
ghost use Rattle.std.specs.Prelude.{OnOk, OnErr, Err};
ghost use Rattle.ck_journal.specs.Answers.{answer};
ghost use Rattle.ck_journal.specs.Bases.{empty_base};
ghost use Rattle.ck_journal.specs.Histories.{start};
ghost use Rattle.ck_script.specs.Lines.{meaning};
ghost use Rattle.ck_script.specs.Replies.{reply_text};
ghost use Rattle.ck_plays.specs.Devices.{Writing, wrote, failed_write};
ghost use Rattle.ck_plays.specs.Players.{WriteFailed, IsUnwritten, IsLineRefused, IsReplied};
ghost use Rattle.ck_plays.specs.Players.{AnswersLine, IsCall};
ghost use Rattle.ck_plays.specs.Players.{StopsAtLine, AnswersChunk, StopsInChunk, next_number};

use crate::devices::Sink;
use crate::faults::PlayFault;
use ck_journal::{Call, JournaledToken};
use ck_script::{BadLine, LONGEST_LINE, Line, LineError, cut_line, push_reply};
use ck_types::Limits;
use std::alloc::Global;
use std::marker::Model;

/// A token that is played a script. Contracts see the token, the open line and its number.
#[derive(Drop)]
pub(crate) struct Player<T: JournaledToken> {
    token: T,
    /// The beginning of the line that has no end yet.
    open_line: Vec<u8>,
    /// The text of the newest reply.
    text: Vec<u8>,
    /// The number of the open line, from 1.
    number: u64,
}

impl<T: JournaledToken> Model for Player<T> {
    ghost use Rattle.std.specs.Coded.{codes};
    ghost use Rattle.ck_journal.specs.HistoryCode.{history_code};
    ghost use Rattle.ck_plays.specs.Players.{PlayerState};

    ghost Value = { PlayerState };

    ghost coded = { Prim.hlevel (codes, history_code) };

    ghost view = { λ p. record {
      token = T.state p.token;
      open_line = p.open_line.items;
      number = p.number;
    } };
}

impl<T: JournaledToken> Player<T> {
    /// A new token of these limits, before the first line of a script.
    pub(crate) fn new(alloc: Global, limits: Limits) -> Player<T>
        ensures limits { result.token.limits ≡ limits }
        ensures history { result.token.history ≡ start empty_base }
        ensures open_line { result.open_line ≡ [] }
        ensures number { result.number ≡ 1 }
    {
        Player {
            token: T::new(alloc, limits),
            open_line: Vec::new(alloc),
            text: Vec::new(alloc),
            number: 1,
        }
    }

    /// Answers the open line, which has its end, and opens the next.
    pub(crate) fn end_line<W: Sink>(
        &mut self,
        alloc: Global,
        writer: &mut W,
    ) -> Result<(), PlayFault>
        ensures ok { OnOk result (AnswersLine self.old.open_line self.old.token self.old.number
            (W.is_written writer.old) self.new.token self.new.number (W.is_written writer.new)) }
        ensures emptied { OnOk result (self.new.open_line ≡ []) }
        ensures err { IfErr result (StopsAtLine self.old.open_line self.old.token self.old.number
            (W.is_written writer.old) (W.is_written writer.new)) }
    {
        answer_line(
            &mut self.token,
            &mut self.text,
            alloc,
            writer,
            &self.open_line,
            self.number,
        )?;
        self.open_line.clear();
        self.number = self.number.saturating_add(1);
        Ok(())
    }

    /// Completes the open line by its rest, and answers it.
    fn complete_line<W: Sink>(
        &mut self,
        alloc: Global,
        writer: &mut W,
        end: &[u8],
    ) -> Result<(), PlayFault>
        ensures ok { OnOk result (AnswersLine (self.old.open_line ++ end.now) self.old.token
            self.old.number (W.is_written writer.old)
            self.new.token self.new.number (W.is_written writer.new)) }
        ensures emptied { OnOk result (self.new.open_line ≡ []) }
        ensures err { IfErr result (StopsAtLine (self.old.open_line ++ end.now) self.old.token
            self.old.number (W.is_written writer.old) (W.is_written writer.new)) }
    {
        extend_open_line(&mut self.open_line, end, self.number)?;
        self.end_line(alloc, writer)
    }

    /// Answers the lines that end in these bytes of a script, and keeps what follows them.
    pub(crate) fn answer_chunk<W: Sink>(
        &mut self,
        alloc: Global,
        writer: &mut W,
        chunk: &[u8],
    ) -> Result<(), PlayFault>
        ensures ok { OnOk result (AnswersChunk chunk.now self.old (W.is_written writer.old)
            self.new (W.is_written writer.new)) }
        ensures err { IfErr result (StopsInChunk chunk.now self.old (W.is_written writer.old)
            (W.is_written writer.new)) }
    {
        let mut rest = chunk;
        // The label is the loop's name in the proofs.
        'lines: while let Some((end, more)) = cut_line(rest) {
            self.complete_line(alloc, writer, end)?;
            rest = more;
        }
        extend_open_line(&mut self.open_line, rest, self.number)
    }
}

/// Writes some of these bytes, or answers that the writer failed.
fn write_some<W: Sink>(writer: &mut W, bytes: &[u8]) -> Result<usize, PlayFault>
    requires some { 0 < length bytes.now }
    ensures bound { IfOk result (λ count. count ≤ length bytes.now) }
    ensures some { IfOk result (λ count. 0 < count) }
    ensures ok { IfOk result (λ count. (w : Writing) → W.is_written writer.old w
        → W.is_written writer.new (wrote w (take count bytes.now))) }
    ensures fault { IfErr result (λ fault. fault ≡ PlayFault.Write) }
    ensures err { OnErr result ((w : Writing) → W.is_written writer.old w
        → W.is_written writer.new (failed_write w)) }
{
    match writer.write(bytes) {
        Ok(count) if count > 0 => Ok(count),
        _ => Err(PlayFault::Write),
    }
}

/// Writes all of these bytes, or answers that the writer failed.
pub fn write_all<W: Sink>(writer: &mut W, bytes: &[u8]) -> Result<(), PlayFault>
    ensures ok { OnOk result ((w : Writing) → W.is_written writer.old w
        → W.is_written writer.new (wrote w bytes.now)) }
    ensures fault { IfErr result (λ fault. fault ≡ PlayFault.Write) }
    ensures err { OnErr result ((w : Writing) → W.is_written writer.old w
        → WriteFailed (W.is_written writer.new) w bytes.now) }
{
    let mut at = 0;
    while at < bytes.len() {
        at += write_some(writer, &bytes[at..])?;
    }
    Ok(())
}

/// Adds to the open line, of this number, what is next of it.
fn extend_open_line(open_line: &mut Vec<u8>, next: &[u8], number: u64) -> Result<(), PlayFault>
    ensures ok { OnOk result (open_line.new.items ≡ open_line.old.items ++ next.now) }
    ensures err { IfErr result (IsLineRefused number (open_line.old.items ++ next.now)) }
{
    if open_line.len().saturating_add(next.len()) > LONGEST_LINE {
        return Err(PlayFault::Line(number, BadLine::TooLong));
    }
    open_line.extend_from_slice(next)?;
    Ok(())
}

/// Answers a call and writes the reply.
fn answer_call<T: JournaledToken, W: Sink>(
    token: &mut T,
    text: &mut Vec<u8>,
    alloc: Global,
    writer: &mut W,
    caller: u32,
    call: Call,
) -> Result<(), PlayFault>
    ensures ok { OnOk result (IsReplied (T.state token.old) (T.state token.new) caller call
        (W.is_written writer.old) (W.is_written writer.new)) }
    ensures err { IfErr result (λ fault. (w : Writing) → W.is_written writer.old w
        → IsUnwritten (W.is_written writer.new) w
        (reply_text (answer (T.state token.old).limits (T.state token.old).history call)) fault) }
{
    let reply = token.call(alloc, caller, call)?;
    text.clear();
    push_reply(text, &reply)?;
    write_all(writer, text)
}

/// Answers a line of this number. One that means no call is never out of memory.
fn answer_line<T: JournaledToken, W: Sink>(
    token: &mut T,
    text: &mut Vec<u8>,
    alloc: Global,
    writer: &mut W,
    line: &[u8],
    number: u64,
) -> Result<(), PlayFault>
    ensures ok { OnOk result (AnswersLine line.now (T.state token.old) number
        (W.is_written writer.old) (T.state token.new) (next_number number)
        (W.is_written writer.new)) }
    ensures err { IfErr result (StopsAtLine line.now (T.state token.old) number
        (W.is_written writer.old) (W.is_written writer.new)) }
    ensures memory { result ≡ Err PlayFault.Memory → IsCall (meaning line.now) }
{
    match Line::parse(alloc, line) {
        Ok(Line::Skipped) => Ok(()),
        Ok(Line::Called { caller, call }) => answer_call(token, text, alloc, writer, caller, call),
        Err(LineError::Bad(reason)) => Err(PlayFault::Line(number, reason)),
        Err(LineError::Memory) => Err(PlayFault::Memory),
    }
}
