ghost use Rattle.std.specs.Prelude.{◌≡◌, ◌++◌, false, codes, IfOk, OnOk, string_bytes};
ghost use Rattle.std.specs.Fmt.{digits};
ghost use Rattle.std.specs.Str.Lossy.{utf8_lossy};
ghost use Rattle.hex.specs.Hex.{encode_lower};
ghost use Rattle.ck_script.specs.Replies.{base_number, bytes_text, answer_text, answers_text};
ghost use Rattle.ck_script.specs.Replies.{numbers_text, body_text, reply_line, reply_text};

use crate::arguments::{COLON, COMMA, DASH, EQUALS_SIGN};
use crate::lines::{LINE_END, SPACE};
use ck_journal::{Answer, Body, Reply};
use ck_types::NoMemory;
use std::alloc::Global;
use std::io::Write;

/// The base in which a number is written.
#[derive(Clone, Copy)]
enum Base {
    Decimal,
    Hexadecimal,
}

/// Appends the digits of a number in a base, in lower case.
fn push_number(out: &mut Vec<u8>, number: u64, base: Base) -> Result<(), NoMemory>
    ensures { OnOk result (out.new.items
        ≡ out.old.items ++ digits (base_number base) false number) }
{
    match base {
        Base::Decimal => write!(out, "{number}").map_err(|_| NoMemory),
        Base::Hexadecimal => write!(out, "{number:x}").map_err(|_| NoMemory),
    }
}

/// Appends a space and the digits of a number in a base.
fn push_next(out: &mut Vec<u8>, number: u64, base: Base) -> Result<(), NoMemory>
    ensures { OnOk result (out.new.items
        ≡ out.old.items ++ codes " " ++ digits (base_number base) false number) }
{
    out.push(SPACE)?;
    push_number(out, number, base)
}

/// Appends bytes as two hexadecimal digits each, and none as `-`.
fn push_bytes(out: &mut Vec<u8>, bytes: &[u8]) -> Result<(), NoMemory>
    ensures { OnOk result (out.new.items ≡ out.old.items ++ bytes_text bytes.now) }
{
    if bytes.is_empty() {
        out.push(DASH)?;
        return Ok(());
    }
    push_digits(out, bytes)
}

/// Appends bytes as two hexadecimal digits each.
fn push_digits(out: &mut Vec<u8>, bytes: &[u8]) -> Result<(), NoMemory>
    ensures { OnOk result (out.new.items ≡ out.old.items ++ encode_lower bytes.now) }
{
    let start = out.len();
    let count = bytes.len().checked_mul(2).ok_or(NoMemory)?;
    let end = start.checked_add(count).ok_or(NoMemory)?;
    out.resize(end, 0)?;
    // The room that was made has two bytes for each byte.
    hex::encode_to_slice(bytes, &mut out[start..]).unwrap();
    Ok(())
}

/// Appends the answer to one query.
fn push_answer(out: &mut Vec<u8>, answer: &Answer) -> Result<(), NoMemory>
    ensures { OnOk result (out.new.items ≡ out.old.items ++ answer_text answer.now) }
{
    match answer {
        Answer::Value(bytes) => {
            out.push(EQUALS_SIGN)?;
            push_bytes(out, bytes.as_slice())
        }
        Answer::Length(length) => {
            out.push(COLON)?;
            push_number(out, *length, Base::Decimal)
        }
        Answer::Unavailable => {
            out.push(b'!')?;
            Ok(())
        }
    }
}

/// Appends the answers with a comma between two of them, and no answers as `-`.
fn push_answers(out: &mut Vec<u8>, answers: &[Answer]) -> Result<(), NoMemory>
    ensures { OnOk result (out.new.items ≡ out.old.items ++ answers_text answers.now) }
{
    let Some((first, rest)) = answers.split_first() else {
        out.push(DASH)?;
        return Ok(());
    };
    push_answer(out, first)?;
    for answer in rest {
        out.push(COMMA)?;
        push_answer(out, answer)?;
    }
    Ok(())
}

/// Appends the numbers in a base with a comma between two of them, and no numbers as `-`.
fn push_numbers(out: &mut Vec<u8>, numbers: &[u64], base: Base) -> Result<(), NoMemory>
    ensures { OnOk result (out.new.items
        ≡ out.old.items ++ numbers_text (base_number base) numbers.now) }
{
    let Some((first, rest)) = numbers.split_first() else {
        out.push(DASH)?;
        return Ok(());
    };
    push_number(out, *first, base)?;
    for number in rest {
        out.push(COMMA)?;
        push_number(out, *number, base)?;
    }
    Ok(())
}

/// Appends what stands after the code.
fn push_body(out: &mut Vec<u8>, body: &Body) -> Result<(), NoMemory>
    ensures { OnOk result (out.new.items ≡ out.old.items ++ body_text body.now) }
{
    match body {
        Body::Empty => Ok(()),
        Body::Handle(handle) => push_next(out, *handle, Base::Decimal),
        Body::Session { state, flags } => {
            push_next(out, state.number(), Base::Decimal)?;
            push_next(out, *flags, Base::Hexadecimal)
        }
        Body::Token {
            flags,
            limit,
            sessions,
            rw_sessions,
        } => {
            push_next(out, flags.number(), Base::Hexadecimal)?;
            push_next(out, *limit, Base::Decimal)?;
            push_next(out, *sessions, Base::Decimal)?;
            push_next(out, *rw_sessions, Base::Decimal)
        }
        Body::Mechanisms(types) => {
            out.push(SPACE)?;
            push_numbers(out, types.as_slice(), Base::Hexadecimal)
        }
        Body::Attributes(answers) => {
            out.push(SPACE)?;
            push_answers(out, answers.as_slice())
        }
        Body::Handles(handles) => {
            out.push(SPACE)?;
            push_numbers(out, handles.as_slice(), Base::Decimal)
        }
        Body::Length(length) => {
            out.push(SPACE)?;
            out.push(COLON)?;
            push_number(out, *length, Base::Decimal)
        }
        Body::Bytes(bytes) => {
            out.push(SPACE)?;
            push_bytes(out, bytes.as_slice())
        }
    }
}

/// Appends the text of a reply, without a line end. Where there is no memory, no clause says what
/// `out` has.
pub fn push_line(out: &mut Vec<u8>, reply: &Reply) -> Result<(), NoMemory>
    ensures { OnOk result (out.new.items ≡ out.old.items ++ reply_line reply.now) }
{
    push_number(out, reply.rv.number(), Base::Hexadecimal)?;
    push_body(out, &reply.body)
}

/// Appends the text of a reply, its line end included. Where there is no memory, no clause says
/// what `out` has.
pub fn push_reply(out: &mut Vec<u8>, reply: &Reply) -> Result<(), NoMemory>
    ensures { OnOk result (out.new.items ≡ out.old.items ++ reply_text reply.now) }
{
    push_line(out, reply)?;
    out.push(LINE_END)?;
    Ok(())
}

/// The text of a reply, without a line end.
pub fn reply_line(alloc: Global, reply: &Reply) -> Result<String, NoMemory>
    ensures { IfOk result (λ line. string_bytes line ≡ utf8_lossy (reply_line reply.now)) }
{
    let mut line = Vec::new(alloc);
    push_line(&mut line, reply)?;
    Ok(String::from_utf8_lossy(alloc, &line)?)
}
