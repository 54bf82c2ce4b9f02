ghost use Rattle.std.specs.Prelude.{◌≡◌, ◌∷◌, ◌<◌, ◌≤◌, ◌⊎◌, [], length, true};
ghost use Rattle.std.specs.Prelude.{Some, None, Ok, Err, MatchOption, IfSome, IfOk, IfErr};
ghost use Rattle.ck_script.specs.Lines.{lines_in, caller_in, words_meaning, meaning};
ghost use Rattle.ck_script.specs.Lines.{is_skipped, longest_line, ParsingTakesMemory};

use crate::arguments::number_in;
use crate::calls::call_in;
use crate::line_errors::{BadLine, LineError};
use crate::splits::{Split, position_of};
use ck_journal::{Call, MOST_CALLERS};
use std::alloc::Global;

/// The byte that ends a line.
pub(crate) const LINE_END: u8 = b'\n';

/// The byte between two words of a line.
pub(crate) const SPACE: u8 = b' ';

/// The byte with which a comment begins.
pub(crate) const COMMENT: u8 = b'#';

/// The most bytes of a line, its end not counted.
pub const LONGEST_LINE: usize = 4_194_304;

/// What one line of a script means.
#[derive(Drop)]
pub enum Line {
    /// An empty line or a comment.
    Skipped,
    Called { caller: u32, call: Call },
}

impl Line {
    /// What a line means; its bytes stand here without the line's end. Its length is judged before
    /// anything else.
    pub fn parse(alloc: Global, bytes: &[u8]) -> Result<Line, LineError>
        ensures line { IfOk result (λ line. meaning bytes.now ≡ Some line) }
        ensures bad { IfErr result (λ e. (e ≡ LineError.Memory) ⊎ (meaning bytes.now ≡ None)) }
        ensures long { longest_line < length bytes.now
            → result ≡ Err (LineError.Bad BadLine.TooLong) }
        ensures skipped { length bytes.now ≤ longest_line → is_skipped bytes.now ≡ true
            → result ≡ Ok Line.Skipped }
        ensures memory { result ≡ Err LineError.Memory → ParsingTakesMemory (meaning bytes.now) }
    {
        if bytes.len() > LONGEST_LINE {
            return Err(LineError::Bad(BadLine::TooLong));
        }
        if bytes.is_empty() || bytes[0] == COMMENT {
            return Ok(Line::Skipped);
        }
        match words_meaning(alloc, Split::new(bytes, SPACE)) {
            Err(LineError::Bad(reason)) => {
                Err(LineError::Bad(layout_error(bytes).unwrap_or(reason)))
            }
            read => read,
        }
    }
}

/// A caller's number, from 1 to the most.
fn caller_in(text: &[u8]) -> Option<u32>
    ensures { result ≡ caller_in text.now }
{
    match number_in(text) {
        Ok(number) if (1..=u64::from(MOST_CALLERS)).contains(&number) => Some(number as u32),
        _ => None,
    }
}

/// What the words of a line mean: a caller and its call.
fn words_meaning(alloc: Global, mut words: Split) -> Result<Line, LineError>
    ensures line { IfOk result (λ line. words_meaning words.entry ≡ Some line) }
    ensures bad { IfErr result (λ e. (e ≡ LineError.Memory) ⊎ (words_meaning words.entry ≡ None)) }
    ensures memory { result ≡ Err LineError.Memory
        → ParsingTakesMemory (words_meaning words.entry) }
{
    let caller = words.next().ok_or(BadLine::NoCall)?;
    let name = words.next().ok_or(BadLine::NoCall)?;
    let caller = caller_in(caller).ok_or(BadLine::UnknownCaller)?;
    let call = call_in(alloc, name, words)?;
    Ok(Line::Called { caller, call })
}

/// Whether a byte is a control character other than a tab and those that end lines.
fn is_bad_control(byte: u8) -> bool {
    byte.is_ascii_control() && !matches!(byte, b'\t' | b'\n' | b'\r')
}

/// What is wrong with the bytes of a bad line, whatever its words mean, if anything is.
fn layout_error(bytes: &[u8]) -> Option<BadLine> {
    if bytes.iter().any(|byte| is_bad_control(*byte)) {
        return Some(BadLine::NotText);
    }
    if bytes.starts_with(b"\xef\xbb\xbf") {
        return Some(BadLine::ByteOrderMark);
    }
    if bytes.ends_with(b"\r") {
        return Some(BadLine::CarriageReturn);
    }
    if bytes.contains(&b'\t') {
        return Some(BadLine::Tab);
    }
    if Split::new(bytes, SPACE).has_empty() {
        return Some(BadLine::Space);
    }
    None
}

/// The first line and what follows its end, where it has one.
pub fn cut_line(bytes: &[u8]) -> Option<(&[u8], &[u8])>
    ensures lines { MatchOption result (lines_in bytes.now ≡ bytes.now ∷ [])
        (λ cut. lines_in bytes.now ≡ cut.0.now ∷ lines_in cut.1.now) }
    ensures shorter { IfSome result (λ cut. length cut.1.now < length bytes.now) }
{
    let at = position_of(LINE_END, bytes)?;
    Some((&bytes[..at], &bytes[at + 1..]))
}
