//! Words of lines, as they stand in files of races and in rows of drawn calls.
use std::alloc::{AllocError, Global};

/// Adds a word. One of bytes with an asterisk and a count, as `61*5000`, stands for the bytes that
/// many times.
pub(crate) fn push_word(line: &mut String, word: &str) -> Result<(), AllocError> {
    if let Some((bytes, count)) = word.split_once('*')
        && let Ok(count) = count.parse::<u32>()
    {
        for _ in 0..count {
            line.push_str(bytes)?;
        }
        return Ok(());
    }
    line.push_str(word)
}

/// A line of a script, whose words are written out.
pub(crate) fn script_line(alloc: Global, text: &str) -> Result<String, AllocError> {
    let mut line = String::new(alloc);
    for word in text.split(' ') {
        if !line.is_empty() {
            line.push(' ')?;
        }
        push_word(&mut line, word)?;
    }
    Ok(line)
}
