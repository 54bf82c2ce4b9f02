//! Texts of files as they are shown to a user: short, and with the names of return codes.
use ck_token::Rv;
use std::fmt;

/// The most characters that are shown of a text.
const MOST_SHOWN: usize = 80;

/// The front of a text, and two dots where more follows.
#[derive(Clone, Copy)]
pub(crate) struct Shortened<'a>(pub(crate) &'a str);

impl fmt::Display for Shortened<'_> {
    fn fmt<W: fmt::Write>(&self, f: &mut fmt::Formatter<W>) -> fmt::Result {
        for character in self.0.chars().take(MOST_SHOWN) {
            f.write_char(character)?;
        }
        match self.0.chars().nth(MOST_SHOWN) {
            Some(_) => f.write_str(".."),
            None => Ok(()),
        }
    }
}

/// The return code whose number this word is, where the token has one.
fn code_in(word: &str) -> Option<Rv> {
    u64::from_str_radix(word, 16).ok().and_then(Rv::of)
}

/// The text of a reply, shortened, with the standard's name of its code.
#[derive(Clone, Copy)]
pub(crate) struct NamedReply<'a>(pub(crate) &'a str);

impl fmt::Display for NamedReply<'_> {
    fn fmt<W: fmt::Write>(&self, f: &mut fmt::Formatter<W>) -> fmt::Result {
        let (word, body) = match self.0.split_once(' ') {
            Some((word, body)) => (word, Some(body)),
            None => (self.0, None),
        };
        let Some(code) = code_in(word) else {
            return write!(f, "{}", Shortened(self.0));
        };
        write!(f, "{word} {code}")?;
        match body {
            Some(body) => write!(f, " {}", Shortened(body)),
            None => Ok(()),
        }
    }
}

/// The first character, from 1, that two texts don't share, where the shortened texts may not show
/// it.
pub(crate) fn hidden_difference(one: &str, other: &str) -> Option<usize> {
    let same = one
        .chars()
        .zip(other.chars())
        .take_while(|(one, other)| one == other)
        .count();
    if same < MOST_SHOWN {
        None
    } else {
        same.checked_add(1)
    }
}
