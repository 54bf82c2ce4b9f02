//! Limits of a token as text.
use ck_token::Limits;
use std::error::Error;
use std::fmt;

/// The word for the largest limits.
const LARGEST: &str = "largest";

/// Why a text isn't limits.
#[derive(Clone, Copy, Debug)]
pub(crate) struct LimitsError;

// By hand: `rt fmt` lays out the four values of an `#[error(..)]` in one line of 250 columns.
impl fmt::Display for LimitsError {
    fn fmt<W: fmt::Write>(&self, f: &mut fmt::Formatter<W>) -> fmt::Result {
        let largest = Limits::largest();
        let sessions = largest.sessions();
        let openings = largest.openings();
        let creations = largest.creations();
        let logins = largest.logins();
        write!(
            f,
            "limits are the word {LARGEST}, or four numbers: \
            1 to {sessions} sessions open at once, 1 to {openings} openings of sessions, \
            1 to {creations} creations of objects and 1 to {logins} logins of the user"
        )
    }
}

impl Error for LimitsError {}

/// The limits of four numbers, or of the word `largest`.
pub(crate) fn limits_in(text: &str, separator: char) -> Result<Limits, LimitsError> {
    if text == LARGEST {
        return Ok(Limits::largest());
    }
    numbers_in(text, separator).ok_or(LimitsError)
}

/// The limits of four numbers.
fn numbers_in(text: &str, separator: char) -> Option<Limits> {
    let mut words = text.split(separator);
    let mut numbers = [0; 4];
    for number in numbers.iter_mut() {
        *number = words.next()?.parse().ok()?;
    }
    if words.next().is_some() {
        return None;
    }
    let [sessions, openings, creations, logins] = numbers;
    Limits::of(sessions, openings, creations, logins)
}

/// The line of a file of cases that begins a case with these limits.
#[derive(Clone, Copy)]
pub(crate) struct LimitsLine(pub(crate) Limits);

impl fmt::Display for LimitsLine {
    fn fmt<W: fmt::Write>(&self, f: &mut fmt::Formatter<W>) -> fmt::Result {
        if self.0 == Limits::largest() {
            return write!(f, "limits {LARGEST}");
        }
        let sessions = self.0.sessions();
        let openings = self.0.openings();
        let creations = self.0.creations();
        let logins = self.0.logins();
        write!(f, "limits {sessions} {openings} {creations} {logins}")
    }
}
