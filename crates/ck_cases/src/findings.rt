//! What is wrong with lines of a file.
use crate::lines::LineFault;
use crate::shown::{NamedReply, Shortened, hidden_difference};
use std::fmt;

/// What is wrong with a line.
#[derive(Clone, Copy)]
pub(crate) enum Finding<'a> {
    /// Something else came of an action than is recorded.
    Differs {
        action: &'a str,
        came: &'a str,
        recorded: &'a str,
    },
    /// A bad line: its text up to the arrow, and why it is bad.
    Bad {
        text: &'a str,
        fault: LineFault,
    },
    /// The journal of the case up to this line has a wrong entry, of this number.
    WrongEntry(u64),
}

impl fmt::Display for Finding<'_> {
    fn fmt<W: fmt::Write>(&self, f: &mut fmt::Formatter<W>) -> fmt::Result {
        match self {
            Finding::Differs {
                action,
                came,
                recorded,
            } => {
                write!(f, "{}: got {}", Shortened(action), NamedReply(came))?;
                write!(f, ", expected {}", NamedReply(recorded))?;
                match hidden_difference(came, recorded) {
                    Some(number) => write!(f, " (they differ from character {number} on)"),
                    None => Ok(()),
                }
            }
            Finding::Bad { text, fault } => write!(f, "{}: {fault}", Shortened(text)),
            Finding::WrongEntry(number) => {
                write!(
                    f,
                    "audit of the journal up to here: entry {number} is wrong"
                )
            }
        }
    }
}
