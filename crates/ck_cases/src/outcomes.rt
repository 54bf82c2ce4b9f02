//! What comes of an action.
use crate::lines::{BAD_SCRIPT, LineFault};
use ck_audit::Verdict;
use ck_script::reply_line;
use ck_token::{NoMemory, Reply, Uncut};
use std::alloc::Global;

/// What comes of an action.
#[derive(Drop)]
pub(crate) enum Outcome {
    Replied(Reply),
    /// This many entries are in the journal, or are taken out of it.
    Entries(u64),
    /// The journal isn't cut, since a session is open.
    Uncut,
    Audited(Verdict),
    /// The action is bad.
    Bad(LineFault),
}

impl Outcome {
    /// The text that stands after the arrow.
    pub(crate) fn text(&self, alloc: Global) -> Result<String, NoMemory> {
        match self {
            Outcome::Replied(reply) => Ok(reply_line(alloc, reply)?),
            Outcome::Entries(entries) => Ok(format!(in alloc; "entries {entries}")?),
            Outcome::Uncut => {
                let reason = Uncut::Session;
                Ok(format!(in alloc; "{reason}")?)
            }
            Outcome::Audited(Verdict::Legal) => Ok(String::from_str(alloc, "legal")?),
            Outcome::Audited(Verdict::Wrong(number)) => {
                Ok(format!(in alloc; "entry {number} is wrong")?)
            }
            Outcome::Bad(fault) => Ok(format!(in alloc; "{BAD_SCRIPT}{fault}")?),
        }
    }
}
