//! The lines of a file of cases. A line `limits SESSIONS OPENINGS CREATIONS LOGINS`, or `limits
//! largest`, begins a case on a new token; before the first such line the token has the largest
//! limits. Each other line is an action, an arrow, and what comes of the action; an action without
//! an arrow is done too. Empty lines and lines that begin with `#` are skipped.
//!
//! - `1 OpenSession 6 -> 0 1`: a line of a script and its reply.
//! - `1 OpenSession E -> bad script: ..`: a line that is none of a script's, and why.
//! - `cut -> entries 2`: the token's journal is cut, and this many entries are taken out.
//! - `cut -> a session is open`: it isn't cut, and why.
//! - `journal -> entries 8`: the token's journal has this many entries.
//! - `audit 1 9 9 9 -> legal`: an audit under these limits finds the journal legal.
//! - `audit 1 9 9 9 -> entry 3 is wrong`: it finds that entry 3 is the first wrong one.
use crate::limits::{LimitsError, limits_in};
use ck_script::BadLine;
use ck_token::Limits;
use thiserror::Error;

/// What stands between an action and what comes of it.
pub(crate) const ARROW: &str = " -> ";

/// What stands before the reason of a line that is none of a script's.
pub(crate) const BAD_SCRIPT: &str = "bad script: ";

/// Why a line is no line of a case.
#[derive(Clone, Copy, Debug, Error)]
pub(crate) enum LineFault {
    #[error(transparent)]
    Script(BadLine),
    #[error(transparent)]
    Limits(LimitsError),
}

/// A line of a file of cases.
pub(crate) enum CaseLine<'a> {
    /// An empty line or a comment.
    Skipped,
    /// A case begins, on a token of these limits.
    Limits(Result<Limits, LimitsError>),
    /// What is done, and what came of it where that is recorded.
    Action {
        action: &'a str,
        recorded: Option<&'a str>,
    },
}

impl<'a> CaseLine<'a> {
    /// What a line says, without the line's end.
    pub(crate) fn of(line: &'a str) -> CaseLine<'a> {
        if line.is_empty() || line.starts_with('#') {
            return CaseLine::Skipped;
        }
        if let Some(limits) = line.strip_prefix("limits ") {
            return CaseLine::Limits(limits_in(limits, ' '));
        }
        match line.split_once(ARROW) {
            Some((action, recorded)) => CaseLine::Action {
                action,
                recorded: Some(recorded),
            },
            None => CaseLine::Action {
                action: line,
                recorded: None,
            },
        }
    }
}

/// What is done by a line.
pub(crate) enum Action<'a> {
    Cut,
    /// Counts the entries of the journal.
    Journal,
    /// Audits the journal as one of a token of these limits.
    Audit(Result<Limits, LimitsError>),
    /// Makes the call of a line of a script.
    Call(&'a str),
}

impl<'a> Action<'a> {
    /// What a line says that isn't empty and is no comment.
    pub(crate) fn of(text: &'a str) -> Action<'a> {
        match (text, text.strip_prefix("audit ")) {
            ("cut", _) => Action::Cut,
            ("journal", _) => Action::Journal,
            (_, Some(limits)) => Action::Audit(limits_in(limits, ' ')),
            (_, None) => Action::Call(text),
        }
    }
}
