//! The cases of a file are played, line by line. Out of memory is written with the text of
//! `NoMemory`, so an `AllocError` becomes a `NoMemory` before it becomes an `anyhow::Error`.
use crate::findings::Finding;
use crate::limits::{LimitsError, LimitsLine};
use crate::lines::{ARROW, Action, BAD_SCRIPT, CaseLine, LineFault};
use crate::outcomes::Outcome;
use crate::reports::Report;
use crate::retries::RetryingToken;
use ck_audit::Verdict;
use ck_script::{BadLine, Line, LineError};
use ck_token::{Limits, NoMemory};
use std::alloc::Global;
use std::fmt;

/// What is written of a file.
#[derive(Clone, Copy)]
pub(crate) enum Output {
    /// A line for each finding, and one that counts lines.
    Report,
    /// The file again, with what came in place of what is recorded.
    Replies,
}

/// How files are played.
#[derive(Clone, Copy)]
pub(crate) struct PlayOptions {
    /// The limits of all cases, in place of those that the file has.
    pub(crate) limits: Option<Limits>,
    /// The most findings of a file that are written.
    pub(crate) most: u64,
    pub(crate) output: Output,
}

/// What came of a file.
#[derive(Drop)]
pub(crate) struct Played {
    /// What goes to standard output.
    pub(crate) output: String,
    /// What goes to standard error.
    pub(crate) errors: String,
    /// Whether no line is bad and no audit finds a wrong entry; and, where the file isn't written
    /// again, no reply differs.
    pub(crate) is_right: bool,
}

/// A file that is played.
#[derive(Drop)]
struct CasePlayer<'a> {
    alloc: Global,
    limits: Option<Limits>,
    token: RetryingToken,
    /// The number of the line that is played, from 1.
    number: u64,
    /// Whether a case has begun.
    has_begun: bool,
    report: Report<'a>,
    /// The lines so far of a file that is written again.
    rewritten: Option<String>,
}

impl<'a> CasePlayer<'a> {
    /// A file of this name, of which no line was played.
    fn new(alloc: Global, name: &'a str, options: &PlayOptions) -> CasePlayer<'a> {
        let limits = options.limits.unwrap_or(Limits::largest());
        let rewritten = match options.output {
            Output::Report => None,
            Output::Replies => Some(String::new(alloc)),
        };
        CasePlayer {
            alloc,
            limits: options.limits,
            token: RetryingToken::new(alloc, limits),
            number: 0,
            has_begun: false,
            report: Report::new(alloc, name, options.most),
            rewritten,
        }
    }

    /// Reports what is wrong with the line.
    fn report(&mut self, finding: &Finding<'_>) -> Result<(), NoMemory> {
        Ok(self.report.add(self.number, finding)?)
    }

    /// Adds a line to the file that is written again.
    fn rewrite<T: fmt::Display>(&mut self, line: &T) -> Result<(), NoMemory> {
        if let Some(text) = &mut self.rewritten {
            writeln!(text, "{line}")?;
        }
        Ok(())
    }

    /// Adds the line of limits with which all cases are played, where they are given.
    fn rewrite_limits(&mut self) -> Result<(), NoMemory> {
        match self.limits {
            Some(limits) => self.rewrite(&LimitsLine(limits)),
            None => Ok(()),
        }
    }

    /// Plays the next line.
    fn play_line(&mut self, line: &str) -> anyhow::Result<()> {
        self.number = self.number.saturating_add(1);
        match CaseLine::of(line) {
            CaseLine::Skipped => Ok(self.rewrite(&line)?),
            CaseLine::Limits(limits) => self.begin_case(line, limits),
            CaseLine::Action { action, recorded } => self.play_action(line, action, recorded),
        }
    }

    /// Begins the case of a line of limits. Where they are bad, its token has the largest.
    fn begin_case(
        &mut self,
        line: &str,
        limits: Result<Limits, LimitsError>,
    ) -> anyhow::Result<()> {
        self.audit()?;
        self.has_begun = true;
        if let Err(error) = limits {
            let fault = LineFault::Limits(error);
            self.report(&Finding::Bad { text: line, fault })?;
        }
        let limits = self.limits.or(limits.ok()).unwrap_or(Limits::largest());
        self.token.start(self.alloc, limits);
        match self.limits {
            Some(limits) => self.rewrite(&LimitsLine(limits))?,
            None => self.rewrite(&line)?,
        }
        Ok(())
    }

    /// Audits the journal of a case. That the journal of a token is legal is proved; this shows it
    /// of the program as it was built.
    fn audit(&mut self) -> anyhow::Result<()> {
        let verdict = self.token.audit_own(self.alloc)?;
        Ok(self.report_verdict(verdict)?)
    }

    /// Reports the wrong entry that an audit finds.
    fn report_verdict(&mut self, verdict: Verdict) -> Result<(), NoMemory> {
        match verdict {
            Verdict::Legal => Ok(()),
            Verdict::Wrong(entry) => self.report(&Finding::WrongEntry(entry)),
        }
    }

    /// Does what a line says.
    fn play_action(
        &mut self,
        line: &str,
        action: &str,
        recorded: Option<&str>,
    ) -> anyhow::Result<()> {
        if !self.has_begun {
            self.has_begun = true;
            self.rewrite_limits()?;
        }
        match self.outcome_of(action)? {
            Outcome::Bad(fault) if !is_bad_script(recorded) => {
                self.report(&Finding::Bad {
                    text: action,
                    fault,
                })?;
                Ok(self.rewrite(&line)?)
            }
            outcome => {
                let came = outcome.text(self.alloc)?;
                Ok(self.judge(action, came.as_str(), recorded)?)
            }
        }
    }

    /// Compares what came of an action with what is recorded, or writes it in place of that.
    fn judge(&mut self, action: &str, came: &str, recorded: Option<&str>) -> Result<(), NoMemory> {
        if let Some(text) = &mut self.rewritten {
            return Ok(writeln!(text, "{action}{ARROW}{came}")?);
        }
        match recorded {
            None => {
                self.report.add_without_reply();
                Ok(())
            }
            Some(recorded) if recorded == came => {
                self.report.add_passed();
                Ok(())
            }
            Some(recorded) => self.report(&Finding::Differs {
                action,
                came,
                recorded,
            }),
        }
    }

    /// What comes of an action.
    fn outcome_of(&mut self, action: &str) -> anyhow::Result<Outcome> {
        match Action::of(action) {
            Action::Cut => {
                self.audit()?;
                self.cut()
            }
            Action::Journal => Ok(Outcome::Entries(self.token.entries())),
            Action::Audit(Ok(limits)) => {
                Ok(Outcome::Audited(self.token.audit(self.alloc, limits)?))
            }
            Action::Audit(Err(error)) => Ok(Outcome::Bad(LineFault::Limits(error))),
            Action::Call(text) => self.call(text),
        }
    }

    /// Cuts the journal, and audits what is taken out.
    fn cut(&mut self) -> anyhow::Result<Outcome> {
        let Some(journal) = self.token.cut(self.alloc)? else {
            return Ok(Outcome::Uncut);
        };
        let verdict = self.token.audit_taken(self.alloc, &journal)?;
        self.report_verdict(verdict)?;
        Ok(Outcome::Entries(journal.len()))
    }

    /// Makes the call of a line of a script.
    fn call(&mut self, text: &str) -> anyhow::Result<Outcome> {
        match Line::parse(self.alloc, text.as_bytes()) {
            Ok(Line::Called { caller, call }) => {
                Ok(Outcome::Replied(self.token.call(self.alloc, caller, &call)?))
            }
            Ok(Line::Skipped) => Ok(Outcome::Bad(LineFault::Script(BadLine::NoCall))),
            Err(LineError::Bad(reason)) => Ok(Outcome::Bad(LineFault::Script(reason))),
            Err(LineError::Memory) => Err(NoMemory.into()),
        }
    }

    /// What came of the file, whose last case has been audited.
    fn finish(self) -> Result<Played, NoMemory> {
        let CasePlayer {
            alloc,
            token,
            report,
            rewritten,
            ..
        } = self;
        let is_right = report.is_right();
        match rewritten {
            Some(output) => Ok(Played {
                output,
                errors: report.findings()?,
                is_right,
            }),
            None => Ok(Played {
                output: report.summary(token.retries())?,
                errors: String::new(alloc),
                is_right,
            }),
        }
    }
}

/// Whether it is recorded of an action that it is a bad line of a script.
fn is_bad_script(recorded: Option<&str>) -> bool {
    recorded.is_some_and(|text| text.starts_with(BAD_SCRIPT))
}

/// Plays the lines of the file of this name on tokens of their own.
pub(crate) fn play_text(
    alloc: Global,
    name: &str,
    text: &str,
    options: &PlayOptions,
) -> anyhow::Result<Played> {
    let mut player = CasePlayer::new(alloc, name, options);
    for line in text.lines() {
        player.play_line(line)?;
    }
    player.audit()?;
    Ok(player.finish()?)
}
