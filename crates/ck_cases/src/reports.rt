//! What is written of a file.
use crate::findings::Finding;
use std::alloc::{AllocError, Global};
use std::fmt;

/// How many lines of each kind a file has, and how many times something was done again that had
/// found no memory.
#[derive(Clone, Copy, Default)]
struct Counts {
    passed: u64,
    differ: u64,
    bad: u64,
    wrong_entries: u64,
    without_reply: u64,
    retries: u64,
}

impl Counts {
    /// Counts what was found.
    fn count(&mut self, finding: &Finding<'_>) {
        let count = match finding {
            Finding::Differs { .. } => &mut self.differ,
            Finding::Bad { .. } => &mut self.bad,
            Finding::WrongEntry(_) => &mut self.wrong_entries,
        };
        *count = count.saturating_add(1);
    }

    /// How many things were found, which makes the file wrong.
    fn findings(&self) -> u64 {
        self.differ
            .saturating_add(self.bad)
            .saturating_add(self.wrong_entries)
    }
}

impl fmt::Display for Counts {
    fn fmt<W: fmt::Write>(&self, f: &mut fmt::Formatter<W>) -> fmt::Result {
        write!(f, "{} passed", self.passed)?;
        let others = [
            (self.differ, "differ"),
            (self.bad, "bad"),
            (self.wrong_entries, "wrong in an audit"),
            (self.without_reply, "without a reply"),
            (self.retries, "made again"),
        ];
        for (count, what) in others {
            if count > 0 {
                write!(f, ", {count} {what}")?;
            }
        }
        Ok(())
    }
}

/// The lines that are written of a file: one for each finding, up to the most, and the counts.
#[derive(Drop)]
pub(crate) struct Report<'a> {
    name: &'a str,
    most: u64,
    counts: Counts,
    text: String,
}

impl<'a> Report<'a> {
    /// The report on the file of this name, with at most this many findings.
    pub(crate) fn new(alloc: Global, name: &'a str, most: u64) -> Report<'a> {
        Report {
            name,
            most,
            counts: Counts::default(),
            text: String::new(alloc),
        }
    }

    /// Counts a line whose recorded reply came.
    pub(crate) fn add_passed(&mut self) {
        self.counts.passed = self.counts.passed.saturating_add(1);
    }

    /// Counts an action of which nothing is recorded.
    pub(crate) fn add_without_reply(&mut self) {
        self.counts.without_reply = self.counts.without_reply.saturating_add(1);
    }

    /// Adds what is wrong with the line of this number.
    pub(crate) fn add(&mut self, number: u64, finding: &Finding<'_>) -> Result<(), AllocError> {
        self.counts.count(finding);
        if self.counts.findings() <= self.most {
            let name = self.name;
            writeln!(self.text, "{name}: line {number}: {finding}")?;
        }
        Ok(())
    }

    /// Whether nothing is wrong.
    pub(crate) fn is_right(&self) -> bool {
        self.counts.findings() == 0
    }

    /// The lines of the findings.
    pub(crate) fn findings(mut self) -> Result<String, AllocError> {
        let name = self.name;
        let more = self.counts.findings().saturating_sub(self.most);
        if more > 0 {
            writeln!(self.text, "{name}: only counted: {more} more")?;
        }
        Ok(self.text)
    }

    /// The lines of the findings, and a line of the counts.
    pub(crate) fn summary(mut self, retries: u64) -> Result<String, AllocError> {
        self.counts.retries = retries;
        let name = self.name;
        let counts = self.counts;
        let mut text = self.findings()?;
        writeln!(text, "{name}: {counts}")?;
        Ok(text)
    }
}
