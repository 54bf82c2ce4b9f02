//! A token whose calls, cuts and audits are made again where they find no memory, which
//! `bench/growths.py` refuses.
use anyhow::{Context, bail, ensure};
use ck_audit::{Verdict, audit, audit_token};
use ck_token::{Call, Journal, Limits, NoMemory, Reply, Token, Uncut};
use std::alloc::Global;

/// What is said of a second try that finds no memory either.
const AGAIN: &str = "out of memory a second time";

/// A token, and how many times it found no memory. What found none must have left the journal as
/// long as it was, and legal.
#[derive(Drop)]
pub(crate) struct RetryingToken {
    token: Token,
    retries: u64,
}

/// A copy of a call, or out of memory.
fn copy_of(call: &Call) -> Result<Call, NoMemory> {
    Ok(call.clone()?)
}

impl RetryingToken {
    ghost use Rattle.std.specs.Prelude.{◌≡◌, IfOk};
    ghost use Rattle.ck_audit.specs.declared.audits.Verdict.TheVariants as verdict;

    /// A token of these limits.
    pub(crate) fn new(alloc: Global, limits: Limits) -> RetryingToken {
        RetryingToken {
            token: Token::new(alloc, limits),
            retries: 0,
        }
    }

    /// Begins with a new token of these limits. The count of retries goes on.
    pub(crate) fn start(&mut self, alloc: Global, limits: Limits) {
        self.token = Token::new(alloc, limits);
    }

    /// How many entries the journal has.
    pub(crate) fn entries(&self) -> u64 {
        self.token.journal().len()
    }

    /// How many times something found no memory and was made again.
    pub(crate) fn retries(&self) -> u64 {
        self.retries
    }

    /// Counts a retry. The journal must have this many entries, and be legal.
    fn retry(&mut self, alloc: Global, entries: u64) -> anyhow::Result<()> {
        let came = self.entries();
        ensure!(
            came == entries,
            "out of memory, and the journal has {came} entries in place of {entries}"
        );
        let verdict = audit_token(alloc, &self.token)?;
        ensure!(
            verdict == Verdict::Legal,
            "out of memory, and the journal isn't legal"
        );
        self.retries = self.retries.saturating_add(1);
        Ok(())
    }

    /// Makes a call.
    pub(crate) fn call(
        &mut self,
        alloc: Global,
        caller: u32,
        call: &Call,
    ) -> anyhow::Result<Reply> {
        let entries = self.entries();
        if let Ok(reply) = self.token.call(alloc, caller, copy_of(call)?) {
            return Ok(reply);
        }
        self.retry(alloc, entries)?;
        let copy = copy_of(call).context(AGAIN)?;
        self.token.call(alloc, caller, copy).context(AGAIN)
    }

    /// Audits the journal under the limits of its token, and finds it legal.
    pub(crate) fn audit_own(&mut self, alloc: Global) -> anyhow::Result<Verdict>
        ensures { IfOk result (λ found. found ≡ verdict.Legal) }
    {
        let entries = self.entries();
        if let Ok(verdict) = audit_token(alloc, &self.token) {
            return Ok(verdict);
        }
        self.retry(alloc, entries)?;
        audit_token(alloc, &self.token).context(AGAIN)
    }

    /// Audits the journal under these limits.
    pub(crate) fn audit(&mut self, alloc: Global, limits: Limits) -> anyhow::Result<Verdict> {
        let entries = self.entries();
        if let Ok(verdict) = audit::<Token>(alloc, self.token.journal(), limits) {
            return Ok(verdict);
        }
        self.retry(alloc, entries)?;
        audit::<Token>(alloc, self.token.journal(), limits).context(AGAIN)
    }

    /// Audits a journal that was taken out, under the limits of the token.
    pub(crate) fn audit_taken(
        &mut self,
        alloc: Global,
        journal: &Journal,
    ) -> anyhow::Result<Verdict> {
        let entries = self.entries();
        let limits = self.token.limits();
        if let Ok(verdict) = audit::<Token>(alloc, journal, limits) {
            return Ok(verdict);
        }
        self.retry(alloc, entries)?;
        audit::<Token>(alloc, journal, limits).context(AGAIN)
    }

    /// Cuts the journal and takes it out, where no session is open.
    pub(crate) fn cut(&mut self, alloc: Global) -> anyhow::Result<Option<Journal>> {
        let entries = self.entries();
        let mut cut = self.token.cut(alloc);
        if let Err(Uncut::Memory) = cut {
            self.retry(alloc, entries)?;
            cut = self.token.cut(alloc);
        }
        match cut {
            Ok(journal) => Ok(Some(journal)),
            Err(Uncut::Session) => Ok(None),
            Err(Uncut::Memory) => bail!("{AGAIN}"),
        }
    }
}
