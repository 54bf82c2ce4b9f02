ghost use Rattle.std.specs.Prelude.{◌≡◌, ◌+◌, ◌↔◌, ℕ, IsTrue, IfOk, OnOk};
ghost use Rattle.ck_journal.specs.Answers.{answer, IsLegal};
ghost use Rattle.ck_journal.specs.Histories.{◌◁◌, start, start_of, entry_count};
ghost use Rattle.ck_audit.specs.Verdicts.{IsFirstWrong, IsVerdict};
ghost use Rattle.ck_audit.specs.declared.audits.Verdict.TheVariants as verdict;

use crate::comparisons::are_same_replies;
use ck_journal::{Entry, Journal, JournaledToken};
use ck_types::{Limits, NoMemory};
use std::alloc::Global;

/// What an audit finds of a journal.
#[derive(Clone, Copy, Debug, PartialEq, Eq)]
pub enum Verdict {
    /// Every reply is what the definitions answer to its call after the calls before it.
    Legal,
    /// The entry of this number, counted from 1, is the first whose reply isn't the one that the
    /// definitions answer.
    Wrong(u64),
}

/// Audits a journal: starts a token of these limits from its base, makes the calls again and
/// compares each reply. It takes memory for that token and its journal, and time for each entry.
/// Which kind of token it is makes no difference to what is found.
pub fn audit<T: JournaledToken>(
    alloc: Global,
    journal: &Journal,
    limits: Limits,
) -> Result<Verdict, NoMemory>
    ensures legal { IfOk result (λ found.
        (found ≡ verdict.Legal) ↔ IsLegal limits journal.now.history) }
    ensures wrong { IfOk result (λ found. (number : ℕ)
        → (found ≡ verdict.Wrong number) ↔ IsFirstWrong limits journal.now.history number) }
{
    let base = journal.base().clone()?;
    let token = T::from_base(alloc, limits, base)?;
    replay(alloc, token, journal)
}

/// Audits a token's journal under the token's own limits. It is always found legal.
pub fn audit_token<T: JournaledToken>(alloc: Global, token: &T) -> Result<Verdict, NoMemory>
    ensures { IfOk result (λ found. found ≡ verdict.Legal) }
{
    audit::<T>(alloc, token.journal(), token.limits())
}

/// Makes the call of an entry, and says whether it is answered as the entry has it.
fn repeat_call<T: JournaledToken>(
    token: &mut T,
    alloc: Global,
    entry: &Entry,
) -> Result<bool, NoMemory>
    ensures same { IfOk result (λ same. IsTrue same
        ↔ (entry.now.reply
        ≡ answer (T.state token.old).limits (T.state token.old).history entry.now.call)) }
    ensures entered { IfOk result (λ same. IsTrue same
        → (T.state token.new).history ≡ entry.now ◁ (T.state token.old).history) }
    ensures count { OnOk result (entry_count (T.state token.new).history
        ≡ entry_count (T.state token.old).history + 1) }
    ensures limits { OnOk result ((T.state token.new).limits ≡ (T.state token.old).limits) }
    ensures legal { OnOk result
        (IsLegal (T.state token.new).limits (T.state token.new).history) }
{
    let call = entry.call.clone()?;
    let reply = token.call(alloc, entry.caller, call)?;
    Ok(are_same_replies(&reply, &entry.reply))
}

/// Makes the calls of a journal on a token that starts from its base, up to the first that is
/// answered otherwise.
fn replay<T: JournaledToken>(
    alloc: Global,
    mut token: T,
    journal: &Journal,
) -> Result<Verdict, NoMemory>
    requires { (T.state token).history ≡ start (start_of journal.now.history) }
    ensures { IfOk result (λ found.
        IsVerdict (T.state token).limits journal.now.history found) }
{
    for entry in journal.iter() {
        if !repeat_call(&mut token, alloc, entry)? {
            // The token has just entered this call, so its journal's length is the entry's number.
            return Ok(Verdict::Wrong(token.journal().len()));
        }
    }
    Ok(Verdict::Legal)
}
