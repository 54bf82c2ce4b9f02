//! Eight callers make twenty calls each by `run_scripts`. Between two calls of one, calls of all
//! others may come. Then the token is taken back, and each caller got the replies of its entries.
use crate::journals::{CallerReplies, check_audit, check_replies};
use crate::mix::{Handles, call_of};
use crate::shared_work::{Shared, SharedWork, share_with};
use anyhow::{Context, ensure};
use ck_shared::{Caller, Runtime, TokenId};
use ck_token::{Call, Limits, Pin, Token};
use std::alloc::Global;
use std::sync::atomic::Ordering;

/// How many callers there are.
const CALLERS: u32 = 8;

/// One entry for each call of a script, and one for the first call.
const ENTRIES: u64 = 8 * 20 + 1;

/// The calls of each caller. Session `$session` is that of the caller's number, whoever opens it.
const SCRIPT: [&str; 20] = [
    "OpenSession 6",
    "GetTokenInfo",
    "GetSessionInfo $session",
    "CreateObject $session 0=0000000000000000,3=61",
    "CreateObject $session 0=0400000000000000,100=1000000000000000,11=4a656665,2=00",
    "FindObjectsInit $session -",
    "FindObjects $session 3",
    "FindObjects $session 99",
    "FindObjectsFinal $session",
    "GetAttributeValue $session 1 3:8",
    "SetAttributeValue $session 1 3=62",
    "DigestInit $session 250",
    "DigestUpdate $session 61",
    "DigestUpdate $session 62*5000",
    "DigestFinal $session 32",
    "SignInit $session 251 2",
    "SignUpdate $session 6d",
    "SignFinal $session 32",
    "DestroyObject $session 1",
    "CloseSession $session",
];

/// The calls of a caller.
fn calls_of(alloc: Global, caller: u32) -> anyhow::Result<Vec<Call>> {
    let handles = Handles::new();
    handles.session.store(u64::from(caller), Ordering::SeqCst);
    let mut calls = Vec::new(alloc);
    for text in &SCRIPT {
        calls.push(call_of(alloc, &handles, text)?)?;
    }
    Ok(calls)
}

impl<'a, K: TokenId + Send + Sync, R: Runtime> Shared<'a, K, R> {
    /// All callers make the calls of their scripts at once, after the first call of the first one.
    /// Gives the replies to each.
    pub(crate) fn run_eight(
        &self,
        callers: &mut Vec<Caller<K>>,
    ) -> anyhow::Result<Vec<CallerReplies>> {
        let alloc = self.rt.alloc();
        let first = callers.first_mut().context("a caller is missing")?;
        let pin = Pin::of(b"1234");
        let reply = self.call(first, Call::InitToken { pin })?;
        let mut all = self.run_at(self.token, callers, |caller| calls_of(alloc, caller))?;
        let of_first = all.first_mut().context("a caller is missing")?;
        of_first.replies.insert(0, reply)?;
        Ok(all)
    }
}

/// Checks that the callers got the replies of their entries, and that there is an entry for each
/// call. Says how many there are.
fn check_calls(alloc: Global, token: &Token, replies: Vec<CallerReplies>) -> anyhow::Result<u64> {
    let journal = token.journal();
    check_replies(journal, replies)?;
    ensure!(journal.len() == ENTRIES, "not an entry for each call");
    check_audit(alloc, token)
}

/// Makes the calls of all scripts on a new token, and compares the replies with its journal, whose
/// first entry is of the first call. Says how many calls there are.
pub(crate) fn run_eight_scripts<R: Runtime>(rt: R) -> anyhow::Result<u64> {
    let alloc = rt.alloc();
    let token = Token::new(alloc, Limits::largest());
    let (token, outcome) = share_with(rt, token, CALLERS, &SharedWork::EightScripts)?;
    check_calls(alloc, &token, outcome.replies)
}
