//! Eight callers in threads of their own make drawn calls of one token at once, until each has made
//! its number. Then the token is taken back, and its journal is audited and compared with what each
//! caller got.
use crate::drawing_callers::DrawnCalls;
use crate::journals::{CallerReplies, check_audit, check_replies, in_order_of_callers};
use crate::mix::Handles;
use crate::tokens::cut_token;
use anyhow::ensure;
use ck_shared::{Runtime, share};
use ck_token::{Journal, Rv, Token};
use std::alloc::Global;

/// What is called before the token is shared: it has PINs then, and nobody is logged in.
const FIRST_CALLS: [&str; 5] = [
    "1 InitToken 31323334 -> 0",
    "1 OpenSession 6 -> 0 1",
    "1 Login 1 0 31323334 -> 0",
    "1 InitPIN 1 75736572 -> 0",
    "1 CloseSession 1 -> 0",
];

/// Checks that at least a tenth of the calls were answered CKR_OK.
fn check_codes(journal: &Journal) -> anyhow::Result<()> {
    let done = journal.iter().filter(|entry| entry.reply.rv == Rv::Ok);
    ensure!(
        done.count() as u64 >= journal.len() / 10,
        "over nine of ten drawn calls are refused"
    );
    Ok(())
}

/// Checks that each caller got the replies of its entries, and that the journal is as it must be.
/// Says how many entries it has.
fn check_drawn(
    alloc: Global,
    token: &Token,
    all: Vec<anyhow::Result<CallerReplies>>,
) -> anyhow::Result<u64> {
    let journal = token.journal();
    check_replies(journal, in_order_of_callers(alloc, all)?)?;
    check_codes(journal)?;
    check_audit(alloc, token)
}

/// Makes the drawn calls of eight callers on a new token, and checks its journal. Says how many
/// they are.
pub(crate) fn make_drawn_calls<R: Runtime>(rt: R) -> anyhow::Result<u64> {
    let alloc = rt.alloc();
    let mut token = cut_token(alloc, &FIRST_CALLS)?;
    let work = DrawnCalls([
        Handles::new(),
        Handles::new(),
        Handles::new(),
        Handles::new(),
    ]);
    let all = share(rt, alloc, &mut token, 8, &work)?;
    check_drawn(alloc, &token, all)
}
