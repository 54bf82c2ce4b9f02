//! Journals that no token has made, and one without entries.
use ck_audit::{Verdict, audit};
use ck_token::{Body, Call, Entry, Journal, Limits, NoMemory, Pin, READ_WRITE, Reply, Rv, Token};
use std::alloc::Global;
use std::test::Fail;

/// A journal in which the first session that is opened has this handle.
fn journal_of(alloc: Global, handle: u64) -> Result<Journal, NoMemory> {
    let pin = Pin::of(b"1234");
    let flags = READ_WRITE;
    let mut journal = Journal::new(alloc);
    journal.reserve(2)?;
    journal.push_reserved(Entry {
        caller: 1,
        call: Call::InitToken { pin },
        reply: Reply {
            rv: Rv::Ok,
            body: Body::Empty,
        },
    });
    journal.push_reserved(Entry {
        caller: 1,
        call: Call::OpenSession { flags },
        reply: Reply {
            rv: Rv::Ok,
            body: Body::Handle(handle),
        },
    });
    Ok(journal)
}

fn verdict_of(alloc: Global, journal: &Journal) -> Result<Verdict, NoMemory> {
    audit::<Token>(alloc, journal, Limits::largest())
}

#[test]
fn a_forged_reply_is_found(rt: HostRuntime) -> Result<(), Fail> {
    let alloc = rt.alloc();
    let verdict = verdict_of(alloc, &Journal::new(alloc))?;
    assert!(&rt; verdict == Verdict::Legal);
    let verdict = verdict_of(alloc, &journal_of(alloc, 1)?)?;
    assert!(&rt; verdict == Verdict::Legal);
    let verdict = verdict_of(alloc, &journal_of(alloc, 2)?)?;
    assert!(&rt; verdict == Verdict::Wrong(2));
    Ok(())
}
