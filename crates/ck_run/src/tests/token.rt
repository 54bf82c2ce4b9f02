//! What no file of cases shows: an empty journal, `reserve` and `run`, the longest piece of a
//! message, and the check of a template of 600,000 items.
use ck_token::{
    Attribute, AttributeValue, Bytes, Call, Item, Limits, Mechanism, NoMemory, Pin, READ_WRITE, Rv,
    RvError, SHA256, Sequence, Template, Token, UserType, run,
};
use std::alloc::Global;
use std::process::Abort;
use std::test::Fail;

/// A call of each of three callers.
fn three_calls(alloc: Global) -> Result<Vec<(u32, Call)>, NoMemory> {
    let mut calls = Vec::new(alloc);
    for caller in 1..=3 {
        calls.push((caller, Call::GetTokenInfo))?;
    }
    Ok(calls)
}

fn check_run(rt: &impl Abort, alloc: Global, token: &mut Token) -> Result<(), Fail> {
    token.reserve(3)?;
    assert!(rt; token.spare() >= 3 && token.journal().is_empty());
    run(token, alloc, three_calls(alloc)?)?;
    assert!(rt; token.journal().len() == 3);
    token.reserve(2_000)?;
    assert!(rt; token.spare() >= 2_000);
    Ok(())
}

/// `run` and `reserve` do what they say: bodies that always find no memory would be proved too.
#[test]
fn a_run_enters_its_calls(rt: HostRuntime) -> Result<(), Fail> {
    let mut token = Token::new(rt.alloc(), Limits::largest());
    check_run(&rt, rt.alloc(), &mut token)
}

/// The calls by which a user logs in and digests this many bytes in one update, in session 1.
fn digest_calls(alloc: Global, count: usize) -> Result<Vec<(u32, Call)>, NoMemory> {
    let session = 1;
    let (so, user) = (Pin::of(b"1234"), Pin::of(b"5678"));
    let flags = READ_WRITE;
    let mechanism = Mechanism::new(alloc, SHA256);
    let bytes = Bytes::from_vec(vec![in alloc; b'a'; count]?);
    let room = Some(32);
    Ok(vec![in alloc;
        (1, Call::InitToken { pin: so }),
        (1, Call::OpenSession { flags }),
        (1, Call::login(session, UserType::So, so)),
        (1, Call::InitPin { session, pin: user }),
        (1, Call::Logout { session }),
        (1, Call::login(session, UserType::User, user)),
        (1, Call::DigestInit { session, mechanism }),
        (1, Call::DigestUpdate { session, bytes }),
        (1, Call::DigestFinal { session, room }),
    ]?)
}

/// The codes that a run answers to `digest_calls`.
fn digest_codes(alloc: Global, count: usize) -> Result<Vec<Rv>, Fail> {
    let mut token = Token::new(alloc, Limits::largest());
    run(&mut token, alloc, digest_calls(alloc, count)?)?;
    let mut codes = Vec::new(alloc);
    for entry in token.journal().iter() {
        codes.push(entry.reply.rv)?;
    }
    Ok(codes)
}

/// An update with 2^20 bytes is answered; one with a byte more is refused and ends the digest.
#[test]
fn the_longest_piece(rt: HostRuntime) -> Result<(), Fail> {
    let codes = digest_codes(rt.alloc(), 0x10_0000)?;
    assert!(rt; codes.as_slice() == [Rv::Ok; 9].as_slice());
    let codes = digest_codes(rt.alloc(), 0x10_0001)?;
    let refused = [
        Rv::Error(RvError::DataLenRange),
        Rv::Error(RvError::OperationNotInitialized),
    ];
    assert!(rt; codes.ends_with(&refused));
    Ok(())
}

/// Adds 300,000 items of this attribute, without values.
fn add_items(alloc: Global, items: &mut Vec<Item>, attribute: Attribute) -> Result<(), NoMemory> {
    for _ in 0..300_000 {
        items.push(Item {
            kind: attribute.number(),
            value: AttributeValue::new(alloc),
        })?;
    }
    Ok(())
}

/// A template of many items, the first of whose second type stands in the middle. Nothing measures
/// the time, but a check that compared each item with each other would run for minutes, and `rt ci`
/// ends a test that takes so long.
#[test]
fn many_items(rt: HostRuntime) -> Result<(), Fail> {
    let mut items = Vec::new(rt.alloc());
    add_items(rt.alloc(), &mut items, Attribute::Label)?;
    add_items(rt.alloc(), &mut items, Attribute::ObjectId)?;
    let items = Sequence::from_vec(items);
    let refused = Template { items }.check_creation();
    assert!(rt; refused == Err(RvError::TemplateIncomplete));
    Ok(())
}
