//! Tokens with many entries, sessions and objects, and a template with many attributes. A contract
//! promises a result only where there is memory, so bodies that give up above some size would be
//! proved too.
use ck_audit::{Verdict, audit, audit_token};
use ck_token::{
    Attribute, Call, Class, Journal, Limits, NoMemory, Pin, READ_WRITE, Sequence, Template, Token,
    UserType, run,
};
use std::alloc::Global;
use std::process::Abort;
use std::test::Fail;

fn new_token(alloc: Global) -> Token {
    Token::new(alloc, Limits::largest())
}

/// Initializes a new token, and opens session 1.
fn open_session(alloc: Global, token: &mut Token) -> Result<(), Fail> {
    let pin = Pin::of(b"1234");
    token.try_call(alloc, 1, Call::InitToken { pin })?;
    token.try_call(alloc, 1, Call::OpenSession { flags: READ_WRITE })?;
    Ok(())
}

/// Creates a token object in a session, and gives its handle.
fn create_object(alloc: Global, token: &mut Token, session: u64) -> Result<u64, Fail> {
    let template = Template::new(alloc)
        .class(Class::Data)?
        .flag(Attribute::Token, true)?;
    let created = token.try_call(alloc, 1, Call::CreateObject { session, template })?;
    Ok(created.handle().ok_or("no object")?)
}

/// Opens session 1 of a new token, and creates this many token objects in it.
fn create_objects(alloc: Global, token: &mut Token, count: u64) -> Result<(), Fail> {
    open_session(alloc, token)?;
    for _ in 0..count {
        create_object(alloc, token, 1)?;
    }
    Ok(())
}

/// How many objects a cut keeps, besides one with a long value.
const KEPT: u64 = 70_000;

/// Creates a token object with a long value in session 1.
fn create_long_object(alloc: Global, token: &mut Token) -> Result<(), Fail> {
    let value = vec![in alloc; 7u8; VALUE]?;
    let template = Template::new(alloc)
        .class(Class::Data)?
        .flag(Attribute::Token, true)?
        .bytes(Attribute::Value, &value)?;
    let session = 1;
    token.try_call(alloc, 1, Call::CreateObject { session, template })?;
    Ok(())
}

/// Cuts the journal of a new token with many objects. It goes on from there.
fn check_kept_objects(rt: &impl Abort, alloc: Global, token: &mut Token) -> Result<(), Fail> {
    create_objects(alloc, token, KEPT)?;
    create_long_object(alloc, token)?;
    token.try_call(alloc, 1, Call::CloseSession { session: 1 })?;
    token.cut(alloc)?;
    assert_eq!(rt; token.journal().len(), 0);
    token.try_call(alloc, 1, Call::OpenSession { flags: READ_WRITE })?;
    assert_eq!(rt; create_object(alloc, token, 2)?, KEPT + 2);
    assert_eq!(rt; audit_token(alloc, token)?, Verdict::Legal);
    Ok(())
}

#[test]
fn a_cut_may_keep_many_objects(rt: HostRuntime) -> Result<(), Fail> {
    check_kept_objects(&rt, rt.alloc(), &mut new_token(rt.alloc()))
}

/// This many calls of C_GetTokenInfo.
fn short_calls(alloc: Global, count: u64) -> Result<Vec<(u32, Call)>, NoMemory> {
    let mut calls = Vec::new(alloc);
    for _ in 0..count {
        calls.push((1, Call::GetTokenInfo))?;
    }
    Ok(calls)
}

/// How many entries a journal has that is cut.
const CUT: u64 = 100_000;

/// Cuts a long journal of a new token, and gives it. Its first calls and its last one are those of
/// session 1.
fn cut_long_journal(alloc: Global, token: &mut Token) -> Result<Journal, Fail> {
    open_session(alloc, token)?;
    run(token, alloc, short_calls(alloc, CUT - 3)?)?;
    token.try_call(alloc, 1, Call::CloseSession { session: 1 })?;
    Ok(token.cut(alloc)?)
}

#[test]
fn a_long_journal_may_be_cut(rt: HostRuntime) -> Result<(), Fail> {
    let journal = cut_long_journal(rt.alloc(), &mut new_token(rt.alloc()))?;
    assert_eq!(&rt; journal.len(), CUT);
    let verdict = audit::<Token>(rt.alloc(), &journal, Limits::largest())?;
    assert_eq!(&rt; verdict, Verdict::Legal);
    Ok(())
}

/// Gives the user of a new token a PIN.
fn init_user(alloc: Global, token: &mut Token) -> Result<(), Fail> {
    open_session(alloc, token)?;
    let so = Call::login(1, UserType::So, Pin::of(b"1234"));
    token.try_call(alloc, 1, so)?;
    let pin = Pin::of(b"5678");
    token.try_call(alloc, 1, Call::InitPin { session: 1, pin })?;
    token.try_call(alloc, 1, Call::CloseSession { session: 1 })?;
    Ok(())
}

/// Opens a session, logs the user in, and closes the session, which logs out.
fn visit(alloc: Global, token: &mut Token) -> Result<(), Fail> {
    let opened = token.try_call(alloc, 1, Call::OpenSession { flags: READ_WRITE })?;
    let session = opened.handle().ok_or("no session")?;
    let user = Call::login(session, UserType::User, Pin::of(b"5678"));
    token.try_call(alloc, 1, user)?;
    token.try_call(alloc, 1, Call::CloseSession { session })?;
    Ok(())
}

/// How many sessions are opened and closed, one after the other.
const VISITS: u32 = 2_000;

/// Visits a new token many times, and once more after a cut.
fn check_visits(rt: &impl Abort, alloc: Global, token: &mut Token) -> Result<(), Fail> {
    init_user(alloc, token)?;
    for _ in 0..VISITS {
        visit(alloc, token)?;
    }
    token.cut(alloc)?;
    visit(alloc, token)?;
    assert_eq!(rt; token.journal().len(), 3);
    assert_eq!(rt; audit_token(alloc, token)?, Verdict::Legal);
    Ok(())
}

#[test]
fn a_token_goes_on_after_many_sessions(rt: HostRuntime) -> Result<(), Fail> {
    check_visits(&rt, rt.alloc(), &mut new_token(rt.alloc()))
}

/// Ten flags that a template of a key may give.
const FLAGS: [Attribute; 10] = [
    Attribute::Decrypt,
    Attribute::Derive,
    Attribute::Encrypt,
    Attribute::Private,
    Attribute::Sensitive,
    Attribute::Sign,
    Attribute::Token,
    Attribute::Unwrap,
    Attribute::Verify,
    Attribute::Wrap,
];

/// How many bytes a long value has.
const VALUE: usize = 300_000;

/// A template with the flags and with a long value.
fn long_template(alloc: Global) -> Result<Template, NoMemory> {
    let mut template = Template::new(alloc);
    for flag in FLAGS {
        template = template.flag(flag, true)?;
    }
    let value = vec![in alloc; 7u8; VALUE]?;
    template.bytes(Attribute::Value, &value)
}

/// Checks how many bytes the values of a template have.
fn check_lengths<R: Abort>(rt: &R, template: &Template, lengths: &[usize]) {
    let items = template.items.as_slice();
    assert_eq!(rt; items.len(), lengths.len());
    for (item, length) in items.iter().zip(lengths) {
        assert_eq!(rt; item.value.as_slice().len(), *length);
    }
}

#[test]
fn a_template_is_made_of_many_attributes(rt: HostRuntime) -> Result<(), Fail> {
    let template = long_template(rt.alloc())?;
    check_lengths(&rt, &template, &[1, 1, 1, 1, 1, 1, 1, 1, 1, 1, VALUE]);
    Ok(())
}

/// The most bytes that a key has.
const KEY: usize = 4_096;

#[test]
fn a_template_of_a_key_may_have_the_longest_value(rt: HostRuntime) -> Result<(), Fail> {
    let value = vec![in rt.alloc(); 7u8; KEY]?;
    let template = Template::secret_key(rt.alloc(), &value)?;
    check_lengths(&rt, &template, &[8, 8, KEY]);
    Ok(())
}

/// How many calls a run makes.
const CALLS: u64 = 10_000;

#[test]
fn a_run_may_be_long(rt: HostRuntime) -> Result<(), Fail> {
    let mut token = new_token(rt.alloc());
    run(&mut token, rt.alloc(), short_calls(rt.alloc(), CALLS)?)?;
    assert_eq!(rt; token.journal().len(), CALLS);
    Ok(())
}

/// For how many entries room is reserved, and for fewer than how many more there may be room then.
const RESERVED: u64 = 100_000;

const MORE: u64 = 512;

#[test]
fn room_is_made_for_many_entries(rt: HostRuntime) -> Result<(), Fail> {
    let mut token = new_token(rt.alloc());
    token.reserve(RESERVED)?;
    assert!(rt; token.spare() >= RESERVED);
    assert!(rt; token.spare() < RESERVED + MORE);
    Ok(())
}

/// How many handles a search gives in one call.
const FOUND: u64 = 70_000;

/// The handles of the objects of a new token with many, by one call.
fn find_objects(alloc: Global, token: &mut Token) -> Result<Sequence<u64>, Fail> {
    create_objects(alloc, token, FOUND)?;
    let (session, template) = (1, Template::new(alloc));
    token.try_call(alloc, 1, Call::FindObjectsInit { session, template })?;
    let max = FOUND;
    let found = token.try_call(alloc, 1, Call::FindObjects { session, max })?;
    Ok(found.handles().ok_or("no handles")?)
}

#[test]
fn many_handles_are_found_at_once(rt: HostRuntime) -> Result<(), Fail> {
    let handles = find_objects(rt.alloc(), &mut new_token(rt.alloc()))?;
    assert_eq!(rt; handles.as_slice().len() as u64, FOUND);
    assert_eq!(rt; handles.as_slice().last().copied(), Some(FOUND));
    Ok(())
}

/// Past the types of the attributes that the standard names and the token knows.
const PAST_TYPES: u64 = 0x180;

#[test]
fn a_template_may_give_each_attribute(rt: HostRuntime) -> Result<(), Fail> {
    let mut template = Template::new(rt.alloc());
    for attribute in (0..PAST_TYPES).filter_map(Attribute::of) {
        template = template
            .flag(attribute, true)?
            .number(attribute, 1)?
            .bytes(attribute, b"a")?;
    }
    assert_eq!(rt; template.items.as_slice().len(), 3 * 26);
    Ok(())
}
