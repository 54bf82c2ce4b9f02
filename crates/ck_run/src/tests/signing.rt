//! The example of ck_token: a program that signs, with a test vector of RFC 4231.
use anyhow::Context;
use ck_token::{
    Attribute, Bytes, Call, Limits, Mechanism, Pin, READ_WRITE, Rv, SHA256_HMAC,
    SHA512_HMAC_GENERAL, Template, Token, UserType,
};
use std::alloc::Global;
use std::test::Fail;

/// Opens a session, logs in, makes a key and signs the message.
fn sign(alloc: Global, token: &mut Token, message: Bytes) -> anyhow::Result<Option<Bytes>> {
    let (so, user) = (Pin::of(b"1234"), Pin::of(b"5678"));
    token.try_call(alloc, 1, Call::InitToken { pin: so })?;
    let opened = token.try_call(alloc, 1, Call::OpenSession { flags: READ_WRITE })?;
    let session = opened.handle().context("no session")?;
    token.try_call(alloc, 1, Call::login(session, UserType::So, so))?;
    token.try_call(alloc, 1, Call::InitPin { session, pin: user })?;
    token.try_call(alloc, 1, Call::Logout { session })?;
    token.try_call(alloc, 1, Call::login(session, UserType::User, user))?;
    let template = Template::secret_key(alloc, b"Jefe")?.flag(Attribute::Sensitive, true)?;
    let created = token.try_call(alloc, 1, Call::CreateObject { session, template })?;
    let key = created.handle().context("no key")?;
    let mechanism = Mechanism::new(alloc, SHA256_HMAC);
    token.try_call(alloc, 1, Call::sign_init(session, mechanism, key))?;
    let signed = token.try_call(alloc, 1, Call::sign(session, message, 32))?;
    Ok(signed.bytes())
}

/// The HMAC of SHA-256 of test case 2 of RFC 4231.
const TAG: [u8; 32] = [
    0x5b, 0xdc, 0xc1, 0x46, 0xbf, 0x60, 0x75, 0x4e, 0x6a, 0x04, 0x24, 0x26, 0x08, 0x95, 0x75, 0xc7,
    0x5a, 0x00, 0x3f, 0x08, 0x9d, 0x27, 0x39, 0x83, 0x9d, 0xec, 0x58, 0xb9, 0x64, 0xec, 0x38, 0x43,
];

/// The parameter of a general HMAC is the length of its signatures.
#[test]
fn a_mechanism_has_its_length(rt: HostRuntime) -> Result<(), Fail> {
    for length in 1..=64 {
        let mechanism = Mechanism::with_length(rt.alloc(), SHA512_HMAC_GENERAL, length)?;
        assert!(&rt; mechanism.tag_length() == Some(length));
    }
    Ok(())
}

#[test]
fn a_program_signs(rt: HostRuntime) -> Result<(), Fail> {
    let mut token = Token::new(rt.alloc(), Limits::largest());
    let message = Bytes::from_slice(rt.alloc(), b"what do ya want for nothing?")?;
    let signed = sign(rt.alloc(), &mut token, message)?;
    let signature = signed.ok_or("no signature")?;
    assert!(rt; signature.as_slice() == TAG.as_slice());
    for entry in token.journal().iter() {
        assert!(rt; entry.reply.rv == Rv::Ok);
    }
    Ok(())
}
