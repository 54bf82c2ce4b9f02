//! Calls for which room in the journal is reserved, and which take no other memory
//! (`bench/growths.py` refuses it).
use crate::tokens::{lines_in, make_calls};
use anyhow::ensure;
use ck_token::{
    Attribute, Bytes, Call, JournaledToken, KeyState, Limits, NoMemory, Rv, RvError, Template,
    Token,
};
use std::alloc::Global;

/// The user is logged in, and has a key.
const FIRST_CALLS: [&str; 7] = [
    "1 InitToken 31323334 -> 0",
    "1 OpenSession 6 -> 0 1",
    "1 Login 1 0 31323334 -> 0",
    "1 InitPIN 1 75736572 -> 0",
    "1 Logout 1 -> 0",
    "1 Login 1 1 75736572 -> 0",
    "1 CreateObject 1 0=0400000000000000,100=1000000000000000,11=4a656665 -> 0 4294967297",
];

/// Begins a digest in the session.
const DIGEST: [&str; 1] = ["1 DigestInit 1 250 -> 0"];

/// How many bytes the calls bring that are made by the trait.
const LENGTH: usize = 100;

/// Tokens with room for more entries in their journals, and calls with bytes, one that is answered
/// CKR_OK and one that is refused.
#[derive(Drop)]
pub(crate) struct Reserved {
    own: Token,
    by_trait: Token,
    update: Call,
    refused: Call,
}

/// Makes the first calls, and reserves room for three more entries in the journal.
fn make_first_calls(alloc: Global, token: &mut Token) -> anyhow::Result<()> {
    make_calls(alloc, token, &lines_in(alloc, &FIRST_CALLS)?)?;
    token.reserve(3)?;
    Ok(())
}

/// A token after the first calls, with room for three more entries.
fn reserved_token(alloc: Global) -> anyhow::Result<Token> {
    let mut token = Token::new(alloc, Limits::largest());
    make_first_calls(alloc, &mut token)?;
    Ok(token)
}

/// As `reserved_token`, with an active digest, whose start is one of the three entries.
fn token_with_digest(alloc: Global) -> anyhow::Result<Token> {
    let mut token = reserved_token(alloc)?;
    make_calls(alloc, &mut token, &lines_in(alloc, &DIGEST)?)?;
    Ok(token)
}

/// An update of the digest, and a creation in a session that isn't open.
fn calls_with_bytes(alloc: Global) -> Result<(Call, Call), NoMemory> {
    let bytes = Bytes::from_vec(vec![in alloc; b'a'; LENGTH]?);
    let template = Template::new(alloc).bytes(Attribute::Label, &[b'a'; LENGTH])?;
    let update = Call::DigestUpdate { session: 1, bytes };
    let refused = Call::CreateObject {
        session: 2,
        template,
    };
    Ok((update, refused))
}

/// Takes all memory that is taken.
pub(crate) fn reserve(alloc: Global) -> anyhow::Result<Reserved> {
    let (update, refused) = calls_with_bytes(alloc)?;
    Ok(Reserved {
        own: reserved_token(alloc)?,
        by_trait: token_with_digest(alloc)?,
        update,
        refused,
    })
}

/// Makes the calls by the trait, by which threads call a token, too.
fn make_by_trait<T: JournaledToken>(
    alloc: Global,
    token: &mut T,
    update: Call,
    refused: Call,
) -> anyhow::Result<()> {
    let updated = token.call(alloc, 1, update)?;
    ensure!(
        updated.rv == Rv::Ok,
        "an update with reserved room is refused"
    );
    let reply = token.call_after(alloc, 1, refused, None)?;
    let wanted = Rv::Error(RvError::SessionHandleInvalid);
    ensure!(
        reply.rv == wanted,
        "a creation in no session has another code"
    );
    Ok(())
}

/// Makes the calls, which take no memory.
pub(crate) fn make_reserved_calls(alloc: Global, reserved: Reserved) -> anyhow::Result<()> {
    let Reserved {
        mut own,
        mut by_trait,
        update,
        refused,
    } = reserved;
    make_last_calls(alloc, &mut own)?;
    make_by_trait(alloc, &mut by_trait, update, refused)
}

/// The key is destroyed, its object is, and all sessions are closed.
fn make_last_calls(alloc: Global, token: &mut Token) -> anyhow::Result<()> {
    let (session, key) = (1, 0x1_0000_0001);
    let calls = [
        Call::SetKeyState {
            session,
            key,
            state: KeyState::Destroyed.number(),
        },
        Call::DestroyObject {
            session,
            object: key,
        },
        Call::CloseAllSessions,
    ];
    for call in calls {
        let reply = token.call(alloc, 1, call)?;
        ensure!(reply.rv == Rv::Ok, "a call with reserved room is refused");
    }
    Ok(())
}
