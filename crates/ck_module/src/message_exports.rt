ghost use Rattle.std.specs.Prelude.{◌≡◌, ◌<◌, ◌⊎◌, IfOk, true, false};
ghost use Rattle.std.specs.Borrow.{sem, full_share};
ghost use Rattle.std.specs.Mem.{type_size};
ghost use Rattle.std.specs.Ptr.{lies_at, room_at};
ghost use Rattle.ck_journal.specs.declared.calls.Call.TheVariants as call;
ghost use Rattle.ck_script.specs.Lines.{meaning, ParsingTakesMemory};
ghost use Rattle.ck_foreign.specs.Calls.{MeansNoCall};
ghost use Rattle.ck_foreign.specs.MessageCalls.{IsBegin, IsGivenBy, IsMade, IsTakenIn, IsWorkOf};
ghost use Rattle.ck_foreign.specs.MessageCalls.{NeedsOnlyRoom, given_call, has_begun};
ghost use Rattle.ck_foreign.specs.Queries.{room_of};
ghost use Rattle.ck_foreign.specs.contracts.message_calls.MessageCall.{the_row};
ghost use Rattle.ck_foreign.specs.declared.message_calls.MessageCall.{MessageCall};
ghost use Rattle.ck_foreign.specs.declared.message_calls.MessageCall.TheVariants as variant;

use crate::places::{MessagePlace, TokenPlace};
use ck_foreign::{MessageCall, room_of};
use ck_script::Line;
use ck_token::{Bytes, Call, NoMemory};
use std::alloc::Global;

/// How many bytes a call with a message takes, without the message.
#[unsafe(no_mangle)]
pub extern "C" fn ospreyrack_message_size() -> usize
    ensures { result ≡ type_size the_row }
{
    size_of::<MessageCall>()
}

/// Makes the place of a call in the room that C gives. No call is there yet.
///
/// # Safety
///
/// `at` is the address, a multiple of 16, of `ospreyrack_message_size` bytes that nothing else
/// uses.
#[unsafe(no_mangle)]
pub unsafe extern "C" fn ospreyrack_message_make(at: *mut u8)
    requires* { sem 𝓛 (room_at the_row at) }
    ensures* { ∃ₛ (λ (l : MessageCall). sem 𝓛 (lies_at the_row full_share at l)
        ∗ ⌜ l ≡ variant.Empty ⌝) }
{
    let call = MessageCall::new();
    std::ptr::write(at as *mut MessageCall, call);
}

/// Takes the call away, and gives back the memory that it has taken.
#[unsafe(no_mangle)]
pub extern "C" fn ospreyrack_message_reset(message: &mut MessagePlace)
    ensures { message.new.value ≡ variant.Empty }
{
    message.as_mut().set(MessageCall::Empty);
}

// ---- the call is given: true where there was memory for a copy of its message

/// Gives C_Digest (PKCS #11 Base 3.0, Message digesting functions), with a copy of its message.
/// Without `has_room` only the length is asked for.
#[unsafe(no_mangle)]
pub extern "C" fn ospreyrack_digest(
    alloc: Global,
    message: &mut MessagePlace,
    session: u64,
    bytes: &[u8],
    has_room: bool,
    room: u64,
) -> bool
    ensures given { result ≡ true → message.new.value
        ≡ variant.Given (call.Digest session bytes.now (room_of has_room room)) }
    ensures unchanged { result ≡ false → message.new.value ≡ message.old.value }
{
    let (bytes, room) = (Bytes::from_slice(alloc, bytes), room_of(has_room, room));
    message.give(bytes.map(|bytes| Call::Digest {
        session,
        bytes,
        room,
    }))
}

/// Gives C_DigestUpdate (PKCS #11 Base 3.0, Message digesting functions), with a copy of the piece.
#[unsafe(no_mangle)]
pub extern "C" fn ospreyrack_digest_update(
    alloc: Global,
    message: &mut MessagePlace,
    session: u64,
    bytes: &[u8],
) -> bool
    ensures given { result ≡ true → message.new.value
        ≡ variant.Given (call.DigestUpdate session bytes.now) }
    ensures unchanged { result ≡ false → message.new.value ≡ message.old.value }
{
    let bytes = Bytes::from_slice(alloc, bytes);
    message.give(bytes.map(|bytes| Call::DigestUpdate { session, bytes }))
}

/// Gives C_Sign (PKCS #11 Base 3.0, Signing and MACing functions), with a copy of its message.
/// Without `has_room` only the length is asked for.
#[unsafe(no_mangle)]
pub extern "C" fn ospreyrack_sign(
    alloc: Global,
    message: &mut MessagePlace,
    session: u64,
    bytes: &[u8],
    has_room: bool,
    room: u64,
) -> bool
    ensures given { result ≡ true → message.new.value
        ≡ variant.Given (call.Sign session bytes.now (room_of has_room room)) }
    ensures unchanged { result ≡ false → message.new.value ≡ message.old.value }
{
    let (bytes, room) = (Bytes::from_slice(alloc, bytes), room_of(has_room, room));
    message.give(bytes.map(|bytes| Call::Sign {
        session,
        bytes,
        room,
    }))
}

/// Gives C_SignUpdate (PKCS #11 Base 3.0, Signing and MACing functions), with a copy of the piece.
#[unsafe(no_mangle)]
pub extern "C" fn ospreyrack_sign_update(
    alloc: Global,
    message: &mut MessagePlace,
    session: u64,
    bytes: &[u8],
) -> bool
    ensures given { result ≡ true → message.new.value
        ≡ variant.Given (call.SignUpdate session bytes.now) }
    ensures unchanged { result ≡ false → message.new.value ≡ message.old.value }
{
    let bytes = Bytes::from_slice(alloc, bytes);
    message.give(bytes.map(|bytes| Call::SignUpdate { session, bytes }))
}

/// Gives C_Verify (PKCS #11 Base 3.0, Functions for verifying signatures and MACs), with copies of
/// its message and its signature.
#[unsafe(no_mangle)]
pub extern "C" fn ospreyrack_verify(
    alloc: Global,
    message: &mut MessagePlace,
    session: u64,
    bytes: &[u8],
    signature: &[u8],
) -> bool
    ensures given { result ≡ true → message.new.value
        ≡ variant.Given (call.Verify session bytes.now signature.now) }
    ensures unchanged { result ≡ false → message.new.value ≡ message.old.value }
{
    message.give(verification(alloc, session, bytes, signature))
}

/// C_Verify, with copies of its message and its signature.
fn verification(
    alloc: Global,
    session: u64,
    bytes: &[u8],
    signature: &[u8],
) -> Result<Call, NoMemory>
    ensures { IfOk result (λ c. c ≡ call.Verify session bytes.now signature.now) }
{
    Ok(Call::Verify {
        session,
        bytes: Bytes::from_slice(alloc, bytes)?,
        signature: Bytes::from_slice(alloc, signature)?,
    })
}

/// Gives C_VerifyUpdate (PKCS #11 Base 3.0, Functions for verifying signatures and MACs), with a
/// copy of the piece.
#[unsafe(no_mangle)]
pub extern "C" fn ospreyrack_verify_update(
    alloc: Global,
    message: &mut MessagePlace,
    session: u64,
    bytes: &[u8],
) -> bool
    ensures given { result ≡ true → message.new.value
        ≡ variant.Given (call.VerifyUpdate session bytes.now) }
    ensures unchanged { result ≡ false → message.new.value ≡ message.old.value }
{
    let bytes = Bytes::from_slice(alloc, bytes);
    message.give(bytes.map(|bytes| Call::VerifyUpdate { session, bytes }))
}

/// Gives the call of a line of a script, which stands here without its line end. It gives none
/// where the line means no call, or where there is no memory to read it.
#[unsafe(no_mangle)]
pub extern "C" fn ospreyrack_message_line(
    alloc: Global,
    message: &mut MessagePlace,
    line: &[u8],
) -> bool
    ensures given { result ≡ true → IsGivenBy line.now message.new.value }
    ensures none { result ≡ false → MeansNoCall line.now ⊎ ParsingTakesMemory (meaning line.now) }
    ensures unchanged { result ≡ false → message.new.value ≡ message.old.value }
{
    match Line::parse(alloc, line) {
        Ok(Line::Called { call, .. }) => message.give(Ok(call)),
        Ok(Line::Skipped) | Err(_) => false,
    }
}

// ---- its message is worked on, and the call is made

/// Begins the work on the message, and says whether there is work to be done before the call.
#[unsafe(no_mangle)]
pub extern "C" fn ospreyrack_begin_work(place: &mut TokenPlace, message: &mut MessagePlace) -> bool
    ensures begun { IsBegin place.old.value.token.history message.old.value message.new.value }
    ensures told { result ≡ has_begun message.new.value }
    ensures unchanged { place.new.value ≡ place.old.value }
{
    message.as_mut().begin(&place.as_mut().token)
}

/// Takes in the bytes of the message, where the work on it has begun. It needs no token.
#[unsafe(no_mangle)]
pub extern "C" fn ospreyrack_take_in(message: &mut MessagePlace)
    ensures { IsTakenIn message.old.value message.new.value }
{
    message.as_mut().take_in();
}

/// Makes the call. The work counts only where the call's operation hasn't changed since it was
/// begun; the token has to be the one that began it, neither reset nor cut since.
#[unsafe(no_mangle)]
pub extern "C" fn ospreyrack_call(
    alloc: Global,
    place: &mut TokenPlace,
    caller: u32,
    message: &mut MessagePlace,
) -> u32
    requires { IsWorkOf place.old.value.token.history message.old.value }
    ensures made { IsMade caller (given_call message.old.value) result
        place.old.value place.new.value }
    ensures succeeds { 0 < place.old.value.token.spare
        → NeedsOnlyRoom place.old.value.token.limits place.old.value.token.history
        (given_call message.old.value) → result ≡ 0 }
    ensures empty { message.new.value ≡ variant.Empty }
{
    let message = message.as_mut().take();
    place.as_mut().message_call(alloc, caller, message).number()
}
