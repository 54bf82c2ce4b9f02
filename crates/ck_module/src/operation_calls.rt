ghost use Rattle.ck_journal.specs.declared.calls.Call.TheVariants as call;
ghost use Rattle.ck_foreign.specs.Calls.{IsCalledBy};
ghost use Rattle.ck_foreign.specs.Queries.{room_of};
ghost use Rattle.ck_module.specs.Calls.{IsCalledWithoutLists};

use crate::places::TokenPlace;
use ck_foreign::room_of;
use ck_token::{Bytes, Call, Mechanism};
use std::alloc::Global;

/// C_DigestInit (PKCS #11 Base 3.0, Message digesting functions). An empty parameter is none.
#[unsafe(no_mangle)]
pub extern "C" fn ospreyrack_digest_init(
    alloc: Global,
    place: &mut TokenPlace,
    caller: u32,
    session: u64,
    kind: u64,
    parameter: &[u8],
) -> u32
    ensures { IsCalledBy caller
        (call.DigestInit session (record { kind = kind; parameter = parameter.now })) result
        place.old.value place.new.value }
{
    let parameter = Bytes::from_slice(alloc, parameter);
    let call = parameter.map(|parameter| Call::DigestInit {
        session,
        mechanism: Mechanism { kind, parameter },
    });
    place.call_with_lists(alloc, caller, call)
}

/// C_DigestFinal (PKCS #11 Base 3.0, Message digesting functions). Without `has_room` only the
/// length is asked for.
#[unsafe(no_mangle)]
pub extern "C" fn ospreyrack_digest_final(
    alloc: Global,
    place: &mut TokenPlace,
    caller: u32,
    session: u64,
    has_room: bool,
    room: u64,
) -> u32
    ensures { IsCalledWithoutLists caller (call.DigestFinal session (room_of has_room room)) result
        place.old.value place.new.value }
{
    let call = Call::DigestFinal {
        session,
        room: room_of(has_room, room),
    };
    place.call(alloc, caller, call)
}

/// C_SignInit (PKCS #11 Base 3.0, Signing and MACing functions). An empty parameter is none.
#[unsafe(no_mangle)]
pub extern "C" fn ospreyrack_sign_init(
    alloc: Global,
    place: &mut TokenPlace,
    caller: u32,
    session: u64,
    kind: u64,
    parameter: &[u8],
    key: u64,
) -> u32
    ensures { IsCalledBy caller
        (call.SignInit session (record { kind = kind; parameter = parameter.now }) key) result
        place.old.value place.new.value }
{
    let parameter = Bytes::from_slice(alloc, parameter);
    let call = parameter.map(|parameter| Call::SignInit {
        session,
        mechanism: Mechanism { kind, parameter },
        key,
    });
    place.call_with_lists(alloc, caller, call)
}

/// C_SignFinal (PKCS #11 Base 3.0, Signing and MACing functions). Without `has_room` only the
/// length is asked for.
#[unsafe(no_mangle)]
pub extern "C" fn ospreyrack_sign_final(
    alloc: Global,
    place: &mut TokenPlace,
    caller: u32,
    session: u64,
    has_room: bool,
    room: u64,
) -> u32
    ensures { IsCalledWithoutLists caller (call.SignFinal session (room_of has_room room)) result
        place.old.value place.new.value }
{
    let call = Call::SignFinal {
        session,
        room: room_of(has_room, room),
    };
    place.call(alloc, caller, call)
}

/// C_VerifyInit (PKCS #11 Base 3.0, Functions for verifying signatures and MACs). An empty
/// parameter is none.
#[unsafe(no_mangle)]
pub extern "C" fn ospreyrack_verify_init(
    alloc: Global,
    place: &mut TokenPlace,
    caller: u32,
    session: u64,
    kind: u64,
    parameter: &[u8],
    key: u64,
) -> u32
    ensures { IsCalledBy caller
        (call.VerifyInit session (record { kind = kind; parameter = parameter.now }) key) result
        place.old.value place.new.value }
{
    let parameter = Bytes::from_slice(alloc, parameter);
    let call = parameter.map(|parameter| Call::VerifyInit {
        session,
        mechanism: Mechanism { kind, parameter },
        key,
    });
    place.call_with_lists(alloc, caller, call)
}

/// C_VerifyFinal (PKCS #11 Base 3.0, Functions for verifying signatures and MACs).
#[unsafe(no_mangle)]
pub extern "C" fn ospreyrack_verify_final(
    alloc: Global,
    place: &mut TokenPlace,
    caller: u32,
    session: u64,
    signature: &[u8],
) -> u32
    ensures { IsCalledBy caller (call.VerifyFinal session signature.now) result
        place.old.value place.new.value }
{
    let signature = Bytes::from_slice(alloc, signature);
    let call = signature.map(|signature| Call::VerifyFinal { session, signature });
    place.call_with_lists(alloc, caller, call)
}
