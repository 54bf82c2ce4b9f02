ghost use Rattle.std.specs.Prelude.{◌≡◌, ◌<◌};
ghost use Rattle.ck_journal.specs.declared.calls.Call.TheVariants as call;
ghost use Rattle.ck_module.specs.Calls.{IsCalledWithoutLists};

use crate::places::TokenPlace;
use ck_token::Call;
use std::alloc::Global;

/// C_OpenSession (PKCS #11 Base 3.0, Session management functions).
#[unsafe(no_mangle)]
pub extern "C" fn ospreyrack_open_session(
    alloc: Global,
    place: &mut TokenPlace,
    caller: u32,
    flags: u64,
) -> u32
    ensures { IsCalledWithoutLists caller (call.OpenSession flags) result
        place.old.value place.new.value }
{
    let call = Call::OpenSession { flags };
    place.call(alloc, caller, call)
}

/// C_CloseSession (PKCS #11 Base 3.0, Session management functions).
#[unsafe(no_mangle)]
pub extern "C" fn ospreyrack_close_session(
    alloc: Global,
    place: &mut TokenPlace,
    caller: u32,
    session: u64,
) -> u32
    ensures { IsCalledWithoutLists caller (call.CloseSession session) result
        place.old.value place.new.value }
{
    let call = Call::CloseSession { session };
    place.call(alloc, caller, call)
}

/// C_CloseAllSessions (PKCS #11 Base 3.0, Session management functions).
#[unsafe(no_mangle)]
pub extern "C" fn ospreyrack_close_all_sessions(
    alloc: Global,
    place: &mut TokenPlace,
    caller: u32,
) -> u32
    ensures { IsCalledWithoutLists caller call.CloseAllSessions result
        place.old.value place.new.value }
{
    place.call(alloc, caller, Call::CloseAllSessions)
}

/// C_Logout (PKCS #11 Base 3.0, Session management functions).
#[unsafe(no_mangle)]
pub extern "C" fn ospreyrack_logout(
    alloc: Global,
    place: &mut TokenPlace,
    caller: u32,
    session: u64,
) -> u32
    ensures { IsCalledWithoutLists caller (call.Logout session) result
        place.old.value place.new.value }
{
    let call = Call::Logout { session };
    place.call(alloc, caller, call)
}

/// C_GetSessionInfo (PKCS #11 Base 3.0, Session management functions).
#[unsafe(no_mangle)]
pub extern "C" fn ospreyrack_get_session_info(
    alloc: Global,
    place: &mut TokenPlace,
    caller: u32,
    session: u64,
) -> u32
    ensures { IsCalledWithoutLists caller (call.GetSessionInfo session) result
        place.old.value place.new.value }
{
    let call = Call::GetSessionInfo { session };
    place.call(alloc, caller, call)
}

/// C_GetTokenInfo (PKCS #11 Base 3.0, Slot and token management functions).
#[unsafe(no_mangle)]
pub extern "C" fn ospreyrack_get_token_info(
    alloc: Global,
    place: &mut TokenPlace,
    caller: u32,
) -> u32
    ensures { IsCalledWithoutLists caller call.GetTokenInfo result place.old.value place.new.value }
{
    place.call(alloc, caller, Call::GetTokenInfo)
}

/// C_SessionCancel (PKCS #11 Base 3.0, Session management functions). Where the token's journal has
/// room, the call isn't out of memory.
#[unsafe(no_mangle)]
pub extern "C" fn ospreyrack_session_cancel(
    alloc: Global,
    place: &mut TokenPlace,
    caller: u32,
    session: u64,
    flags: u64,
) -> u32
    ensures called { IsCalledWithoutLists caller (call.SessionCancel session flags) result
        place.old.value place.new.value }
    ensures succeeds { 0 < place.old.value.token.spare → result ≡ 0 }
{
    let call = Call::SessionCancel { session, flags };
    place.call(alloc, caller, call)
}
