ghost use Rattle.std.specs.Prelude.{map};
ghost use Rattle.ck_journal.specs.declared.calls.Call.TheVariants as call;
ghost use Rattle.ck_foreign.specs.Calls.{IsCalledBy};
ghost use Rattle.ck_foreign.specs.Queries.{query_of};
ghost use Rattle.ck_foreign.specs.Templates.{template_of};
ghost use Rattle.ck_module.specs.Calls.{IsCalledWithoutLists};

use crate::places::TokenPlace;
use ck_foreign::{Query, TypeAndLength, queries_of, template_of};
use ck_token::Call;
use std::alloc::Global;

/// C_CreateObject (PKCS #11 Base 3.0, Object management functions). The values of the template
/// stand one after the other in `values`.
#[unsafe(no_mangle)]
pub extern "C" fn ospreyrack_create_object(
    alloc: Global,
    place: &mut TokenPlace,
    caller: u32,
    session: u64,
    attributes: &[TypeAndLength],
    values: &[u8],
) -> u32
    ensures { IsCalledBy caller (call.CreateObject session
        (template_of attributes.now values.now)) result place.old.value place.new.value }
{
    let template = template_of(alloc, attributes, values);
    let call = template.map(|template| Call::CreateObject { session, template });
    place.call_with_lists(alloc, caller, call)
}

/// C_GetAttributeValue (PKCS #11 Base 3.0, Object management functions).
#[unsafe(no_mangle)]
pub extern "C" fn ospreyrack_get_attribute_value(
    alloc: Global,
    place: &mut TokenPlace,
    caller: u32,
    session: u64,
    object: u64,
    queries: &[Query],
) -> u32
    ensures { IsCalledBy caller (call.GetAttributeValue session object
        (map query_of queries.now)) result place.old.value place.new.value }
{
    let queries = queries_of(alloc, queries);
    let call = queries.map(|queries| Call::GetAttributeValue {
        session,
        object,
        queries,
    });
    place.call_with_lists(alloc, caller, call)
}

/// Takes a key to another state (NIST SP 800-57 Part 1 Revision 5, Key states and transitions),
/// which no function of PKCS #11 does.
#[unsafe(no_mangle)]
pub extern "C" fn ospreyrack_set_key_state(
    alloc: Global,
    place: &mut TokenPlace,
    caller: u32,
    session: u64,
    key: u64,
    state: u64,
) -> u32
    ensures { IsCalledWithoutLists caller (call.SetKeyState session key state) result
        place.old.value place.new.value }
{
    let call = Call::SetKeyState {
        session,
        key,
        state,
    };
    place.call(alloc, caller, call)
}

/// C_DestroyObject (PKCS #11 Base 3.0, Object management functions).
#[unsafe(no_mangle)]
pub extern "C" fn ospreyrack_destroy_object(
    alloc: Global,
    place: &mut TokenPlace,
    caller: u32,
    session: u64,
    object: u64,
) -> u32
    ensures { IsCalledWithoutLists caller (call.DestroyObject session object) result
        place.old.value place.new.value }
{
    let call = Call::DestroyObject { session, object };
    place.call(alloc, caller, call)
}
