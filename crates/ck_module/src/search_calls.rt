ghost use Rattle.ck_journal.specs.declared.calls.Call.TheVariants as call;
ghost use Rattle.ck_foreign.specs.Calls.{IsCalledBy};
ghost use Rattle.ck_foreign.specs.Templates.{template_of};
ghost use Rattle.ck_module.specs.Calls.{IsCalledWithoutLists};

use crate::places::TokenPlace;
use ck_foreign::{TypeAndLength, template_of};
use ck_token::Call;
use std::alloc::Global;

/// C_FindObjectsInit (PKCS #11 Base 3.0, Object management functions). The values of the template
/// stand one after the other in `values`.
#[unsafe(no_mangle)]
pub extern "C" fn ospreyrack_find_objects_init(
    alloc: Global,
    place: &mut TokenPlace,
    caller: u32,
    session: u64,
    attributes: &[TypeAndLength],
    values: &[u8],
) -> u32
    ensures { IsCalledBy caller (call.FindObjectsInit session
        (template_of attributes.now values.now)) result place.old.value place.new.value }
{
    let template = template_of(alloc, attributes, values);
    let call = template.map(|template| Call::FindObjectsInit { session, template });
    place.call_with_lists(alloc, caller, call)
}

/// C_FindObjects (PKCS #11 Base 3.0, Object management functions).
#[unsafe(no_mangle)]
pub extern "C" fn ospreyrack_find_objects(
    alloc: Global,
    place: &mut TokenPlace,
    caller: u32,
    session: u64,
    max: u64,
) -> u32
    ensures { IsCalledWithoutLists caller (call.FindObjects session max) result
        place.old.value place.new.value }
{
    let call = Call::FindObjects { session, max };
    place.call(alloc, caller, call)
}

/// C_FindObjectsFinal (PKCS #11 Base 3.0, Object management functions).
#[unsafe(no_mangle)]
pub extern "C" fn ospreyrack_find_objects_final(
    alloc: Global,
    place: &mut TokenPlace,
    caller: u32,
    session: u64,
) -> u32
    ensures { IsCalledWithoutLists caller (call.FindObjectsFinal session) result
        place.old.value place.new.value }
{
    let call = Call::FindObjectsFinal { session };
    place.call(alloc, caller, call)
}
