ghost use Rattle.std.specs.Prelude.{◌≡◌, length};
ghost use Rattle.ck_types.specs.ReturnCodes.{number_of};
ghost use Rattle.ck_foreign.specs.Copies.{filled_with};
ghost use Rattle.ck_foreign.specs.Bodies.{handle_in, session_in, token_in, mechanisms_in};
ghost use Rattle.ck_foreign.specs.Bodies.{answer_in, value_in, length_in, bytes_in};
ghost use Rattle.ck_journal.specs.Searches.{handles_in};

use crate::places::TokenPlace;
use ck_foreign::{
    QueryAnswer, SessionInfo, TokenInfo, answer_in, bytes_in, copy_out, handle_in, handles_in,
    length_in, mechanisms_in, session_in, token_in, value_in,
};

/// The return code (CK_RV).
#[unsafe(no_mangle)]
pub extern "C" fn ospreyrack_code(place: &mut TokenPlace) -> u64
    ensures code { result ≡ number_of place.old.value.reply.rv }
    ensures unchanged { place.new.value ≡ place.old.value }
{
    place.as_mut().reply.rv.number()
}

/// The handle of a new session or object, else 0.
#[unsafe(no_mangle)]
pub extern "C" fn ospreyrack_handle(place: &mut TokenPlace) -> u64
    ensures handle { result ≡ handle_in place.old.value.reply.body }
    ensures unchanged { place.new.value ≡ place.old.value }
{
    handle_in(&place.as_mut().reply.body)
}

/// A session's state and flags; zeros where the reply has none.
#[unsafe(no_mangle)]
pub extern "C" fn ospreyrack_session(place: &mut TokenPlace, out: &mut SessionInfo)
    ensures session { out.new ≡ session_in place.old.value.reply.body }
    ensures unchanged { place.new.value ≡ place.old.value }
{
    *out = session_in(&place.as_mut().reply.body);
}

/// The token's flags and counts; zeros where the reply has none.
#[unsafe(no_mangle)]
pub extern "C" fn ospreyrack_token_info(place: &mut TokenPlace, out: &mut TokenInfo)
    ensures token { out.new ≡ token_in place.old.value.reply.body }
    ensures unchanged { place.new.value ≡ place.old.value }
{
    *out = token_in(&place.as_mut().reply.body);
}

/// How many mechanisms the reply has. Their types, or as many of them as there is room for, are
/// copied out.
#[unsafe(no_mangle)]
pub extern "C" fn ospreyrack_mechanisms(place: &mut TokenPlace, out: &mut [u64]) -> usize
    ensures count { result ≡ length (mechanisms_in place.old.value.reply.body) }
    ensures copied { out.new ≡ filled_with (mechanisms_in place.old.value.reply.body) out.old }
    ensures unchanged { place.new.value ≡ place.old.value }
{
    copy_out(mechanisms_in(&place.as_mut().reply.body), out)
}

/// How many handles of found objects the reply has. They, or as many of them as there is room for,
/// are copied out.
#[unsafe(no_mangle)]
pub extern "C" fn ospreyrack_handles(place: &mut TokenPlace, out: &mut [u64]) -> usize
    ensures count { result ≡ length (handles_in place.old.value.reply.body) }
    ensures copied { out.new ≡ filled_with (handles_in place.old.value.reply.body) out.old }
    ensures unchanged { place.new.value ≡ place.old.value }
{
    copy_out(handles_in(&place.as_mut().reply.body), out)
}

/// The answer to the query of this index, counted from 0; unavailable where there is none.
#[unsafe(no_mangle)]
pub extern "C" fn ospreyrack_answer(place: &mut TokenPlace, index: usize, out: &mut QueryAnswer)
    ensures answer { out.new ≡ answer_in place.old.value.reply.body index }
    ensures unchanged { place.new.value ≡ place.old.value }
{
    *out = answer_in(&place.as_mut().reply.body, index);
}

/// The length of the value that the query of this index is answered, and 0 where it isn't answered
/// one. The value's bytes, or as many of them as there is room for, are copied out.
#[unsafe(no_mangle)]
pub extern "C" fn ospreyrack_value(place: &mut TokenPlace, index: usize, out: &mut [u8]) -> usize
    ensures length { result ≡ length (value_in place.old.value.reply.body index) }
    ensures copied { out.new ≡ filled_with (value_in place.old.value.reply.body index) out.old }
    ensures unchanged { place.new.value ≡ place.old.value }
{
    copy_out(value_in(&place.as_mut().reply.body, index), out)
}

/// The length of the digest or signature that the reply has or tells the length of, else 0.
#[unsafe(no_mangle)]
pub extern "C" fn ospreyrack_length(place: &mut TokenPlace) -> u64
    ensures length { result ≡ length_in place.old.value.reply.body }
    ensures unchanged { place.new.value ≡ place.old.value }
{
    length_in(&place.as_mut().reply.body)
}

/// The length of the digest or signature that the reply has, and 0 where it has none. Its bytes, or
/// as many of them as there is room for, are copied out.
#[unsafe(no_mangle)]
pub extern "C" fn ospreyrack_bytes(place: &mut TokenPlace, out: &mut [u8]) -> usize
    ensures length { result ≡ length (bytes_in place.old.value.reply.body) }
    ensures copied { out.new ≡ filled_with (bytes_in place.old.value.reply.body) out.old }
    ensures unchanged { place.new.value ≡ place.old.value }
{
    copy_out(bytes_in(&place.as_mut().reply.body), out)
}
