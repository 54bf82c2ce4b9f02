ghost use Rattle.std.specs.Prelude.{◌≡◌, ◌≤◌, Result, true};
ghost use Rattle.std.specs.Borrow.{sem, full_share};
ghost use Rattle.std.specs.Mem.{type_size};
ghost use Rattle.std.specs.Ptr.{lies_at, room_at};
ghost use Rattle.ck_journal.specs.Histories.{entry_count};
ghost use Rattle.ck_foreign.specs.Calls.{IsSame};
ghost use Rattle.ck_foreign.specs.Lives.{IsNew, IsModuleCut, cut_number};
ghost use Rattle.ck_foreign.specs.contracts.modules.Module.{the_row};
ghost use Rattle.ck_foreign.specs.declared.modules.Module.{Module};
ghost use Rattle.ck_token.specs.declared.cuts.Uncut.{Uncut};

use crate::places::TokenPlace;
use ck_foreign::Module;
use ck_token::Uncut;
use std::alloc::Global;

/// How many bytes a token takes.
#[unsafe(no_mangle)]
pub extern "C" fn ospreyrack_size() -> usize
    ensures { result ≡ type_size the_row }
{
    size_of::<Module>()
}

/// Makes a new token in the room that C gives. It takes no other memory.
///
/// # Safety
///
/// `at` is the address, a multiple of 16, of `ospreyrack_size` bytes that nothing else uses.
#[unsafe(no_mangle)]
pub unsafe extern "C" fn ospreyrack_make(alloc: Global, at: *mut u8)
    requires* { sem 𝓛 (room_at the_row at) }
    ensures* { ∃ₛ (λ (m : Module). sem 𝓛 (lies_at the_row full_share at m) ∗ ⌜ IsNew m ⌝) }
{
    let module = Module::new(alloc);
    std::ptr::write(at as *mut Module, module);
}

/// Makes the token a new one, and gives back all memory that it has taken.
#[unsafe(no_mangle)]
pub extern "C" fn ospreyrack_reset(alloc: Global, place: &mut TokenPlace)
    ensures { IsNew place.new.value }
{
    *place.as_mut() = Module::new(alloc);
}

/// Cuts the token's journal and gives 0; 1 where a session is open, 2 where there is no memory.
#[unsafe(no_mangle)]
pub extern "C" fn ospreyrack_cut(alloc: Global, place: &mut TokenPlace) -> u32
    ensures { (cut : Result (Unit {0}) Uncut) × (result ≡ cut_number cut)
        × IsModuleCut cut place.old.value place.new.value }
{
    match place.as_mut().cut(alloc) {
        Ok(()) => 0,
        Err(Uncut::Session) => 1,
        Err(Uncut::Memory) => 2,
    }
}

/// Makes room in the token's journal for this many more entries, and says whether there was memory
/// for it.
#[unsafe(no_mangle)]
pub extern "C" fn ospreyrack_reserve(place: &mut TokenPlace, count: u64) -> bool
    ensures room { result ≡ true → count ≤ place.new.value.token.spare }
    ensures same { IsSame place.old.value place.new.value }
    ensures succeeds { count ≤ place.old.value.token.spare → result ≡ true }
{
    place.as_mut().token.reserve(count).is_ok()
}

/// How many entries the token's journal has.
#[unsafe(no_mangle)]
pub extern "C" fn ospreyrack_entries(place: &mut TokenPlace) -> u64
    ensures entries { result ≡ entry_count place.old.value.token.history }
    ensures unchanged { place.new.value ≡ place.old.value }
{
    place.as_mut().token.journal().len()
}
