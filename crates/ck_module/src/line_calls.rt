ghost use Rattle.std.specs.Prelude.{◌≡◌, length};
ghost use Rattle.ck_foreign.specs.Calls.{IsLineOf, IsTextOf};
ghost use Rattle.ck_foreign.specs.Copies.{filled_with};

use crate::places::TokenPlace;
use ck_foreign::copy_out;
use std::alloc::Global;

/// Makes the call of a line of a script, which stands here without its line end.
#[unsafe(no_mangle)]
pub extern "C" fn ospreyrack_line(alloc: Global, place: &mut TokenPlace, line: &[u8]) -> u32
    ensures { IsLineOf line.now result place.old.value place.new.value }
{
    place.as_mut().line(alloc, line).number()
}

/// Makes the text of the reply to the last answered call, without a line end, and gives 0. Where
/// there is no memory for it, gives 2, and nothing is said of the text.
#[unsafe(no_mangle)]
pub extern "C" fn ospreyrack_write_text(place: &mut TokenPlace) -> u32
    ensures { IsTextOf result place.old.value place.new.value }
{
    place.as_mut().write_text().number()
}

/// The length of the text that was last made. Its bytes, or as many of them as there is room for,
/// are copied out.
#[unsafe(no_mangle)]
pub extern "C" fn ospreyrack_text(place: &mut TokenPlace, out: &mut [u8]) -> usize
    ensures length { result ≡ length place.old.value.text.items }
    ensures copied { out.new ≡ filled_with place.old.value.text.items out.old }
    ensures unchanged { place.new.value ≡ place.old.value }
{
    copy_out(&place.as_mut().text, out)
}
