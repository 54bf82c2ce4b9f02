use crate::call_names::CallName;
use ck_types::NoMemory;
use std::alloc::Global;
use strsim::generic_levenshtein;

/// Two names that differ in this many letters are not similar.
const TOO_MANY_EDITS: usize = 3;

/// The most bytes of a text that is compared with the names.
const LONGEST_TEXT: usize = 24;

/// The call whose name is nearest to the text, upper and lower case taken as one, and the `C_` of
/// the standard's names left out.
pub(crate) fn similar_name(alloc: Global, text: &[u8]) -> Result<Option<CallName>, NoMemory> {
    if text.len() > LONGEST_TEXT {
        return Ok(None);
    }
    let lower = text.to_ascii_lowercase(alloc)?;
    let letters = lower.strip_prefix(b"c_").unwrap_or(&lower);
    let mut nearest = None;
    let mut fewest = TOO_MANY_EDITS;
    for name in CallName::all() {
        let other = name.text().as_bytes().to_ascii_lowercase(alloc)?;
        let edits = generic_levenshtein(alloc, letters, &other)?;
        if edits < fewest {
            fewest = edits;
            nearest = Some(name);
        }
    }
    Ok(nearest)
}
