//! Marks of labels. By them a search for a label passes over most objects with another label, and
//! looks at none of their attributes. 0 stands for no mark: an `Option` would take twice the bytes
//! for each object.
ghost use Rattle.std.specs.Prelude.{◌≡◌, ◌≢◌, ◌⊎◌, ℕ, get_or};
ghost use Rattle.ck_store.specs.Labels.{label_mark, IsMarkOf, IsWanted, has_other_label};

use ck_objects::{Attribute, Field, Record, Template};

/// FNV's offset basis for 32 bits.
const FNV_BASIS: u32 = 0x811c_9dc5;

/// FNV's prime for 32 bits.
const FNV_PRIME: u32 = 0x0100_0193;

/// The mark of a label, a hash of 32 bits: FNV-1, except that each byte is added, and not combined
/// by exclusive or, so that the definition is plain arithmetic. Equal labels have equal marks, and
/// others seldom have.
fn label_mark(label: &[u8]) -> u32
    ensures { result ≡ label_mark label.now }
{
    let mut mark = FNV_BASIS;
    for byte in label {
        mark = mark.wrapping_mul(FNV_PRIME).wrapping_add(u32::from(*byte));
    }
    mark
}

/// The mark of an object's label. A mark of 0 counts as none, even where it is a label's.
pub(crate) fn mark_of(attributes: &Record) -> u32
    ensures { IsMarkOf attributes.now result }
{
    match attributes.readable(Attribute::Label.number()) {
        Ok(Field::Bytes(label)) => label_mark(label.as_slice()),
        _ => 0,
    }
}

/// The mark of the label that a template asks for, or 0 where it asks for none.
pub(crate) fn wanted_mark(template: &Template) -> u32
    ensures { IsWanted template.now.items result }
{
    let items = template.items.as_slice();
    let label = Attribute::Label.number();
    match items.iter().find(|item| item.kind == label) {
        None => 0,
        Some(item) => label_mark(item.value.as_slice()),
    }
}

/// Whether the marks show that the object under the key has another label than the wanted one. A
/// missing mark or 0 shows nothing.
pub(crate) fn has_other_label(marks: &[u32], key: usize, wanted: u32) -> bool
    ensures { result ≡ has_other_label (get_or marks.now key 0) wanted }
{
    marks
        .get(key)
        .is_some_and(|mark| *mark != 0 && wanted != 0 && *mark != wanted)
}

/// Writes the mark of the object under the key, where there is room for it.
pub(crate) fn set_mark(marks: &mut Vec<u32>, key: usize, mark: u32)
    ensures set { (get_or marks.new.items key 0 ≡ mark) ⊎ (get_or marks.new.items key 0 ≡ 0) }
    ensures others { (other : ℕ) → other ≢ key
        → get_or marks.new.items other 0 ≡ get_or marks.old.items other 0 }
{
    if key < marks.len() {
        marks[key] = mark;
    }
}

/// Makes room for the marks of the keys below `past`, where there is memory for it.
pub(crate) fn grow_marks(marks: &mut Vec<u32>, past: usize)
    ensures { (key : ℕ) → (get_or marks.new.items key 0 ≡ get_or marks.old.items key 0)
        ⊎ (get_or marks.new.items key 0 ≡ 0) }
{
    if marks.len() < past {
        // A search looks at an object without a mark, so a refused growth is passed over.
        let _ = marks.resize(past, 0);
    }
}
