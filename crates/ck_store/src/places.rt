//! Where objects lie. These functions see only the slab and the index, so their clauses speak of
//! these, and those of `Store` of a history.
ghost use Rattle.std.specs.Prelude.{◌≡◌, ◌<◌, ◌+◌, ◌-◌, ℕ, length, find, filter, position, get_or};
ghost use Rattle.std.specs.Prelude.{IfOk, IfSome, IsOk, Contains, Some, []};
ghost use Rattle.std.specs.Option.{option_copied};
ghost use Rattle.slab.specs.Slab.{get};
ghost use Rattle.ck_store.specs.Rows.{ObjectRow, PassesChange, has_number, matching_numbers};
ghost use Rattle.ck_store.specs.Rows.{with_key_state, matching_number};
ghost use Rattle.ck_store.specs.Labels.{IsMarked, IsMarkOf, IsWanted};
ghost use Rattle.ck_store.specs.Index.{place, is_at, object_at, objects_at, is_there, IsIndex};
ghost use Rattle.ck_store.specs.Index.{PlacesRise, IsShort};
ghost use Rattle.ck_store.specs.Index.{IsChanged, IsGiven, IsKeyOf, LeavesOthers, EndsAll};
ghost use Rattle.ck_store.specs.declared.places.Place.{Place};

use crate::labels::{has_other_label, mark_of, wanted_mark};
use crate::stored_objects::StoredObject;
use ck_journal::View;
use ck_objects::{KeyState, Template};
use ck_types::NoMemory;
use slab::Slab;
use std::alloc::Global;

/// Where the object of a number lies: under this key of the slab, which is no cryptographic key.
/// Once the object has ended, another object may lie under the key.
#[derive(Clone, Copy)]
pub(crate) struct Place {
    pub(crate) number: u64,
    pub(crate) key: usize,
}

/// The object of a place, where it hasn't ended.
pub(crate) fn object_at(objects: &Slab<StoredObject>, place: Place) -> Option<&StoredObject>
    ensures { option_copied result ≡ object_at objects.now place }
{
    let object = objects.get(place.key)?;
    (object.number() == place.number).then_some(object)
}

/// Whether the object of the place hasn't ended.
fn is_there(objects: &Slab<StoredObject>, place: Place) -> bool
    ensures { result ≡ is_there objects.now place }
{
    object_at(objects, place).is_some()
}

/// A guess at the position of a number in the index: as far from the first position as the number
/// is from the index's first number. `None` where the number doesn't stand there, as where a number
/// between the two is missing.
fn guess_position(index: &[Place], number: u64) -> Option<usize>
    ensures found { IfSome result (λ i. (i < length index.now)
        × ((get_or index.now i (place 0 0)).number ≡ number)) }
    ensures tried { (i : ℕ) → i < length index.now
        → number ≡ (get_or index.now 0 (place 0 0)).number + i
        → (get_or index.now i (place 0 0)).number ≡ number → result ≡ Some i }
{
    let first = index.first()?;
    let guess = number.checked_sub(first.number)? as usize;
    (guess < index.len() && index[guess].number == number).then_some(guess)
}

/// The position of a number in an index whose numbers are ascending. A guess comes first, since a
/// binary search of a large index takes long: most places that it looks at are in no cache.
fn position_of(index: &[Place], number: u64) -> Option<usize>
    ensures within { IfSome result (λ i. i < length index.now) }
    ensures position { PlacesRise index.now → result ≡ position (is_at number) index.now }
{
    if let Some(position) = guess_position(index, number) {
        return Some(position);
    }
    index
        .binary_search_by_key(&number, |place| place.number)
        .ok()
}

/// The place that the object of a number has where no object had ended before it was created. Among
/// many objects the index is in no cache, so this place is tried first.
fn guess_place(number: u64) -> Place
    ensures number { result.number ≡ number }
    ensures key { result.key ≡ number - 1 }
{
    let key = number.saturating_sub(1) as usize;
    Place { number, key }
}

/// The slab's key of the object that has the number.
pub(crate) fn key_of(objects: &Slab<StoredObject>, index: &[Place], number: u64) -> Option<usize>
    ensures { IsIndex objects.now index.now → IsKeyOf objects.now number result }
{
    let guess = guess_place(number);
    if is_there(objects, guess) {
        return Some(guess.key);
    }
    let place = index[position_of(index, number)?];
    // No `then_some`, so that the proof has the two cases apart.
    if is_there(objects, place) {
        Some(place.key)
    } else {
        None
    }
}

/// The object that has the number.
pub(crate) fn find_numbered<'a>(
    objects: &'a Slab<StoredObject>,
    index: &[Place],
    number: u64,
) -> Option<&'a StoredObject>
    ensures { IsIndex objects.now index.now
        → option_copied result ≡ find (has_number number) (objects_at objects.now index.now) }
{
    objects.get(key_of(objects, index, number)?)
}

/// The number of the place's object, where it is visible and matches the template. `wanted` is the
/// mark of the label that the template asks for, or 0.
fn match_at(
    objects: &Slab<StoredObject>,
    marks: &[u32],
    place: Place,
    wanted: u32,
    view: View,
    template: &Template,
) -> Option<u64>
    ensures { IsMarked objects.now marks.now → IsWanted template.now.items wanted
        → result ≡ matching_number view template.now.items (object_at objects.now place) }
{
    if has_other_label(marks, place.key, wanted) {
        return None;
    }
    let object = object_at(objects, place)?;
    object.is_match(view, template).then_some(object.number())
}

/// The numbers of the objects that are visible and match the template. Most searches find few
/// objects, so room is made as they are found.
pub(crate) fn find_matching(
    alloc: Global,
    objects: &Slab<StoredObject>,
    index: &[Place],
    marks: &[u32],
    view: View,
    template: &Template,
) -> Result<Vec<u64>, NoMemory>
    ensures found { IfOk result (λ numbers. IsMarked objects.now marks.now → numbers.items
        ≡ matching_numbers view template.now.items (objects_at objects.now index.now)) }
    ensures none { IsMarked objects.now marks.now
        → matching_numbers view template.now.items (objects_at objects.now index.now) ≡ []
        → IsOk result }
{
    let wanted = wanted_mark(template);
    let mut numbers = Vec::new(alloc);
    for place in index {
        if let Some(number) = match_at(objects, marks, *place, wanted, view, template) {
            numbers.push(number)?;
        }
    }
    Ok(numbers)
}

/// Gives the object under the key the values of a change. The result is the mark of its label.
pub(crate) fn change_at(objects: &mut Slab<StoredObject>, key: usize, values: Template) -> u32
    requires { (row : ObjectRow) → get objects.old key ≡ Some row → PassesChange values.items row }
    ensures given { (number : ℕ) → IsKeyOf objects.old number (Some key)
        → IsGiven number values.items objects.old objects.new }
    ensures mark { (row : ObjectRow) → get objects.new key ≡ Some row
        → IsMarkOf row.attributes result }
{
    match objects.get_mut(key) {
        None => 0,
        Some(object) => {
            object.change(values);
            mark_of(object.attributes())
        }
    }
}

/// Gives the secret key that lies under the slab's key this state.
pub(crate) fn set_state_at(objects: &mut Slab<StoredObject>, key: usize, state: KeyState)
    ensures { (number : ℕ) → IsKeyOf objects.old number (Some key)
        → IsChanged (with_key_state number state) objects.old objects.new }
{
    if let Some(object) = objects.get_mut(key) {
        object.set_state(state);
    }
}

/// Drops the places whose objects have ended.
pub(crate) fn drop_ended(objects: &Slab<StoredObject>, places: &mut Vec<Place>)
    ensures { places.new.items ≡ filter (is_there objects.now) places.old.items }
{
    places.retain(|place| is_there(objects, *place));
}

/// Ends the object that has the number.
pub(crate) fn remove_numbered(objects: &mut Slab<StoredObject>, index: &[Place], number: u64)
    ensures left { IsIndex objects.old index.now
        → LeavesOthers (has_number number) objects.old objects.new }
    ensures ended { IsIndex objects.old index.now → EndsAll (has_number number) objects.new }
{
    if let Some(key) = key_of(objects, index, number) {
        objects.try_remove(key);
    }
}

/// Drops the places of ended objects, where the index has more than 2n + 1 places for n objects.
pub(crate) fn compact(objects: &Slab<StoredObject>, index: &mut Vec<Place>)
    ensures objects { objects_at objects.now index.new.items
        ≡ objects_at objects.now index.old.items }
    ensures is_index { IsIndex objects.now index.old.items → IsIndex objects.now index.new.items }
    ensures only { (p : Place) → Contains index.new.items p → Contains index.old.items p }
    ensures short { IsIndex objects.now index.old.items → IsShort objects.now index.new.items }
    ensures stays { IsShort objects.now index.old.items → index.new.items ≡ index.old.items }
{
    if index.len() / 2 > objects.len() {
        drop_ended(objects, index);
    }
}
