//! Lists of the session objects of each session. These functions see only the slab and the lists,
//! so their clauses speak of these, and those of `Store` of a history.
ghost use Rattle.std.specs.Prelude.{◌≡◌, ◌<◌, ◌⊎◌, ℕ, [], Some, Bool, Contains, IsOk, OnOk, IfSome};
ghost use Rattle.std.specs.Prelude.{List, None, length, position, All, true, vec_len, vec_capacity};
ghost use Rattle.ck_store.specs.Rows.{ObjectRow};
ghost use Rattle.ck_store.specs.Index.{IsListed, IsIntact, is_list_of, is_there, object_at};
ghost use Rattle.ck_store.specs.declared.places.Place.{Place};

use crate::places::{Place, drop_ended, object_at};
use crate::stored_objects::StoredObject;
use ck_types::NoMemory;
use slab::Slab;
use std::alloc::Global;

/// The places of a session's private session objects, or of its public ones, so that a logout walks
/// only over private ones. A place stays in the list for a while after its object has ended.
#[derive(Drop)]
pub(crate) struct SessionList {
    pub(crate) session: u64,
    /// Whether its objects are private.
    pub(crate) private: bool,
    pub(crate) places: Vec<Place>,
}

impl SessionList {
    /// A list without places.
    fn new(alloc: Global, session: u64, private: bool) -> SessionList
        ensures session { result.session ≡ session }
        ensures private { result.private ≡ private }
        ensures places { result.places.items ≡ [] }
    {
        SessionList {
            session,
            private,
            places: Vec::new(alloc),
        }
    }

    /// Whether it is the session's list of private objects or, where `private` is false, that of
    /// public ones.
    fn is_list_of(&self, session: u64, private: bool) -> bool
        ensures { result ≡ is_list_of session private self.now }
    {
        self.session == session && self.private == private
    }

    /// Adds a place.
    fn push(&mut self, objects: &Slab<StoredObject>, place: Place) -> Result<(), NoMemory>
        ensures session { self.new.session ≡ self.old.session }
        ensures private { self.new.private ≡ self.old.private }
        ensures kept { (p : Place) (row : ObjectRow) → Contains self.old.places.items p
            → object_at objects.now p ≡ Some row → Contains self.new.places.items p }
        ensures added { OnOk result (Contains self.new.places.items place) }
        ensures only { (p : Place) → Contains self.new.places.items p
            → Contains self.old.places.items p ⊎ (p ≡ place) }
    {
        make_room(objects, &mut self.places)?;
        self.places.push_reserved(place);
        Ok(())
    }
}

/// Makes room for one more place. A list that is full first drops the places whose objects have
/// ended, and then gets room for at least half as many as are left. So on average few places are
/// walked over for each one that is added.
fn make_room(objects: &Slab<StoredObject>, places: &mut Vec<Place>) -> Result<(), NoMemory>
    ensures kept { (p : Place) (row : ObjectRow) → Contains places.old.items p
        → object_at objects.now p ≡ Some row → Contains places.new.items p }
    ensures only { (p : Place) → Contains places.new.items p → Contains places.old.items p }
    ensures dropped { vec_len places.old ≡ vec_capacity places.old
        → All (λ p. is_there objects.now p ≡ true) places.new.items }
    ensures room { OnOk result (vec_len places.new < vec_capacity places.new) }
{
    if places.len() == places.capacity() {
        drop_ended(objects, places);
        places.reserve(places.len() / 2 + 1)?;
    }
    Ok(())
}

/// The position of the session's list of private objects or, where `private` is false, of that of
/// public ones.
fn position_of(lists: &[SessionList], session: u64, private: bool) -> Option<usize>
    ensures within { IfSome result (λ i. i < length lists.now) }
    ensures position { result ≡ position (is_list_of session private) lists.now }
{
    lists
        .iter()
        .position(|list| list.is_list_of(session, private))
}

/// Adds a place to the session's list of private objects or, where `private` is false, to that of
/// public ones.
fn add_to_list(
    alloc: Global,
    lists: &mut Vec<SessionList>,
    session: u64,
    private: bool,
    objects: &Slab<StoredObject>,
    place: Place,
) -> Result<(), NoMemory>
    ensures kept { (s : ℕ) (m : Bool) (p : Place) (row : ObjectRow)
        → IsListed lists.old.items s m p → object_at objects.now p ≡ Some row
        → IsListed lists.new.items s m p }
    ensures added { OnOk result (IsListed lists.new.items session private place) }
    ensures only { (s : ℕ) (m : Bool) (p : Place) → IsListed lists.new.items s m p
        → IsListed lists.old.items s m p ⊎ ((s ≡ session) × (m ≡ private) × (p ≡ place)) }
{
    if let Some(i) = position_of(lists, session, private) {
        return lists[i].push(objects, place);
    }
    let mut list = SessionList::new(alloc, session, private);
    list.push(objects, place)?;
    lists.push(list)?;
    Ok(())
}

/// Adds the place of a session object to a list of its session.
fn list_object(
    alloc: Global,
    lists: &mut Vec<SessionList>,
    objects: &Slab<StoredObject>,
    place: Place,
) -> Result<(), NoMemory>
    ensures tried { (index : List Place) (creations : ℕ)
        → IsIntact objects.now index lists.old.items (Some place) creations
        → IsIntact objects.now index lists.new.items (Some place) creations }
    ensures listed { OnOk result ((index : List Place) (creations : ℕ)
        → IsIntact objects.now index lists.old.items (Some place) creations
        → IsIntact objects.now index lists.new.items None creations) }
{
    let Some(object) = object_at(objects, place) else {
        return Ok(());
    };
    match object.session() {
        Some(session) => add_to_list(alloc, lists, session, object.is_private(), objects, place),
        None => Ok(()),
    }
}

/// Adds the newest object to the list of its session, where it is a session object.
pub(crate) fn list_newest(
    alloc: Global,
    lists: &mut Vec<SessionList>,
    unlisted: &mut Option<Place>,
    objects: &Slab<StoredObject>,
) -> Result<(), NoMemory>
    ensures intact { (index : List Place) (creations : ℕ)
        → IsIntact objects.now index lists.old.items unlisted.old creations
        → IsIntact objects.now index lists.new.items unlisted.new creations }
    ensures listed { OnOk result (unlisted.new ≡ None) }
    ensures succeeds { unlisted.old ≡ None → IsOk result }
{
    if let Some(place) = *unlisted {
        list_object(alloc, lists, objects, place)?;
        *unlisted = None;
    }
    Ok(())
}
