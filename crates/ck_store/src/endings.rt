//! What ends session objects. These functions see only the slab and the lists, so their clauses
//! speak of these, and those of `Store` of a history.
ghost use Rattle.std.specs.Prelude.{◌≡◌, ℕ, Bool, Contains, Some, true};
ghost use Rattle.ck_store.specs.Rows.{is_ended_by, concerns};
ghost use Rattle.ck_store.specs.Index.{LeavesOthers, HasNone, IsListed};
ghost use Rattle.ck_store.specs.declared.places.Place.{Place};

use crate::places::{Place, object_at};
use crate::session_lists::SessionList;
use crate::stored_objects::StoredObject;
use slab::Slab;

/// What ends session objects.
#[derive(Clone, Copy)]
pub(crate) enum Ending {
    /// The session is closed.
    Session(u64),
    /// All sessions are closed.
    AllSessions,
    /// A logout, which ends the private ones.
    Logout,
}

impl Ending {
    /// Whether it ends the objects of this list.
    pub(crate) fn concerns(self, list: &SessionList) -> bool
        ensures { result ≡ concerns self list.now.session list.now.private }
    {
        match self {
            Ending::Session(closed) => closed == list.session,
            Ending::AllSessions => true,
            Ending::Logout => list.private,
        }
    }
}

/// Removes the object of the place, where the ending ends it.
fn end_object(objects: &mut Slab<StoredObject>, place: Place, ending: Ending)
    ensures left { LeavesOthers (is_ended_by ending) objects.old objects.new }
    ensures ended { HasNone (is_ended_by ending) objects.new place }
{
    let Some(object) = object_at(objects, place) else {
        return;
    };
    // An ending that concerns a list ends each of its objects. This test is made again for the
    // clauses, and for the newest object, which is in no list.
    if object.is_ended_by(ending) {
        objects.try_remove(place.key);
    }
}

/// Removes those objects of these places that the ending ends.
fn end_objects(objects: &mut Slab<StoredObject>, places: &[Place], ending: Ending)
    ensures left { LeavesOthers (is_ended_by ending) objects.old objects.new }
    ensures ended { (p : Place) → Contains places.now p
        → HasNone (is_ended_by ending) objects.new p }
{
    for place in places {
        end_object(objects, *place, ending);
    }
}

/// Removes the objects that the ending ends, by the lists that it concerns.
pub(crate) fn end_listed(objects: &mut Slab<StoredObject>, lists: &[SessionList], ending: Ending)
    ensures left { LeavesOthers (is_ended_by ending) objects.old objects.new }
    ensures ended { (session : ℕ) (private : Bool) (p : Place)
        → IsListed lists.now session private p → concerns ending session private ≡ true
        → HasNone (is_ended_by ending) objects.new p }
{
    for list in lists {
        if ending.concerns(list) {
            end_objects(objects, &list.places, ending);
        }
    }
}

/// Ends the newest object, where it is in no list yet and the ending ends it.
pub(crate) fn end_newest(objects: &mut Slab<StoredObject>, unlisted: Option<Place>, ending: Ending)
    ensures left { LeavesOthers (is_ended_by ending) objects.old objects.new }
    ensures ended { (p : Place) → unlisted ≡ Some p
        → HasNone (is_ended_by ending) objects.new p }
{
    if let Some(place) = unlisted {
        end_object(objects, place, ending);
    }
}
