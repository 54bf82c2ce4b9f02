use crate::bases::copy_objects;
use crate::endings::{Ending, end_listed, end_newest};
use crate::labels::{grow_marks, mark_of, set_mark};
use crate::places::{
    Place, change_at, compact, find_matching, find_numbered, key_of, remove_numbered, set_state_at,
};
use crate::session_lists::{SessionList, list_newest};
use crate::stored_objects::StoredObject;
use ck_journal::{Base, KeptObject, View, number_of_handle};
use ck_objects::{KeyState, Record, Template};
use ck_types::{NoMemory, Sequence};
use slab::Slab;
use std::alloc::Global;
use std::marker::Model;

/// The token's objects (PKCS #11 Base 3.0, Objects).
#[derive(Drop)]
pub struct Store {
    objects: Slab<StoredObject>,
    /// The places of all objects, by ascending number. A place stays in it for a while after its
    /// object has ended: until there are more than 2n + 1 places for n objects.
    index: Vec<Place>,
    /// The places of session objects, by session. That of the newest one may be missing.
    lists: Vec<SessionList>,
    /// The newest object's place, until the next `reserve`, which adds it to a list of its session
    /// where it is a session object's. A list may need memory, and a creation takes none once room
    /// was made.
    unlisted: Option<Place>,
    /// How many objects have been created.
    creations: u64,
    /// The marks of the objects' labels, by the objects' keys in the slab; 0 where one is missing.
    marks: Vec<u32>,
}

impl Model for Store {
    ghost use Rattle.std.specs.Prelude.{◌-◌, ◌<◌, ◌^◌, min, is_some, if◌then◌else◌};
    ghost use Rattle.std.specs.Prelude.{vec_len, vec_capacity};
    ghost use Rattle.slab.specs.Slab.{slab_len};
    ghost use Rattle.ck_store.specs.Agreement.{StoreState};
    ghost use Rattle.ck_store.specs.Index.{IsShort, IsIntact, objects_at};
    ghost use Rattle.ck_store.specs.Labels.{IsMarked};

    ghost Value = { StoreState };

    ghost view = { λ s. record {
      rows = objects_at s.objects s.index.items;
      creations = s.creations;
      spare = if is_some s.unlisted
          then 0
          else min (vec_capacity s.index - vec_len s.index)
          (s.objects.capacity - slab_len s.objects);
    } };

    ghost invariant = { λ s.
        IsIntact s.objects s.index.items s.lists.items s.unlisted s.creations
        × (s.creations < 2 ^ 32) × IsMarked s.objects s.marks.items
        × IsShort s.objects s.index.items };
}

impl Store {
    ghost use Rattle.std.specs.Prelude.{◌≡◌, ◌+◌, ◌<◌, ◌^◌, ℕ, true, None, Some, filter, find, not};
    ghost use Rattle.std.specs.Prelude.{[], ◌∷◌, ◌++◌, IfNone, IfOk, IfSome, IsOk, OnOk};
    ghost use Rattle.ck_store.specs.Rows.{ObjectRow, PassesChange, has_number, is_ended_by};
    ghost use Rattle.ck_store.specs.Rows.{object_row};
    ghost use Rattle.std.specs.Option.{option_copied};
    ghost use Rattle.ck_objects.specs.KeyStates.{state_of_number};
    ghost use Rattle.ck_objects.specs.Records.{changed_error, protections_of};
    ghost use Rattle.ck_objects.specs.Templates.{class_of};
    ghost use Rattle.ck_types.specs.declared.pins.Pin.{Pin};
    ghost use Rattle.ck_journal.specs.Bases.{empty_base, IsSound};
    ghost use Rattle.ck_journal.specs.Cuts.{kept_objects};
    ghost use Rattle.ck_journal.specs.Histories.{History, start, ◌◁◌, done};
    ghost use Rattle.ck_journal.specs.Objects.{creates, creation_session, creation_attributes};
    ghost use Rattle.ck_journal.specs.Objects.{creations, object_at, view_of};
    ghost use Rattle.ck_journal.specs.Objects.{attributes_named, attributes_or_empty, object_named};
    ghost use Rattle.ck_journal.specs.Searches.{matching_objects};
    ghost use Rattle.ck_journal.specs.declared.calls.Call.{Call};
    ghost use Rattle.ck_journal.specs.declared.calls.Call.TheVariants as call;
    ghost use Rattle.ck_journal.specs.declared.calls.Entry.{Entry};
    ghost use Rattle.ck_store.specs.Agreement.{StoreAgrees, handle_at};

    /// The store of a new token, which has no objects and takes no memory.
    pub fn new(alloc: Global) -> Store
        ensures { StoreAgrees (start empty_base) result }
    {
        Store {
            objects: Slab::new(alloc),
            index: Vec::new(alloc),
            lists: Vec::new(alloc),
            unlisted: None,
            creations: 0,
            marks: Vec::new(alloc),
        }
    }

    /// The store that starts from a base: its objects, which are token objects and so no session's,
    /// and its count of creations.
    pub fn from_base(alloc: Global, base: &Base) -> Result<Store, NoMemory>
        requires { IsSound base.now }
        ensures { IfOk result (λ store. StoreAgrees (start base.now) store) }
    {
        let mut store = Store::new(alloc);
        for object in base.objects.as_slice() {
            store.add_kept(object)?;
        }
        store.creations = base.creations;
        Ok(store)
    }

    // ---- readings

    /// How many objects have been created.
    pub fn creations(&self) -> u64
        ensures value { result ≡ self.now.creations }
        ensures creations { (h : History) → StoreAgrees h self.now → result ≡ creations h }
    {
        self.creations
    }

    /// The number and the attributes of the object that a handle names.
    pub fn get(&self, view: View, handle: u64) -> Option<(u64, &Record)>
        requires logins { view.logins < 2 ^ 31 }
        ensures none { (h : History) → StoreAgrees h self.now → view ≡ view_of h
            → IfNone result (attributes_named h handle ≡ None) }
        ensures number { (h : History) → StoreAgrees h self.now → view ≡ view_of h
            → IfSome result (λ found. object_named h handle ≡ Some found.0) }
        ensures attributes { (h : History) → StoreAgrees h self.now → view ≡ view_of h
            → IfSome result (λ found. attributes_named h handle ≡ Some found.1.now) }
    {
        let number = number_of_handle(handle);
        let object = find_numbered(&self.objects, &self.index, number)?;
        // No `then_some`, so that the proof has the two cases apart.
        if object.handle(view) == Some(handle) {
            Some((number, object.attributes()))
        } else {
            None
        }
    }

    /// The attributes of the object that has the number.
    pub fn at(&self, number: u64) -> Option<&Record>
        ensures { (h : History) → StoreAgrees h self.now
            → option_copied result ≡ object_at h number }
    {
        let object = find_numbered(&self.objects, &self.index, number)?;
        Some(object.attributes())
    }

    /// The handle of the object that has the number, where it is visible.
    pub fn handle(&self, view: View, number: u64) -> Option<u64>
        requires logins { view.logins < 2 ^ 31 }
        ensures { (h : History) → StoreAgrees h self.now → view ≡ view_of h
            → result ≡ handle_at h number }
    {
        find_numbered(&self.objects, &self.index, number)?.handle(view)
    }

    /// The numbers, in ascending order, of the objects that are visible and match the template.
    /// Where none does, this takes no memory.
    pub fn find(&self, alloc: Global, view: View, template: &Template) -> Result<Vec<u64>, NoMemory>
        ensures found { IfOk result (λ numbers. (h : History) → StoreAgrees h self.now
            → view ≡ view_of h → numbers.items ≡ matching_objects h template.now.items) }
        ensures none { (h : History) → StoreAgrees h self.now → view ≡ view_of h
            → matching_objects h template.now.items ≡ [] → IsOk result }
    {
        find_matching(
            alloc,
            &self.objects,
            &self.index,
            &self.marks,
            view,
            template,
        )
    }

    /// Copies of the objects, in the order of their creations.
    pub fn kept(&self, alloc: Global) -> Result<Sequence<KeptObject>, NoMemory>
        ensures { IfOk result (λ kept. (h : History) → StoreAgrees h self.now
            → kept ≡ kept_objects h) }
    {
        let kept = copy_objects(alloc, &self.objects, &self.index)?;
        Ok(Sequence::from_vec(kept))
    }

    // ---- changes, each made by a call that is answered CKR_OK

    /// Makes room for one more object, which any session may create. The newest object gets its
    /// place in its session's list here, since this may take memory and a creation may not. Where
    /// there is room already, this succeeds.
    pub fn reserve(&mut self) -> Result<(), NoMemory>
        ensures agree { (h : History) → StoreAgrees h self.old → StoreAgrees h self.new }
        ensures rows { self.new.rows ≡ self.old.rows }
        ensures creations { self.new.creations ≡ self.old.creations }
        ensures room { OnOk result (0 < self.new.spare) }
        ensures succeeds { 0 < self.old.spare → IsOk result }
    {
        let alloc = *self.index.allocator();
        list_newest(alloc, &mut self.lists, &mut self.unlisted, &self.objects)?;
        self.objects.reserve(1)?;
        self.index.reserve(1)?;
        grow_marks(&mut self.marks, self.objects.capacity());
        Ok(())
    }

    /// Adds an object that the session creates or copies.
    pub fn create(&mut self, session: u64, attributes: Record)
        requires room { 0 < self.old.spare }
        requires numbers { self.old.creations + 1 < 2 ^ 32 }
        ensures agree { (h : History) (e : Entry) (c : Call) → done e ≡ Some c
            → creates (Some c) ≡ true → session ≡ creation_session (Some c)
            → attributes ≡ creation_attributes (Some c) (attributes_named h)
            → StoreAgrees h self.old → StoreAgrees (e ◁ h) self.new }
    {
        self.add(self.creations + 1, session, attributes);
    }

    /// Adds an object of a base, which is no session's.
    fn add_kept(&mut self, object: &KeptObject) -> Result<(), NoMemory>
        requires later { self.old.creations < object.now.number }
        requires small { object.now.number < 2 ^ 32 }
        ensures rows { OnOk result (self.new.rows
            ≡ self.old.rows ++ object_row object.now.number 0 object.now.attributes ∷ []) }
        ensures creations { OnOk result (self.new.creations ≡ object.now.number) }
    {
        self.reserve()?;
        let attributes = object.attributes.clone()?;
        // 0 is no session. A base has only token objects, which keep none.
        self.add(object.number, 0, attributes);
        Ok(())
    }

    /// Adds an object whose number is above those of all objects so far.
    fn add(&mut self, number: u64, session: u64, attributes: Record)
        requires room { 0 < self.old.spare }
        requires later { self.old.creations < number }
        requires small { number < 2 ^ 32 }
        ensures rows { self.new.rows ≡ self.old.rows ++ object_row number session attributes ∷ [] }
        ensures creations { self.new.creations ≡ number }
    {
        let mark = mark_of(&attributes);
        let object = StoredObject::new(number, session, attributes);
        let key = self.objects.insert_reserved(object);
        set_mark(&mut self.marks, key, mark);
        let place = Place { number, key };
        self.index.push_reserved(place);
        self.unlisted = Some(place);
        self.creations = number;
    }

    /// Moves the values of a template of C_SetAttributeValue, which passes the checks of a change,
    /// into the object that has the number. This takes no memory.
    pub fn change(&mut self, number: u64, values: Template)
        requires { (row : ObjectRow) → find (has_number number) self.old.rows ≡ Some row
            → PassesChange values.items row }
        ensures agree { (h : History) (e : Entry) (session object : ℕ)
            → done e ≡ Some (call.SetAttributeValue session object values)
            → object_named h object ≡ Some number
            → changed_error (class_of (attributes_or_empty h object))
            (protections_of (attributes_or_empty h object)) values.items ≡ None
            → StoreAgrees h self.old → StoreAgrees (e ◁ h) self.new }
    {
        let Some(key) = key_of(&self.objects, &self.index, number) else {
            return;
        };
        let mark = change_at(&mut self.objects, key, values);
        set_mark(&mut self.marks, key, mark);
    }

    /// Gives the key that has the number this state.
    pub fn set_state(&mut self, number: u64, state: KeyState)
        ensures agree { (h : History) (e : Entry) (session key n : ℕ)
            → done e ≡ Some (call.SetKeyState session key n)
            → state_of_number n ≡ Some state
            → object_named h key ≡ Some number
            → StoreAgrees h self.old → StoreAgrees (e ◁ h) self.new }
    {
        if let Some(key) = key_of(&self.objects, &self.index, number) {
            set_state_at(&mut self.objects, key, state);
        }
    }

    /// Ends the object that has the number.
    pub fn destroy(&mut self, number: u64)
        ensures agree { (h : History) (e : Entry) (session object : ℕ)
            → done e ≡ Some (call.DestroyObject session object)
            → object_named h object ≡ Some number
            → StoreAgrees h self.old → StoreAgrees (e ◁ h) self.new }
    {
        remove_numbered(&mut self.objects, &self.index, number);
        compact(&self.objects, &mut self.index);
    }

    /// Ends all objects. The count of creations stays.
    pub fn clear(&mut self)
        ensures agree { (h : History) (e : Entry) (pin : Pin) → done e ≡ Some (call.InitToken pin)
            → StoreAgrees h self.old → StoreAgrees (e ◁ h) self.new }
    {
        self.objects.clear();
        self.index.clear();
        self.lists.clear();
        self.unlisted = None;
        // The marks stay. One counts only for the object under its key, and a new object sets its
        // own.
    }

    /// Ends the session objects that the session created.
    pub fn end_session(&mut self, session: u64)
        ensures agree { (h : History) (e : Entry) → done e ≡ Some (call.CloseSession session)
            → StoreAgrees h self.old → StoreAgrees (e ◁ h) self.new }
    {
        self.end(Ending::Session(session));
    }

    /// Ends all session objects.
    pub fn end_all_sessions(&mut self)
        ensures agree { (h : History) (e : Entry) → done e ≡ Some call.CloseAllSessions
            → StoreAgrees h self.old → StoreAgrees (e ◁ h) self.new }
    {
        self.end(Ending::AllSessions);
    }

    /// Ends the private session objects.
    pub fn end_private(&mut self)
        ensures agree { (h : History) (e : Entry) (session : ℕ)
            → done e ≡ Some (call.Logout session)
            → StoreAgrees h self.old → StoreAgrees (e ◁ h) self.new }
    {
        self.end(Ending::Logout);
    }

    /// Ends session objects, and drops the lists whose objects end.
    fn end(&mut self, ending: Ending)
        ensures rows { self.new.rows
            ≡ filter (λ row. not (is_ended_by ending row)) self.old.rows }
        ensures creations { self.new.creations ≡ self.old.creations }
    {
        end_listed(&mut self.objects, &self.lists, ending);
        end_newest(&mut self.objects, self.unlisted, ending);
        self.lists.retain(|list| !ending.concerns(list));
        compact(&self.objects, &mut self.index);
    }
}
