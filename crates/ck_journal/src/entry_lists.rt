ghost use Rattle.std.specs.Prelude.{◌≡◌};
ghost use Rattle.std.specs.Option.{option_copied};

use crate::calls::Entry;
use ck_types::NoMemory;
use std::alloc::Global;
use std::marker::Model;
use std::ops::Range;

/// How many entries a segment has room for.
const SEGMENT: usize = 512;

/// Entries, the oldest first, in segments of one length. A new entry never moves those before it:
/// what grows is the list of segments, by 24 bytes for each.
#[derive(Drop)]
pub(crate) struct EntryList {
    /// Each is full before the next one gets an entry.
    segments: Vec<Vec<Entry>>,
    len: usize,
    /// For how many entries the segments have room in all.
    capacity: usize,
}

impl Model for EntryList {
    ghost use Rattle.std.specs.Prelude.{◌-◌};
    ghost use Rattle.ck_journal.specs.Segments.{EntryListState, IsSegmented, joined};

    ghost Value = { EntryListState };

    ghost view = { λ l. record {
      items = joined l.segments.items;
      spare = l.capacity - l.len;
    } };

    ghost invariant = { λ l. IsSegmented l.len l.capacity l.segments.items };
}

impl EntryList {
    ghost use Rattle.std.specs.Prelude.{[], ◌∷◌, ◌++◌, ◌+◌, ◌<◌, ◌≤◌, IsOk, OnOk, length};
    ghost use Rattle.std.specs.Prelude.{slice_get};

    /// No entries. It takes no memory.
    pub(crate) fn new(alloc: Global) -> EntryList
        ensures { result.items ≡ [] }
    {
        EntryList {
            segments: Vec::new(alloc),
            len: 0,
            capacity: 0,
        }
    }

    /// How many entries there are.
    pub(crate) fn len(&self) -> usize
        ensures { result ≡ length self.now.items }
    {
        self.len
    }

    /// For how many more entries there is room.
    pub(crate) fn spare(&self) -> usize
        ensures { result ≡ self.now.spare }
    {
        self.capacity - self.len
    }

    /// The entry at this position, from 0.
    pub(crate) fn get(&self, index: usize) -> Option<&Entry>
        ensures { option_copied result ≡ slice_get self.now.items index }
    {
        self.segments.get(index / SEGMENT)?.get(index % SEGMENT)
    }

    /// Makes room for `count` more entries.
    pub(crate) fn reserve(&mut self, count: usize) -> Result<(), NoMemory>
        ensures items { self.new.items ≡ self.old.items }
        ensures room { OnOk result (count ≤ self.new.spare) }
        ensures spare { self.old.spare ≤ self.new.spare }
        ensures succeeds { count ≤ self.old.spare → IsOk result }
    {
        while self.spare() < count {
            self.add_segment()?;
        }
        Ok(())
    }

    /// Makes room for the entries of one more segment.
    fn add_segment(&mut self) -> Result<(), NoMemory>
        ensures items { self.new.items ≡ self.old.items }
        ensures room { OnOk result (self.old.spare < self.new.spare) }
        ensures spare { self.old.spare ≤ self.new.spare }
    {
        let capacity = self.capacity.checked_add(SEGMENT).ok_or(NoMemory)?;
        let alloc = *self.segments.allocator();
        self.segments.push(Vec::with_capacity(alloc, SEGMENT)?)?;
        self.capacity = capacity;
        Ok(())
    }

    /// Adds an entry. There must be room for it; this takes no memory.
    pub(crate) fn push_reserved(&mut self, entry: Entry)
        requires { 0 < self.old.spare }
        ensures items { self.new.items ≡ self.old.items ++ entry ∷ [] }
        ensures spare { self.old.spare ≡ self.new.spare + 1 }
    {
        self.segments[self.len / SEGMENT].push_reserved(entry);
        self.len += 1;
    }

    /// The entries one by one, the oldest first.
    pub(crate) fn iter(&self) -> Entries<'_>
        ensures { result ≡ self.now.items }
    {
        Entries {
            entries: self,
            positions: 0..self.len(),
        }
    }
}

/// The entries of a journal one by one, the oldest first.
#[derive(Drop)]
pub struct Entries<'a> {
    entries: &'a EntryList,
    /// The positions of those that are left.
    positions: Range<usize>,
}

impl<'a> Model for Entries<'a> {
    ghost use Rattle.std.specs.Prelude.{◌≡◌, List, drop, length};
    ghost use Rattle.ck_journal.specs.declared.calls.Entry.{Entry};

    // the entries that are left
    ghost Value = { List Entry };

    ghost view = { λ e. drop e.positions.start e.entries.now.items };

    ghost invariant = { λ e. e.positions.end ≡ length e.entries.now.items };
}

impl<'a> Iterator for Entries<'a> {
    ghost use Rattle.std.specs.Iterator.{YieldsFirstRef, item_count};

    type Item = &'a Entry;

    ghost next_gives = { YieldsFirstRef (λ e. e) };

    ghost remaining = { item_count (λ e. e) };

    fn next(&mut self) -> Option<&'a Entry> {
        let position = self.positions.next()?;
        self.entries.get(position)
    }
}
