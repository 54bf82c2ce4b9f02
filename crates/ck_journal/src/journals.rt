ghost use Rattle.std.specs.Prelude.{◌≡◌};
ghost use Rattle.std.specs.Option.{option_copied};

use crate::bases::Base;
use crate::calls::Entry;
use crate::entry_lists::{Entries, EntryList};
use ck_types::NoMemory;
use std::alloc::Global;
use std::marker::Model;

/// The answered calls since a base, numbered from 1 in the order of their answers.
#[derive(Drop)]
pub struct Journal {
    base: Base,
    entries: EntryList,
}

impl Model for Journal {
    ghost use Rattle.std.specs.Prelude.{reverse};
    ghost use Rattle.std.specs.Coded.{codes};
    ghost use Rattle.ck_journal.specs.Bases.{IsSound};
    ghost use Rattle.ck_journal.specs.Histories.{JournalState, start, followed_by};
    ghost use Rattle.ck_journal.specs.HistoryCode.{history_code};

    ghost Value = { JournalState };

    ghost coded = { Prim.hlevel (codes, history_code) };

    ghost view = { λ j. record {
      history = followed_by (start j.base) (reverse j.entries.items);
      spare = j.entries.spare;
    } };

    ghost invariant = { λ j. IsSound j.base };
}

impl Journal {
    ghost use Rattle.std.specs.Prelude.{◌+◌, ◌<◌, ◌≤◌, ◌↔◌, IsTrue, IsOk, OnOk};
    ghost use Rattle.ck_journal.specs.Bases.{empty_base, IsSound};
    ghost use Rattle.ck_journal.specs.Histories.{start, ◌◁◌, start_of, entry_at, entry_count};
    ghost use Rattle.ck_journal.specs.Fronts.{history_of, newest_entry};

    /// The journal of a new token, which has no entries and takes no memory.
    pub fn new(alloc: Global) -> Journal
        ensures { result.history ≡ start empty_base }
    {
        Journal::from_base(alloc, Base::empty(alloc))
    }

    /// A journal that starts from a base and has no entries. It takes no memory.
    pub fn from_base(alloc: Global, base: Base) -> Journal
        requires { IsSound base }
        ensures { result.history ≡ start base }
    {
        Journal {
            base,
            entries: EntryList::new(alloc),
        }
    }

    /// What the journal starts from.
    #[tactic(auto, using(crate::proofs::EntryLemmas::entries))]
    pub fn base(&self) -> &Base
        ensures base { result.now ≡ start_of self.now.history }
        ensures sound { IsSound result.now }
    {
        &self.base
    }

    /// Makes room for `count` more entries. Where there is no memory for all of them, the room that
    /// was made so far stays.
    pub fn reserve(&mut self, count: u64) -> Result<(), NoMemory>
        ensures history { self.new.history ≡ self.old.history }
        ensures room { OnOk result (count ≤ self.new.spare) }
        ensures spare { self.old.spare ≤ self.new.spare }
        ensures succeeds { count ≤ self.old.spare → IsOk result }
    {
        self.entries.reserve(count as usize)
    }

    /// For how many more entries there is room.
    pub fn spare(&self) -> u64
        ensures { result ≡ self.now.spare }
    {
        self.entries.spare() as u64
    }

    /// Adds an entry. There must be room for it; this takes no memory.
    pub fn push_reserved(&mut self, entry: Entry)
        requires { 0 < self.old.spare }
        ensures history { self.new.history ≡ entry ◁ self.old.history }
        ensures spare { self.old.spare ≤ self.new.spare + 1 }
    {
        self.entries.push_reserved(entry);
    }

    /// The entry of this number, from 1.
    #[tactic(auto, using(crate::proofs::EntryLemmas::entries))]
    pub fn entry(&self, number: u64) -> Option<&Entry>
        ensures { option_copied result ≡ entry_at self.now.history number }
    {
        // A test and no `checked_sub(1)?`: of that `None` the proof knows too little.
        if number == 0 {
            return None;
        }
        self.entries.get((number - 1) as usize)
    }

    /// The entries one by one, the oldest first.
    pub fn iter(&self) -> Entries<'_>
        ensures { self.now.history ≡ history_of (start_of self.now.history) result }
    {
        self.entries.iter()
    }

    /// The newest entry.
    pub fn newest(&self) -> Option<&Entry>
        ensures { option_copied result ≡ newest_entry self.now.history }
    {
        self.entry(self.len())
    }

    /// How many entries there are.
    #[tactic(auto, using(crate::proofs::EntryLemmas::entries))]
    pub fn len(&self) -> u64
        ensures { result ≡ entry_count self.now.history }
    {
        self.entries.len() as u64
    }

    /// Whether there are no entries.
    pub fn is_empty(&self) -> bool
        ensures { IsTrue result ↔ (self.now.history ≡ start (start_of self.now.history)) }
    {
        self.len() == 0
    }
}
