ghost use Rattle.std.specs.Prelude.{◌≡◌, ◌≤◌, ◌↔◌, IfNone, IfSome, IsTrue, if◌then◌else◌};
ghost use Rattle.ck_journal.specs.Boards.{board_of};
ghost use Rattle.ck_journal.specs.Callers.{call_count};
ghost use Rattle.ck_journal.specs.Fronts.{IsFront};
ghost use Rattle.ck_journal.specs.Histories.{start};
ghost use Rattle.ck_callers.specs.KnownHistories.{Covers, HasNext};

use crate::histories::Front;
use crate::identity::TokenId;
use ck_journal::MOST_CALLERS;
use std::marker::Model;

/// `MOST_CALLERS`, as the length of an array.
const CALLERS: usize = MOST_CALLERS as usize;

/// A history, how many calls of each caller it has, and a front of it since which no entry has
/// changed the board. Contracts see the two histories.
#[derive(Drop)]
pub struct KnownHistory<K: TokenId> {
    front: Front<K>,
    changed: Front<K>,
    /// How many calls of each caller the history has, those of caller 1 first. Read only in `look`,
    /// by a comparison that tells the prover that the history has no other entries of the caller.
    calls: [u64; CALLERS],
}

impl<K: TokenId> Model for KnownHistory<K> {
    ghost use Rattle.std.specs.Prelude.{◌≡◌};
    ghost use Rattle.std.specs.Coded.{codes};
    ghost use Rattle.ck_journal.specs.Callers.{call_counts};
    ghost use Rattle.ck_journal.specs.Fronts.{IsFront};
    ghost use Rattle.ck_journal.specs.HistoryCode.{history_code};
    ghost use Rattle.ck_callers.specs.KnownHistories.{KnownState, KeepsBoard};

    ghost Value = { KnownState };

    ghost coded = { Prim.hlevel (codes, history_code) };

    ghost view = { λ k. record { history = k.front; changed = k.changed } };

    ghost invariant = { λ k. (k.calls ≡ call_counts k.front) × IsFront k.changed k.front
        × KeepsBoard K.limits k.changed k.front };
}

/// The front since which the board is the same: `before`, where the newest call keeps the board,
/// else `front`.
fn last_change<K: TokenId>(before: &Front<K>, front: &Front<K>, keeps_board: bool) -> Front<K>
    ensures { result ≡ (if keeps_board then before.now else front.now) }
{
    if keeps_board {
        before.duplicate()
    } else {
        front.duplicate()
    }
}

impl<K: TokenId> KnownHistory<K> {
    /// A history without entries.
    pub(crate) fn new(front: &Front<K>) -> KnownHistory<K>
        requires { front.now ≡ start K.base }
        ensures { result ≡ record { history = start K.base; changed = start K.base } }
    {
        KnownHistory {
            front: front.duplicate(),
            changed: front.duplicate(),
            calls: [0; CALLERS],
        }
    }

    /// A copy, which takes no memory.
    pub(crate) fn duplicate(&self) -> KnownHistory<K>
        ensures { result ≡ self.now }
    {
        KnownHistory {
            front: self.front.duplicate(),
            changed: self.changed.duplicate(),
            calls: self.calls,
        }
    }

    /// The known history, as a front of the token's.
    pub fn front(&self) -> &Front<K>
        ensures { result.now ≡ self.now.history }
    {
        &self.front
    }

    /// How many calls of the caller were answered.
    pub(crate) fn calls(&self, caller: u32) -> u64
        requires { (1 ≤ caller) × (caller ≤ 8) }
        ensures { result ≡ call_count caller self.now.history }
    {
        self.calls[(caller - 1) as usize]
    }

    /// Whether another history is a front of this one that has all entries which changed the board.
    pub fn covers(&self, other: &KnownHistory<K>) -> bool
        ensures { IsTrue result ↔ Covers self.now other.now.history }
    {
        self.changed.is_front_of(&other.front) && other.front.is_front_of(&self.front)
    }

    /// The longer of this history and the other one, where both have the same board. `None` where
    /// the other lacks an entry that changed the board.
    pub(crate) fn longer<'a>(&'a self, other: &'a KnownHistory<K>) -> Option<&'a KnownHistory<K>>
        ensures front { IfSome result (λ longer. IsFront self.now.history longer.now.history) }
        ensures board { IfSome result (λ longer. board_of K.limits other.now.history
            ≡ board_of K.limits longer.now.history) }
        ensures none { IfNone result (Covers self.now other.now.history → ⊥) }
    {
        if self.front.is_front_of(&other.front) {
            return Some(other);
        }
        if self.covers(other) {
            return Some(self);
        }
        None
    }

    /// Goes on to a front with one entry more, which is that of a call of this caller. Where
    /// `keeps_board` is set the call leaves the board as it is.
    pub fn follow(&mut self, front: &Front<K>, caller: u32, keeps_board: bool)
        requires { HasNext caller keeps_board self.old.history front.now }
        ensures history { self.new.history ≡ front.now }
        ensures changed { self.new.changed
            ≡ (if keeps_board then self.old.changed else front.now) }
    {
        self.calls[(caller - 1) as usize] += 1;
        self.changed = last_change(&self.changed, front, keeps_board);
        self.front = front.duplicate();
    }
}
