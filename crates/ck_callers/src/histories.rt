ghost use Rattle.std.specs.Prelude.{◌≡◌, [], ◌<◌, ◌≤◌, ◌^◌, ◌-◌, ◌↔◌, false, IsTrue, MatchBool};
ghost use Rattle.ck_journal.specs.Answers.{IsLegal, answer};
ghost use Rattle.ck_journal.specs.Fronts.{IsFront};
ghost use Rattle.ck_journal.specs.Histories.{start, ◌◁◌, entry_count};
ghost use Rattle.ck_callers.specs.Rules.{head_of};

use crate::rules::{Add, LengthOfLog, Nothing};
use ck_journal::Entry;
use logbook::{Offer, Seen, Start, Word};
use std::marker::{Brand, Model, PhantomData};

/// A type that stands for one history: its book, the base that it starts from, and the limits of
/// its token. Two fronts of one such type are fronts of one history.
pub trait HistoryId {
    ghost use Rattle.logbook.specs.Pages.{Book};
    ghost use Rattle.ck_types.specs.TokenLimits.{Ranges};
    ghost use Rattle.ck_journal.specs.declared.bases.Base.{Base};

    ghost book: { Book };

    ghost base: { Base };

    ghost limits: { Ranges };
}

// The proof of each call that passes Brand says what it stands for, so these values aren't used.
impl HistoryId for Brand {
    ghost use Rattle.ck_journal.specs.Bases.{empty_base};

    ghost book = { record { number = 0; log_name = 0; cells_name = 0 } };

    ghost base = { empty_base };

    ghost limits = { record { sessions = 1; openings = 1; creations = 1; logins = 1 } };
}

/// A history without entries, which no type stands for yet.
pub struct NewHistory {
    head: Word<Entry, u64, LengthOfLog>,
    seen: Seen<Entry, u64, LengthOfLog>,
    pub ghost empty: { seen.log ≡ [] },
    pub ghost head_is: { head ≡ head_of seen.book },
}

impl NewHistory {
    /// A history without entries, with a book of its own.
    pub(crate) fn new() -> NewHistory
        ensures entries { result.seen.log ≡ [] }
        ensures head { result.head ≡ head_of result.seen.book }
    {
        // A book has two words. The first is the length of the history; the second isn't used.
        let (seen, mut first, _second) = Seen::open(Start::alone(), 0, 0);
        NewHistory {
            head: Word::tracked(0, &mut first),
            seen,
        }
    }

    /// The history that `K` stands for: the length that threads share, and the front without
    /// entries.
    pub(crate) fn with_name<K: HistoryId>(self) -> (Head<K>, Front<K>)
        requires { self.seen.book ≡ K.book }
        ensures { result.1 ≡ start K.base }
    {
        let NewHistory { head, seen } = self;
        (
            Head {
                head,
                of: PhantomData,
            },
            Front {
                count: 0,
                seen,
                of: PhantomData,
            },
        )
    }
}

/// The length of the one history, which all threads share.
#[derive(Drop)]
pub struct Head<K: HistoryId> {
    head: Word<Entry, u64, LengthOfLog>,
    of: PhantomData<K>,
    ghost head_is: { head ≡ head_of K.book },
}

/// A front of the one history. When the program runs there is only its length; its entries are in
/// the proofs. Of two fronts the shorter is a front of the longer.
#[derive(Drop)]
pub struct Front<K: HistoryId> {
    count: u64,
    seen: Seen<Entry, u64, LengthOfLog>,
    of: PhantomData<K>,
}

impl<K: HistoryId> Model for Front<K> {
    ghost use Rattle.std.specs.Prelude.{◌≡◌, length};
    ghost use Rattle.ck_journal.specs.Answers.{IsLegal};
    ghost use Rattle.ck_journal.specs.Fronts.{history_of};
    ghost use Rattle.ck_journal.specs.Histories.{History};
    ghost use Rattle.ck_journal.specs.HistoryCode.{history_code};

    ghost Value = { History };

    ghost coded = { history_code };

    ghost view = { λ f. history_of K.base f.seen.log };

    ghost invariant = { λ f. (f.count ≡ length f.seen.log) × (f.seen.book ≡ K.book)
        × IsLegal K.limits (history_of K.base f.seen.log) };
}

impl<K: HistoryId> Front<K> {
    /// How many entries it has.
    pub fn len(&self) -> u64
        ensures length { result ≡ entry_count self.now }
        ensures base { IsFront (start K.base) self.now }
        ensures legal { IsLegal K.limits self.now }
    {
        self.count
    }

    /// A copy, which takes no memory.
    pub fn duplicate(&self) -> Front<K>
        ensures { result ≡ self.now }
    {
        Front {
            count: self.count,
            seen: self.seen.again(),
            of: PhantomData,
        }
    }

    /// Whether it is a front of the other one: it is, unless it has more entries. Then the other is
    /// a front of it.
    pub fn is_front_of(&self, other: &Front<K>) -> bool
        ensures shorter { IsTrue result ↔ (entry_count self.now ≤ entry_count other.now) }
        ensures front { IsTrue result → IsFront self.now other.now }
        ensures longer { result ≡ false → IsFront other.now self.now }
    {
        // Tells the prover that both are fronts of one book, so that the shorter begins the longer.
        let mut both = self.seen.again();
        both.learn(&other.seen);
        self.count <= other.count
    }

    /// Adds an entry to the history where that is as long as this front, and says whether it was.
    /// The other front is then a front of the history before the entry. Only who has the `Head` can
    /// add entries. It lies under the lock, in a private field; no contract says that it stays
    /// there.
    pub fn add_after(&mut self, head: &Head<K>, other: &Front<K>, entry: &Entry) -> bool
        requires room { entry_count self.old < 2 ^ 64 - 1 }
        requires legal { entry.now.reply ≡ answer K.limits self.old entry.now.call }
        ensures { MatchBool result
            ((self.new ≡ entry.now ◁ self.old) × IsFront other.now self.old)
            (self.new ≡ self.old) }
    {
        // Tells the prover that the other front is one of the same book.
        let mut both = self.seen.again();
        both.learn(&other.seen);
        // For logbook: what is added to the log, and that no new word is made. Neither takes a
        // byte.
        let mut offer: Offer<Entry, u64, LengthOfLog, Nothing> = both.plain::<Nothing, Entry, Add>(
            entry,
        );
        let mut pen = both.no_pen();
        let count = self.count;
        let found = head
            .head
            .compare_exchange::<Add, Nothing>(count, count + 1, &mut both, &mut offer, &mut pen);
        if found != count {
            return false;
        }
        self.seen = both;
        self.count = count + 1;
        true
    }
}
