ghost use Rattle.std.specs.Prelude.{◌≡◌, IfSome};
ghost use Rattle.ck_journal.specs.Answers.{IsLegal, answer};
ghost use Rattle.ck_journal.specs.Callers.{call_count};
ghost use Rattle.ck_journal.specs.Fronts.{IsFront};
ghost use Rattle.ck_callers.specs.Asks.{call_of_ask, reply_of_status};

use crate::asks::{Ask, Status, status_on};
use crate::boards::BoardCopy;
use crate::histories::Front;
use crate::identity::TokenId;
use crate::known_histories::KnownHistory;
use crate::ledgers::{Account, CallBooks};
use left_right::ReadHandle;
use std::marker::Model;

/// One of the callers of a shared token. Contracts see its number, how many of its calls were
/// answered, the history of its last reply and the longest that it knows.
#[derive(Drop)]
pub struct Caller<K: TokenId> {
    account: Account<K>,
    /// The history of its last reply. Only contracts read it.
    last: Front<K>,
    known: KnownHistory<K>,
    reader: ReadHandle<BoardCopy<K>>,
}

impl<K: TokenId> Model for Caller<K> {
    ghost use Rattle.std.specs.Prelude.{◌≡◌};
    ghost use Rattle.std.specs.Coded.{codes};
    ghost use Rattle.ck_journal.specs.Callers.{call_count};
    ghost use Rattle.ck_journal.specs.Fronts.{IsFront};
    ghost use Rattle.ck_journal.specs.HistoryCode.{history_code};
    ghost use Rattle.ck_callers.specs.Callers.{CallerState};

    ghost Value = { CallerState };

    ghost coded = { Prim.hlevel (codes, history_code) };

    ghost view = { λ c. record {
      number = c.account.number;
      count = c.account.count;
      last = c.last;
      seen = c.known.history;
    } };

    ghost invariant = { λ c. IsFront c.last c.known.history
        × (call_count c.account.number c.last ≡ c.account.count) };
}

/// What the published copy of the board answers, and the history that the answer is of. It is no
/// shorter than what the caller knows and has all entries of the caller. `None` where the copy
/// can't be read, where it lacks an entry that may have changed the board and that the caller
/// knows, or where the history has another count of the caller's calls.
fn look<K: TokenId>(
    reader: &mut ReadHandle<BoardCopy<K>>,
    account: &Account<K>,
    known: &KnownHistory<K>,
    ask: Ask,
) -> Option<(Status, KnownHistory<K>)>
    ensures front { IfSome result (λ found. IsFront known.now.history found.1.history) }
    ensures count { IfSome result (λ found.
        call_count account.now.number found.1.history ≡ account.now.count) }
    ensures legal { IfSome result (λ found. IsLegal K.limits found.1.history) }
    ensures answer { IfSome result (λ found.
        reply_of_status found.0 ≡ answer K.limits found.1.history (call_of_ask ask)) }
{
    let board = reader.enter()?;
    let longer = known.longer(board.known())?;
    // The counts are the same, since only this caller makes its calls. No contract says so, so they
    // are compared.
    if longer.calls(account.number()) != account.count() {
        return None;
    }
    // Tells the prover that the history is legal.
    let _entries = longer.front().len();
    Some((status_on(board.board(), ask), longer.duplicate()))
}

impl<K: TokenId> Caller<K> {
    ghost use Rattle.std.specs.Prelude.{◌≡◌, ◌⊎◌, IfNone, IfSome, OnSome};
    ghost use Rattle.ck_journal.specs.Fronts.{IsFront};
    ghost use Rattle.ck_journal.specs.Answers.{IsLegal, answer};
    ghost use Rattle.ck_journal.specs.Callers.{call_counts, entries_by};
    ghost use Rattle.ck_journal.specs.Histories.{History, start, entry_count};
    ghost use Rattle.ck_journal.specs.declared.calls.Call.{Call};
    ghost use Rattle.ck_journal.specs.declared.replies.Reply.{Reply};
    ghost use Rattle.ck_callers.specs.Asks.{call_of_ask, reply_of_status};
    ghost use Rattle.ck_callers.specs.Callers.{HasCalled, IsNextCall, IsSettled, new_caller};

    /// A caller that has made no call.
    pub(crate) fn new(
        account: Account<K>,
        known: &KnownHistory<K>,
        reader: ReadHandle<BoardCopy<K>>,
    ) -> Caller<K>
        requires count { account.count ≡ 0 }
        requires known { known.now.history ≡ start K.base }
        ensures { result ≡ new_caller K.base account }
    {
        Caller {
            account,
            last: known.front().duplicate(),
            known: known.duplicate(),
            reader,
        }
    }

    /// The caller's number, from 1, under which its calls stand in the journal.
    pub fn number(&self) -> u32
        ensures { result ≡ self.now.number }
    {
        self.account.number()
    }

    /// How many of its calls were answered.
    pub fn count(&self) -> u64
        ensures { result ≡ self.now.count }
    {
        self.account.count()
    }

    /// How many entries are in the longest history that it knows.
    pub fn seen(&self) -> u64
        ensures length { result ≡ entry_count self.now.seen }
        ensures legal { IsLegal K.limits self.now.seen }
    {
        self.known.front().len()
    }

    /// Its number, and its count, which the books have too.
    pub fn account(&self) -> &Account<K>
        ensures number { result.now.number ≡ self.now.number }
        ensures count { result.now.count ≡ self.now.count }
    {
        &self.account
    }

    /// The longest history that it knows.
    pub fn known(&self) -> &KnownHistory<K>
        ensures { result.now.history ≡ self.now.seen }
    {
        &self.known
    }

    /// What the caller knows of the history, for others to learn.
    pub fn news(&self) -> News<K>
        ensures { result ≡ self.now.seen }
    {
        News {
            known: self.known.duplicate(),
        }
    }

    /// Learns what another caller knew: afterwards it knows the longer of the two histories.
    pub fn learn(&mut self, news: &News<K>)
        ensures seen { (self.new.seen ≡ self.old.seen) ⊎ (self.new.seen ≡ news.now) }
        ensures front { IsFront self.old.seen self.new.seen }
        ensures news { IsFront news.now self.new.seen }
        ensures same { self.new ≡ record self.old { seen = self.new.seen } }
    {
        if self.known.front().is_front_of(news.known.front()) {
            self.known = news.known.duplicate();
        }
    }

    /// Answers a question as the token would have answered it after all calls that the caller knows
    /// of afterwards. It takes neither the lock nor memory and waits for nobody. `None` where the
    /// board can't be read, lacks an entry that the caller knows and that may have changed it, or
    /// has another count of the caller's calls. (No contract says that the last can't be.)
    pub fn status(&mut self, ask: Ask) -> Option<Status>
        ensures answer { IfSome result (λ status.
            reply_of_status status ≡ answer K.limits self.new.seen (call_of_ask ask)) }
        ensures legal { OnSome result (IsLegal K.limits self.new.seen) }
        ensures own { OnSome result (entries_by self.new.number self.new.seen
            ≡ entries_by self.new.number self.new.last) }
        ensures front { IsFront self.old.seen self.new.seen }
        ensures same { self.new ≡ record self.old { seen = self.new.seen } }
        ensures unchanged { IfNone result (self.new ≡ self.old) }
    {
        let (status, known) = look(&mut self.reader, &self.account, &self.known, ask)?;
        self.known = known;
        Some(status)
    }

    /// Notes an answered call of the caller: the books count the call, and the caller knows the
    /// history that ends with the call's entry.
    pub fn follow(&mut self, books: &mut CallBooks<K>, known: &KnownHistory<K>)
        requires { (call : Call) × (reply : Reply)
            × IsNextCall self.old books.old call reply known.now.history }
        ensures called { (call : Call) (reply : Reply)
            → IsNextCall self.old books.old call reply known.now.history
            → HasCalled K.limits self.old call reply self.new }
        ensures seen { self.new.seen ≡ known.now.history }
        ensures books { books.new ≡ call_counts known.now.history }
    {
        // Tells the prover that one of the books is the caller's, and that it isn't full.
        let _number = self.account.number();
        let _entries = known.front().len();
        books.count(&mut self.account);
        self.last = known.front().duplicate();
        self.known = known.duplicate();
    }

    /// Shows to the prover that a history which goes on from what the caller knows has no entries
    /// of the caller except those of its calls. The books are those of that history. It takes
    /// `&mut`, as std's ledgers do, and changes nothing.
    pub fn show_settled(&mut self, books: &mut CallBooks<K>)
        ensures settled { (h : History) → books.old ≡ call_counts h
            → IsFront self.old.seen h → IsSettled h self.old }
        ensures books { books.new ≡ books.old }
        ensures caller { self.new ≡ self.old }
    {
        books.show_count(&mut self.account);
    }
}

/// A history that a caller knows, which may go to another caller.
#[derive(Drop)]
pub struct News<K: TokenId> {
    known: KnownHistory<K>,
}

impl<K: TokenId> Model for News<K> {
    ghost use Rattle.ck_journal.specs.Histories.{History};
    ghost use Rattle.ck_journal.specs.HistoryCode.{history_code};

    ghost Value = { History };

    ghost coded = { history_code };

    ghost view = { λ n. n.known.history };
}

impl<K: TokenId> News<K> {
    ghost use Rattle.std.specs.Prelude.{◌≡◌};
    ghost use Rattle.ck_journal.specs.Histories.{entry_count};

    /// How many entries the history has.
    pub fn seen(&self) -> u64
        ensures { result ≡ entry_count self.now }
    {
        self.known.front().len()
    }
}
