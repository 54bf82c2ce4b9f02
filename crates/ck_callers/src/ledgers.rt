ghost use Rattle.std.specs.Prelude.{◌≡◌, ◌+◌, ◌<◌, ◌≤◌, vec_len, vec_capacity};
ghost use Rattle.ck_callers.specs.Accounts.{with_account};
ghost use Rattle.ck_callers.specs.Shares.{caller_of, amount_of, parts_of};

use crate::identity::TokenId;
use ck_journal::MOST_CALLERS;
use ck_types::NoMemory;
use std::alloc::Global;
use std::marker::{Model, PhantomData};
use std::sync::ledger::{Blank, Book, Ledger, Share};

/// A ledger that counts the calls of caller `N`. Only that caller has a part of it.
pub struct CallerLedger<K: TokenId, const N: u64> {
    of: PhantomData<K>,
}

impl<K: TokenId, const N: u64> Ledger for CallerLedger<K, N> {
    ghost name = { K.ledger N };

    ghost parts = { 1 };
}

/// The ledgers of the callers 1 to 8, which no type stands for yet. Contracts see their names.
#[derive(Drop)]
pub struct NewLedgers {
    // A field for each caller, as `CallBooks` has them.
    one: Blank,
    two: Blank,
    three: Blank,
    four: Blank,
    five: Blank,
    six: Blank,
    seven: Blank,
    eight: Blank,
}

impl Model for NewLedgers {
    ghost use Rattle.std.specs.Prelude.{◌≡◌};
    ghost use Rattle.ck_callers.specs.Accounts.{LedgerNames};

    ghost Value = { LedgerNames };

    ghost view = { λ l. record {
      one = l.one.name;
      two = l.two.name;
      three = l.three.name;
      four = l.four.name;
      five = l.five.name;
      six = l.six.name;
      seven = l.seven.name;
      eight = l.eight.name;
    } };

    ghost invariant = { λ l. (l.one.parts ≡ 1) × (l.two.parts ≡ 1) × (l.three.parts ≡ 1)
        × (l.four.parts ≡ 1) × (l.five.parts ≡ 1) × (l.six.parts ≡ 1)
        × (l.seven.parts ≡ 1) × (l.eight.parts ≡ 1) };
}

/// How many calls of each of the callers 1 to 8 were answered. The counts are only in the proofs: a
/// book takes no bytes.
#[derive(Drop)]
pub struct CallBooks<K: TokenId> {
    // A field for each caller, since each book has a type of its own: a ledger's name is a type.
    one: Book<CallerLedger<K, 1>>,
    two: Book<CallerLedger<K, 2>>,
    three: Book<CallerLedger<K, 3>>,
    four: Book<CallerLedger<K, 4>>,
    five: Book<CallerLedger<K, 5>>,
    six: Book<CallerLedger<K, 6>>,
    seven: Book<CallerLedger<K, 7>>,
    eight: Book<CallerLedger<K, 8>>,
}

impl<K: TokenId> Model for CallBooks<K> {
    ghost use Rattle.std.specs.Prelude.{ℕ, List, [], ◌∷◌};

    ghost Value = { List ℕ };

    ghost view = { λ b. b.one.total ∷ b.two.total ∷ b.three.total ∷ b.four.total
        ∷ b.five.total ∷ b.six.total ∷ b.seven.total ∷ b.eight.total ∷ [] };
}

/// The one part of a caller's ledger.
#[derive(Drop)]
enum CallerShare<K: TokenId> {
    One(Share<CallerLedger<K, 1>>),
    Two(Share<CallerLedger<K, 2>>),
    Three(Share<CallerLedger<K, 3>>),
    Four(Share<CallerLedger<K, 4>>),
    Five(Share<CallerLedger<K, 5>>),
    Six(Share<CallerLedger<K, 6>>),
    Seven(Share<CallerLedger<K, 7>>),
    Eight(Share<CallerLedger<K, 8>>),
}

/// A caller's number, and how many of its calls were answered. The books have the same count.
#[derive(Drop)]
pub struct Account<K: TokenId> {
    number: u32,
    count: u64,
    share: CallerShare<K>,
}

impl<K: TokenId> Model for Account<K> {
    ghost use Rattle.ck_callers.specs.Accounts.{AccountState};
    ghost use Rattle.ck_callers.specs.Shares.{IsShareOf};

    ghost Value = { AccountState };

    ghost view = { λ a. record { number = a.number; count = a.count } };

    ghost invariant = { λ a. IsShareOf K.callers a.number a.count a.share };
}

/// A ledger under the name that its type stands for, with its one part.
// A function, so that the proof for all eight ledgers has one clause to go by.
fn open_ledger<L: Ledger>(blank: Blank) -> (Book<L>, Share<L>)
    requires name { blank.name ≡ L.name }
    requires parts { (blank.parts ≡ 1) × (L.parts ≡ 1) }
    ensures total { result.0.total ≡ 0 }
    ensures parts { result.1.parts ≡ 1 }
    ensures amount { result.1.amount ≡ 0 }
{
    blank.open::<L>()
}

/// Adds the account of the caller that has this part of its ledger, where the caller's number is at
/// most `most`. There must be room for it.
fn add_account<K: TokenId>(
    accounts: &mut Vec<Account<K>>,
    most: u32,
    number: u32,
    share: CallerShare<K>,
)
    requires most { most ≡ K.callers }
    requires number { caller_of share ≡ number }
    requires count { amount_of share ≡ 0 }
    requires parts { parts_of share ≡ 1 }
    requires room { vec_len accounts.old < vec_capacity accounts.old }
    ensures accounts { accounts.new.items ≡ with_account most number accounts.old.items }
    ensures length { vec_len accounts.new ≤ vec_len accounts.old + 1 }
    ensures capacity { vec_capacity accounts.old ≤ vec_capacity accounts.new }
{
    if number <= most {
        let account = Account {
            number,
            count: 0,
            share,
        };
        accounts.push_reserved(account);
    }
}

impl NewLedgers {
    ghost use Rattle.std.specs.Prelude.{◌≡◌, ◌≤◌, ℕ, IfOk};
    ghost use Rattle.ck_callers.specs.Accounts.{name_of, no_calls, new_accounts};

    /// Ledgers without calls. No clause says which names they have; that each has its one part is
    /// an invariant of the type.
    pub(crate) fn new() -> NewLedgers {
        NewLedgers {
            one: Blank::new(1),
            two: Blank::new(1),
            three: Blank::new(1),
            four: Blank::new(1),
            five: Blank::new(1),
            six: Blank::new(1),
            seven: Blank::new(1),
            eight: Blank::new(1),
        }
    }

    /// The books that `K` stands for, and the accounts of the callers 1 to `callers`. No call is
    /// counted.
    pub(crate) fn with_name<K: TokenId>(
        self,
        alloc: Global,
        callers: u32,
    ) -> Result<(CallBooks<K>, Vec<Account<K>>), NoMemory>
        requires names { (n : ℕ) → K.ledger n ≡ name_of self n }
        requires callers { (1 ≤ callers) × (callers ≤ 8) × (callers ≡ K.callers) }
        ensures books { IfOk result (λ named. named.0 ≡ no_calls) }
        ensures accounts { IfOk result (λ named. named.1.items ≡ new_accounts callers) }
    {
        let mut accounts = Vec::with_capacity(alloc, MOST_CALLERS as usize)?;
        let (one, share) = open_ledger::<CallerLedger<K, 1>>(self.one);
        add_account(&mut accounts, callers, 1, CallerShare::One(share));
        let (two, share) = open_ledger::<CallerLedger<K, 2>>(self.two);
        add_account(&mut accounts, callers, 2, CallerShare::Two(share));
        let (three, share) = open_ledger::<CallerLedger<K, 3>>(self.three);
        add_account(&mut accounts, callers, 3, CallerShare::Three(share));
        let (four, share) = open_ledger::<CallerLedger<K, 4>>(self.four);
        add_account(&mut accounts, callers, 4, CallerShare::Four(share));
        let (five, share) = open_ledger::<CallerLedger<K, 5>>(self.five);
        add_account(&mut accounts, callers, 5, CallerShare::Five(share));
        let (six, share) = open_ledger::<CallerLedger<K, 6>>(self.six);
        add_account(&mut accounts, callers, 6, CallerShare::Six(share));
        let (seven, share) = open_ledger::<CallerLedger<K, 7>>(self.seven);
        add_account(&mut accounts, callers, 7, CallerShare::Seven(share));
        let (eight, share) = open_ledger::<CallerLedger<K, 8>>(self.eight);
        add_account(&mut accounts, callers, 8, CallerShare::Eight(share));
        let books = CallBooks {
            one,
            two,
            three,
            four,
            five,
            six,
            seven,
            eight,
        };
        Ok((books, accounts))
    }
}

/// Shows that the book has as many calls as the caller's part, and counts `calls` more in both.
fn enter_in<L: Ledger>(book: &mut Book<L>, share: &mut Share<L>, calls: u64)
    requires { (L.parts ≡ 1) × (share.old.parts ≡ 1) }
    ensures parts { share.new.parts ≡ 1 }
    ensures share { share.new.amount ≡ share.old.amount + calls }
    ensures book { book.new.total ≡ book.old.total + calls }
    ensures same { share.old.amount ≡ book.old.total }
{
    book.audit(share);
    book.add(share, calls);
}

impl<K: TokenId> CallBooks<K> {
    ghost use Rattle.std.specs.Prelude.{◌≡◌, ◌≤◌, ◌+◌, ◌-◌, ◌<◌, ◌^◌, slice_index, slice_set};
    ghost use Rattle.ck_callers.specs.Accounts.{next_call};

    /// Shows that the book of a caller has as many calls as its share, and counts `calls` more.
    fn enter(&mut self, share: &mut CallerShare<K>, calls: u64)
        requires { parts_of share.old ≡ 1 }
        ensures parts { parts_of share.new ≡ 1 }
        ensures caller { caller_of share.new ≡ caller_of share.old }
        ensures range { (1 ≤ caller_of share.old) × (caller_of share.old ≤ 8) }
        ensures amount { amount_of share.new ≡ amount_of share.old + calls }
        ensures same { amount_of share.old ≡ slice_index self.old (caller_of share.old - 1) }
        ensures books { self.new
            ≡ slice_set self.old (caller_of share.old - 1) (amount_of share.old + calls) }
        ensures none { calls ≡ 0 → self.new ≡ self.old }
    {
        match share {
            CallerShare::One(share) => enter_in(&mut self.one, share, calls),
            CallerShare::Two(share) => enter_in(&mut self.two, share, calls),
            CallerShare::Three(share) => enter_in(&mut self.three, share, calls),
            CallerShare::Four(share) => enter_in(&mut self.four, share, calls),
            CallerShare::Five(share) => enter_in(&mut self.five, share, calls),
            CallerShare::Six(share) => enter_in(&mut self.six, share, calls),
            CallerShare::Seven(share) => enter_in(&mut self.seven, share, calls),
            CallerShare::Eight(share) => enter_in(&mut self.eight, share, calls),
        }
    }

    /// Shows that the books have as many calls of the caller as its account. A step of the proof;
    /// it takes `&mut`, as std's ledgers do, and changes nothing.
    pub(crate) fn show_count(&mut self, account: &mut Account<K>)
        ensures range { (1 ≤ account.old.number) × (account.old.number ≤ 8) }
        ensures same { account.old.count ≡ slice_index self.old (account.old.number - 1) }
        ensures books { self.new ≡ self.old }
        ensures account { account.new ≡ account.old }
    {
        self.enter(&mut account.share, 0);
    }

    /// Counts a call of the caller.
    pub(crate) fn count(&mut self, account: &mut Account<K>)
        requires { slice_index self.old (account.old.number - 1) + 1 < 2 ^ 64 }
        ensures same { account.old.count ≡ slice_index self.old (account.old.number - 1) }
        ensures books { self.new
            ≡ slice_set self.old (account.old.number - 1) (account.old.count + 1) }
        ensures account { account.new ≡ next_call account.old }
    {
        self.enter(&mut account.share, 1);
        account.count += 1;
    }
}

impl<K: TokenId> Account<K> {
    ghost use Rattle.std.specs.Prelude.{◌≡◌, ◌≤◌};

    /// The caller's number, from 1 to 8.
    pub fn number(&self) -> u32
        ensures value { result ≡ self.now.number }
        ensures range { (1 ≤ result) × (result ≤ 8) }
        ensures caller { result ≤ K.callers }
    {
        self.number
    }

    /// How many calls of the caller are counted.
    pub(crate) fn count(&self) -> u64
        ensures { result ≡ self.now.count }
    {
        self.count
    }
}
