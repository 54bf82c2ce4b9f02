ghost use Rattle.std.specs.Prelude.{◌≡◌, ℕ, true, None, is_some};
ghost use Rattle.std.specs.Option.{option_copied};
ghost use Rattle.ck_journal.specs.Histories.{History};
ghost use Rattle.ck_journal.specs.Searches.{is_searching, last_number};
ghost use Rattle.ck_journal.specs.Sessions.{has_rw_flag};
ghost use Rattle.ck_sessions.specs.Agreement.{session_row, search_left};
ghost use Rattle.ck_sessions.specs.Rows.{is_session, last_found, with_search, with_last_found};

use crate::searches::Search;
use std::marker::Model;

/// An open session (PKCS #11 Base 3.0, Session management functions).
#[derive(Drop)]
pub struct Session {
    handle: u64,
    flags: u64,
    /// Its search, where one is active.
    search: Option<Search>,
}

impl Model for Session {
    ghost use Rattle.ck_sessions.specs.Rows.{SessionRow};

    ghost Value = { SessionRow };

    ghost view = { λ s. record { handle = s.handle; flags = s.flags; search = s.search } };
}

impl Session {
    /// A session with no search.
    pub(crate) fn new(handle: u64, flags: u64) -> Session
        ensures { result ≡ record { handle = handle; flags = flags; search = None } }
    {
        Session {
            handle,
            flags,
            search: None,
        }
    }

    /// Whether this is its handle.
    pub(crate) fn has_handle(&self, handle: u64) -> bool
        ensures { result ≡ is_session handle self.now }
    {
        self.handle == handle
    }

    /// Its handle.
    pub(crate) fn handle(&self) -> u64
        ensures { result ≡ self.now.handle }
    {
        self.handle
    }

    /// The flags that it was opened with (CK_SESSION_INFO).
    pub fn flags(&self) -> u64
        ensures { result ≡ self.now.flags }
    {
        self.flags
    }

    /// Whether it is a read/write session.
    pub fn is_read_write(&self) -> bool
        ensures { result ≡ has_rw_flag self.now.flags }
    {
        ck_journal::is_read_write(self.flags)
    }

    /// Whether it has an active search.
    pub fn is_searching(&self) -> bool
        ensures value { result ≡ is_some self.now.search }
        ensures searching { (h : History) (s : ℕ) → self.now ≡ session_row h s
            → result ≡ is_searching h s }
    {
        self.search.is_some()
    }

    /// The numbers, in ascending order, of the objects that its search found and that come after
    /// the one that it returned last, or `None` where no search is active. Some may have ended
    /// since.
    pub fn remaining_objects(&self) -> Option<&[u64]>
        ensures { (h : History) (s : ℕ) → self.now ≡ session_row h s
            → option_copied result ≡ search_left h s }
    {
        Some(self.search.as_ref()?.remaining())
    }

    /// The number of the object that its search returned last; 0, which is no object's, where it
    /// has returned none, or where no search is active.
    pub fn last_found(&self) -> u64
        ensures value { result ≡ last_found self.now }
        ensures last { (h : History) (s : ℕ) → self.now ≡ session_row h s → is_searching h s ≡ true
            → result ≡ last_number h s }
    {
        match &self.search {
            None => 0,
            Some(search) => search.last,
        }
    }

    /// Makes this its search; `None` ends its search.
    pub(crate) fn set_search(&mut self, search: Option<Search>)
        ensures { self.new ≡ with_search search self.old }
    {
        self.search = search;
    }

    /// Notes the number of the object that its search, if it has one, returned last.
    pub(crate) fn set_last_found(&mut self, number: u64)
        ensures { self.new ≡ with_last_found number self.old }
    {
        if let Some(search) = &mut self.search {
            search.last = number;
        }
    }
}
