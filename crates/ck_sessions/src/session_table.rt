use crate::credentials::{Credential, NO_PIN};
use crate::open_sessions::Session;
use crate::rows::{
    add_to_board, count_read_write, end_searches, find_session, has_read_only, remove_session,
    set_last_found, set_search,
};
use crate::searches::Search;
use ck_journal::{Base, KeptObject, LoginStatus, TokenBoard};
use ck_types::{NoMemory, Pin, Sequence, UserType};
use std::alloc::Global;
use std::marker::Model;

/// The token's open sessions, the login that they share, and the PINs (PKCS #11 Base 3.0, Session
/// management functions).
#[derive(Drop)]
pub struct Sessions {
    /// In the order of their openings.
    rows: Vec<Session>,
    /// How many sessions have been opened.
    openings: u64,
    login: Option<UserType>,
    /// How many times the normal user has logged in.
    logins: u64,
    so: Credential,
    user: Credential,
}

impl Model for Sessions {
    ghost use Rattle.std.specs.Prelude.{vec_len, vec_capacity, ◌-◌};
    ghost use Rattle.ck_sessions.specs.Agreement.{SessionsState};

    ghost Value = { SessionsState };

    ghost view = { λ s. record {
      rows = s.rows.items;
      spare = vec_capacity s.rows - vec_len s.rows;
      openings = s.openings;
      login = s.login;
      logins = s.logins;
      so = s.so;
      user = s.user;
    } };
}

impl Sessions {
    ghost use Rattle.std.specs.Prelude.{◌≡◌, ◌+◌, ◌<◌, ◌≤◌, ◌^◌, ℕ, suc, true, false, not, Some};
    ghost use Rattle.std.specs.Prelude.{None, OnOk, IsOk, is_some, length, map};
    ghost use Rattle.std.specs.List.{list_any};
    ghost use Rattle.std.specs.Option.{option_copied};
    ghost use Rattle.ck_types.specs.TokenLimits.{Ranges};
    ghost use Rattle.ck_types.specs.Users.{user_of};
    ghost use Rattle.ck_types.specs.declared.pins.Pin.{Pin};
    ghost use Rattle.ck_types.specs.declared.users.UserType.TheVariants as user;
    ghost use Rattle.ck_journal.specs.Bases.{empty_base, IsSound};
    ghost use Rattle.ck_journal.specs.Boards.{board_of, login_status};
    ghost use Rattle.ck_journal.specs.Cuts.{base_of, kept_objects};
    ghost use Rattle.ck_journal.specs.Histories.{History, start, ◌◁◌, done, wrong_try};
    ghost use Rattle.ck_journal.specs.Objects.{creations};
    ghost use Rattle.ck_journal.specs.Pins.{is_initialized, present_pin, tries, pin_owner, about};
    ghost use Rattle.ck_journal.specs.Searches.{is_searching, number_of_handle, handles_in};
    ghost use Rattle.ck_journal.specs.Searches.{last_or, last_number};
    ghost use Rattle.ck_journal.specs.Sessions.{openings, is_open, open_sessions, is_read_write};
    ghost use Rattle.ck_journal.specs.Sessions.{rw_sessions, login, user_logins, state_of};
    ghost use Rattle.ck_journal.specs.declared.calls.Call.{Call};
    ghost use Rattle.ck_journal.specs.declared.calls.Call.TheVariants as call;
    ghost use Rattle.ck_journal.specs.declared.calls.Entry.{Entry};
    ghost use Rattle.ck_sessions.specs.Agreement.{SessionsAgree, credential_of, session_at};
    ghost use Rattle.ck_sessions.specs.SearchCalls.{SetsSearch};

    /// No sessions and no PINs, as a new token has them. It takes no memory.
    pub fn new(alloc: Global) -> Sessions
        ensures { SessionsAgree (start empty_base) result }
    {
        Sessions {
            rows: Vec::new(alloc),
            openings: 0,
            login: None,
            logins: 0,
            so: NO_PIN,
            user: NO_PIN,
        }
    }

    /// No sessions, and the PINs, wrong tries and counts of a base. It takes no memory.
    pub fn from_base(alloc: Global, base: &Base) -> Sessions
        requires { IsSound base.now }
        ensures { SessionsAgree (start base.now) result }
    {
        Sessions {
            rows: Vec::new(alloc),
            openings: base.openings,
            login: None,
            logins: base.logins,
            so: Credential {
                pin: base.so,
                tries: base.so_tries,
            },
            user: Credential {
                pin: base.user,
                tries: base.user_tries,
            },
        }
    }

    /// Makes room for one more session.
    pub fn reserve(&mut self) -> Result<(), NoMemory>
        ensures agree { (h : History) → SessionsAgree h self.old → SessionsAgree h self.new }
        ensures room { OnOk result (0 < self.new.spare) }
        ensures succeeds { 0 < self.old.spare → IsOk result }
    {
        self.rows.reserve(1)?;
        Ok(())
    }

    // ---- readings

    /// Whether the token has been initialized.
    pub fn is_initialized(&self) -> bool
        ensures { (h : History) → SessionsAgree h self.now → result ≡ is_initialized h }
    {
        self.so.pin.is_some()
    }

    /// How many sessions are open.
    pub fn count(&self) -> u64
        ensures { (h : History) → SessionsAgree h self.now → result ≡ length (open_sessions h) }
    {
        self.rows.len() as u64
    }

    /// How many read/write sessions are open.
    pub fn read_write_count(&self) -> u64
        ensures { (h : History) → SessionsAgree h self.now → result ≡ length (rw_sessions h) }
    {
        count_read_write(&self.rows)
    }

    /// Whether a read-only session is open.
    pub fn has_read_only(&self) -> bool
        ensures { (h : History) → SessionsAgree h self.now
            → result ≡ list_any (λ s. not (is_read_write h s)) (open_sessions h) }
    {
        has_read_only(&self.rows)
    }

    /// How many sessions have been opened.
    pub fn openings(&self) -> u64
        ensures value { result ≡ self.now.openings }
        ensures openings { (h : History) → SessionsAgree h self.now → result ≡ openings h }
    {
        self.openings
    }

    /// The session of this handle, where it is open.
    pub fn get(&self, session: u64) -> Option<&Session>
        ensures { (h : History) → SessionsAgree h self.now
            → option_copied result ≡ session_at h session }
    {
        find_session(&self.rows, session)
    }

    /// Who is logged in.
    pub fn login(&self) -> Option<UserType>
        ensures { (h : History) → SessionsAgree h self.now → result ≡ login h }
    {
        self.login
    }

    /// How many times the normal user has logged in.
    pub fn logins(&self) -> u64
        ensures value { result ≡ self.now.logins }
        ensures logins { (h : History) → SessionsAgree h self.now → result ≡ user_logins h }
    {
        self.logins
    }

    /// A user's PIN and wrong tries.
    pub fn credential(&self, user: UserType) -> Credential
        ensures value { result ≡ credential_of user self.now }
        ensures pin { (h : History) → SessionsAgree h self.now → result.pin ≡ present_pin user h }
        ensures tries { (h : History) → SessionsAgree h self.now → result.tries ≡ tries user h }
    {
        match user {
            UserType::So => self.so,
            UserType::User => self.user,
        }
    }

    /// The base that the sessions leave, with these objects and this count of creations.
    pub fn base(&self, created: u64, objects: Sequence<KeptObject>) -> Base
        ensures { (h : History) → SessionsAgree h self.now
            → created ≡ creations h → objects ≡ kept_objects h → result ≡ base_of h }
    {
        Base {
            initialized: self.is_initialized(),
            so: self.so.pin,
            user: self.user.pin,
            so_tries: self.so.tries,
            user_tries: self.user.tries,
            openings: self.openings,
            creations: created,
            logins: self.logins,
            objects,
        }
    }

    /// What C_GetTokenInfo and C_GetSessionInfo read of the login and the PINs.
    fn login_status(&self) -> LoginStatus
        ensures { (h : History) → SessionsAgree h self.now → result ≡ login_status h }
    {
        LoginStatus {
            login: self.login,
            so_tries: self.so.tries,
            user_tries: self.user.tries,
            is_initialized: self.is_initialized(),
            has_user_pin: self.user.pin.is_some(),
        }
    }

    /// What C_GetSessionInfo and C_GetTokenInfo read of the token, where `limit` sessions may be
    /// open at once. It takes no memory.
    pub fn board(&self, limit: u64) -> TokenBoard
        requires { length self.now.rows ≤ 64 }
        ensures { (limits : Ranges) (h : History) → SessionsAgree h self.now
            → limit ≡ limits.sessions → result ≡ board_of limits h }
    {
        let mut board = TokenBoard::new(limit, self.login_status());
        add_to_board(&self.rows, &mut board);
        board
    }

    // ---- changes, each made by a call that is answered CKR_OK or by a wrong try

    /// Initializes the token: the security officer keeps a PIN that was set before, the normal
    /// user's is taken away, and the wrong tries of both go back to 0.
    pub fn init_token(&mut self, pin: Pin)
        ensures agree { (h : History) (e : Entry) → done e ≡ Some (call.InitToken pin)
            → SessionsAgree h self.old → SessionsAgree (e ◁ h) self.new }
    {
        let so_pin = self.so.pin.unwrap_or(pin);
        self.so = Credential::new(so_pin);
        self.user = NO_PIN;
    }

    /// Sets the normal user's PIN, as the security officer does; the user's wrong tries go back to
    /// 0.
    pub fn init_pin(&mut self, pin: Pin)
        ensures agree { (h : History) (e : Entry) (session : ℕ)
            → done e ≡ Some (call.InitPin session pin)
            → SessionsAgree h self.old → SessionsAgree (e ◁ h) self.new }
    {
        self.user = Credential::new(pin);
    }

    /// Sets a new PIN of a user who has one; the user's wrong tries go back to 0.
    pub fn set_pin(&mut self, owner: UserType, pin: Pin)
        requires { is_some (credential_of owner self.old).pin ≡ true }
        ensures agree { (h : History) (e : Entry) (session : ℕ) (before : Pin)
            → done e ≡ Some (call.SetPin session before pin)
            → pin_owner (state_of h session) ≡ owner
            → SessionsAgree h self.old → SessionsAgree (e ◁ h) self.new }
    {
        match owner {
            UserType::So => self.so = Credential::new(pin),
            UserType::User => self.user = Credential::new(pin),
        }
    }

    /// Opens a session with these flags. There must be room for it; this takes no memory.
    pub fn open_session(&mut self, flags: u64)
        requires room { 0 < self.old.spare }
        requires openings { self.old.openings + 1 < 2 ^ 64 }
        ensures agree { (h : History) (e : Entry) → done e ≡ Some (call.OpenSession flags)
            → is_searching h (suc (openings h)) ≡ false
            → SessionsAgree h self.old → SessionsAgree (e ◁ h) self.new }
    {
        self.openings += 1;
        let session = Session::new(self.openings, flags);
        self.rows.push_reserved(session);
    }

    /// Closes a session; with the last one the login ends.
    pub fn close(&mut self, session: u64)
        ensures agree { (h : History) (e : Entry) → done e ≡ Some (call.CloseSession session)
            → SessionsAgree h self.old → SessionsAgree (e ◁ h) self.new }
    {
        remove_session(&mut self.rows, session);
        if self.rows.is_empty() {
            self.login = None;
        }
    }

    /// Closes all sessions, and so ends the login.
    pub fn close_all(&mut self)
        ensures agree { (h : History) (e : Entry) → done e ≡ Some call.CloseAllSessions
            → SessionsAgree h self.old → SessionsAgree (e ◁ h) self.new }
    {
        self.rows.clear();
        self.login = None;
    }

    /// Logs a user in, whose wrong tries go back to 0.
    pub fn log_in(&mut self, user_type: UserType)
        requires { user_type ≡ user.User → self.old.logins + 1 < 2 ^ 64 }
        ensures agree { (h : History) (e : Entry) (session number : ℕ) (pin : Pin)
            → done e ≡ Some (call.Login session number pin) → is_open h session ≡ true
            → user_of number ≡ Some user_type
            → SessionsAgree h self.old → SessionsAgree (e ◁ h) self.new }
    {
        self.login = Some(user_type);
        match user_type {
            UserType::So => self.so.tries = 0,
            UserType::User => {
                self.user.tries = 0;
                self.logins += 1;
            }
        }
    }

    /// Logs out whoever is logged in, and ends the searches of all sessions.
    pub fn log_out(&mut self)
        ensures agree { (h : History) (e : Entry) (session : ℕ)
            → done e ≡ Some (call.Logout session)
            → SessionsAgree h self.old → SessionsAgree (e ◁ h) self.new }
    {
        self.login = None;
        end_searches(&mut self.rows);
    }

    /// Starts a search of the session that found the objects of these numbers; `None` ends the
    /// session's search.
    pub fn set_search(&mut self, session: u64, found: Option<Sequence<u64>>)
        ensures agree { (h : History) (e : Entry) (c : Call) → done e ≡ Some c
            → SetsSearch h c session found
            → SessionsAgree h self.old → SessionsAgree (e ◁ h) self.new }
    {
        set_search(&mut self.rows, session, found.map(Search::new));
    }

    /// Notes the number of the object that the session's search returned last.
    pub fn advance_search(&mut self, session: u64, number: u64)
        ensures agree { (h : History) (e : Entry) (max : ℕ)
            → done e ≡ Some (call.FindObjects session max)
            → number ≡ last_or (last_number h session)
            (map number_of_handle (handles_in e.reply.body))
            → SessionsAgree h self.old → SessionsAgree (e ◁ h) self.new }
    {
        set_last_found(&mut self.rows, session, number);
    }

    /// Counts a wrong try of a user's PIN.
    pub fn count_wrong_try(&mut self, user: UserType)
        requires { (credential_of user self.old).tries + 1 < 2 ^ 64 }
        ensures agree { (h : History) (e : Entry) → done e ≡ None
            → about h (wrong_try e) ≡ Some user
            → SessionsAgree h self.old → SessionsAgree (e ◁ h) self.new }
    {
        match user {
            UserType::So => self.so.tries += 1,
            UserType::User => self.user.tries += 1,
        }
    }
}
