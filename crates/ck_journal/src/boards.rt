ghost use Rattle.std.specs.Prelude.{◌≡◌, ◌==◌, length, filter, find};
ghost use Rattle.std.specs.Option.{option_copied};
ghost use Rattle.ck_types.specs.Users.{session_state};
ghost use Rattle.ck_journal.specs.Sessions.{has_rw_flag};

use crate::replies::{Body, Reply};
use crate::session_flags::is_read_write;
use ck_types::{MOST_SESSIONS, Rv, RvError, SessionState, TokenFlags, UserType};
use std::marker::Model;

/// How many sessions a board has room for.
const ROWS: usize = MOST_SESSIONS as usize;

/// Who is logged in, and what C_GetTokenInfo says of the PINs.
#[derive(Clone, Copy, Debug, PartialEq, Eq)]
pub struct LoginStatus {
    pub login: Option<UserType>,
    /// How many wrong tries of the security officer's PIN were made since they last went back to 0.
    pub so_tries: u64,
    /// As `so_tries`, of the normal user's PIN.
    pub user_tries: u64,
    pub is_initialized: bool,
    pub has_user_pin: bool,
}

/// What C_GetSessionInfo and C_GetTokenInfo (PKCS #11 Base 3.0, Session management functions, Slot
/// and token management functions) read of a token. A copy of it answers them as the token did when
/// the board was made. It takes no memory: it has a row for each of the 64 sessions that a token
/// may have open. A token answers the two calls by itself, without a board: for C_GetSessionInfo it
/// looks only at the session that is asked for.
#[derive(Debug, Drop)]
pub struct TokenBoard {
    limit: u64,
    status: LoginStatus,
    /// The handles and flags of the open sessions, in the order of their openings, in the first
    /// `count` rows.
    rows: [(u64, u64); ROWS],
    count: usize,
}

impl Model for TokenBoard {
    ghost use Rattle.std.specs.Prelude.{take, ◌≤◌};
    ghost use Rattle.ck_journal.specs.Boards.{BoardState};

    ghost Value = { BoardState };

    ghost view = { λ b. record {
      limit = b.limit;
      sessions = take b.count b.rows;
      status = b.status;
    } };

    ghost invariant = { λ b. b.count ≤ 64 };
}

/// The state of a session, by who is logged in and whether the session is read/write (PKCS #11 Base
/// 3.0, Session types). While the security officer is logged in, all sessions are read/write.
pub fn session_state(login: Option<UserType>, is_read_write: bool) -> SessionState
    ensures { result ≡ session_state login is_read_write }
{
    match login {
        None if is_read_write => SessionState::RwPublic,
        None => SessionState::RoPublic,
        Some(UserType::User) if is_read_write => SessionState::RwUser,
        Some(UserType::User) => SessionState::RoUser,
        Some(UserType::So) => SessionState::RwSo,
    }
}

/// The row of the session that has the handle.
fn find_row(rows: &[(u64, u64)], handle: u64) -> Option<&(u64, u64)>
    ensures { option_copied result ≡ find (λ row. row.0 == handle) rows.now }
{
    rows.iter().find(|row| row.0 == handle)
}

/// How many rows are of read/write sessions.
fn count_read_write(rows: &[(u64, u64)]) -> u64
    ensures { result ≡ length (filter (λ row. has_rw_flag row.1) rows.now) }
{
    rows.iter().filter(|row| is_read_write(row.1)).count() as u64
}

impl TokenBoard {
    ghost use Rattle.std.specs.Prelude.{◌<◌, ◌++◌, ◌∷◌, []};
    ghost use Rattle.ck_types.specs.TokenLimits.{Ranges};
    ghost use Rattle.ck_journal.specs.Answers.{answer};
    ghost use Rattle.ck_journal.specs.Boards.{board_of};
    ghost use Rattle.ck_journal.specs.Histories.{History};
    ghost use Rattle.ck_journal.specs.declared.calls.Call.TheVariants as call;

    /// A board without sessions. `limit` is how many sessions may be open at once.
    pub fn new(limit: u64, status: LoginStatus) -> TokenBoard
        ensures { result ≡ record { limit = limit; sessions = []; status = status } }
    {
        TokenBoard {
            limit,
            status,
            rows: [(0, 0); ROWS],
            count: 0,
        }
    }

    /// Adds an open session and its flags, behind those that are there.
    pub fn push(&mut self, handle: u64, flags: u64)
        requires { length self.old.sessions < 64 }
        ensures { self.new
            ≡ record self.old { sessions = self.old.sessions ++ (handle, flags) ∷ [] } }
    {
        self.rows[self.count] = (handle, flags);
        self.count += 1;
    }

    /// A copy, which takes no memory.
    pub fn duplicate(&self) -> TokenBoard
        ensures { result ≡ self.now }
    {
        TokenBoard {
            limit: self.limit,
            status: self.status,
            rows: self.rows,
            count: self.count,
        }
    }

    /// What C_GetSessionInfo answers.
    pub fn session_info(&self, session: u64) -> Reply
        ensures { (limits : Ranges) (h : History) → self.now ≡ board_of limits h
            → result ≡ answer limits h (call.GetSessionInfo session) }
    {
        match find_row(&self.rows[..self.count], session) {
            None => Reply {
                rv: Rv::Error(RvError::SessionHandleInvalid),
                body: Body::Empty,
            },
            Some((_, flags)) => Reply {
                rv: Rv::Ok,
                body: Body::Session {
                    state: session_state(self.status.login, is_read_write(*flags)),
                    flags: *flags,
                },
            },
        }
    }

    /// What C_GetTokenInfo answers.
    pub fn token_info(&self) -> Reply
        ensures { (limits : Ranges) (h : History) → self.now ≡ board_of limits h
            → result ≡ answer limits h call.GetTokenInfo }
    {
        let rows = &self.rows[..self.count];
        let status = self.status;
        Reply {
            rv: Rv::Ok,
            body: Body::Token {
                flags: TokenFlags::of(
                    status.is_initialized,
                    status.has_user_pin,
                    status.user_tries,
                    status.so_tries,
                ),
                limit: self.limit,
                sessions: rows.len() as u64,
                rw_sessions: count_read_write(rows),
            },
        }
    }
}
