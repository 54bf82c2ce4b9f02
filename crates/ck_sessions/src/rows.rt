//! Functions that see only the rows. Their clauses speak of a list, and those of `Sessions` of a
//! history, so each proof has one thing to show.
ghost use Rattle.std.specs.Prelude.{◌≡◌, ◌+◌, ◌≤◌, ◌++◌, not, filter, find, length, map, position};
ghost use Rattle.std.specs.Prelude.{None};
ghost use Rattle.std.specs.List.{list_any};
ghost use Rattle.std.specs.Option.{option_copied};
ghost use Rattle.ck_journal.specs.Lists.{change_first};
ghost use Rattle.ck_sessions.specs.Rows.{SessionRow, is_session, is_rw_row, is_read_only_row};
ghost use Rattle.ck_sessions.specs.Rows.{board_row, with_search, with_last_found};

use crate::open_sessions::Session;
use crate::searches::Search;
use ck_journal::TokenBoard;

/// The session that has the handle.
pub(crate) fn find_session(rows: &[Session], session: u64) -> Option<&Session>
    ensures { option_copied result ≡ find (is_session session) rows.now }
{
    rows.iter().find(|row| row.has_handle(session))
}

/// How many of the sessions are read/write.
pub(crate) fn count_read_write(rows: &[Session]) -> u64
    ensures { result ≡ length (filter is_rw_row rows.now) }
{
    rows.iter().filter(|row| row.is_read_write()).count() as u64
}

/// Whether any of the sessions is read-only.
pub(crate) fn has_read_only(rows: &[Session]) -> bool
    ensures { result ≡ list_any is_read_only_row rows.now }
{
    rows.iter().any(|row| !row.is_read_write())
}

/// Closes the session that has the handle.
pub(crate) fn remove_session(rows: &mut Vec<Session>, session: u64)
    ensures { rows.new.items
        ≡ filter (λ (row : SessionRow). not (is_session session row)) rows.old.items }
{
    rows.retain(|row| !row.has_handle(session));
}

/// Where the session that has the handle stands.
// By position: no contract says what becomes of a row that `iter_mut().find` lends.
fn position_of(rows: &[Session], session: u64) -> Option<usize>
    ensures { result ≡ position (is_session session) rows.now }
{
    rows.iter().position(|row| row.has_handle(session))
}

/// Makes this the session's search; `None` ends its search.
pub(crate) fn set_search(rows: &mut [Session], session: u64, search: Option<Search>)
    ensures { rows.new ≡ change_first (is_session session) (with_search search) rows.old }
{
    if let Some(position) = position_of(rows, session) {
        rows[position].set_search(search);
    }
}

/// Notes the number of the object that the session's search returned last.
pub(crate) fn set_last_found(rows: &mut [Session], session: u64, number: u64)
    ensures { rows.new ≡ change_first (is_session session) (with_last_found number) rows.old }
{
    if let Some(position) = position_of(rows, session) {
        rows[position].set_last_found(number);
    }
}

/// Ends the searches of all sessions.
pub(crate) fn end_searches(rows: &mut [Session])
    ensures { rows.new ≡ map (with_search None) rows.old }
{
    for row in rows.iter_mut() {
        row.set_search(None);
    }
}

/// Adds the sessions to a board, which has room for them.
pub(crate) fn add_to_board(rows: &[Session], board: &mut TokenBoard)
    requires { length board.old.sessions + length rows.now ≤ 64 }
    ensures { board.new ≡ record board.old {
      sessions = board.old.sessions ++ map board_row rows.now;
    } }
{
    for row in rows {
        board.push(row.handle(), row.flags());
    }
}
