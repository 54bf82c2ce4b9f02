//! Functions that see only the rows. Their clauses speak of a list, and those of `Operations` of a
//! history, so each proof has one thing to show.
ghost use Rattle.std.specs.Prelude.{◌≡◌, not, filter, find, position};
ghost use Rattle.std.specs.Option.{option_copied};
ghost use Rattle.ck_operations.specs.declared.active_operations.Operation.{Operation};
ghost use Rattle.ck_operations.specs.Rows.{is_operation, is_of_session, is_named, IsUpdateOfRows};

use crate::active_operations::Operation;
use ck_journal::OperationKind;
use ck_mac::RunningTag;

/// The session's operation of the kind.
pub(crate) fn find_operation(
    rows: &[Operation],
    kind: OperationKind,
    session: u64,
) -> Option<&Operation>
    ensures { option_copied result ≡ find (is_operation kind session) rows.now }
{
    rows.iter().find(|row| row.is_operation(kind, session))
}

/// Where the session's operation of the kind stands.
// By position: no contract says what becomes of a row that `iter_mut().find` lends.
fn position_of(rows: &[Operation], kind: OperationKind, session: u64) -> Option<usize>
    ensures { result ≡ position (is_operation kind session) rows.now }
{
    rows.iter().position(|row| row.is_operation(kind, session))
}

/// Adds a piece to the message of the session's operation of the kind, where there is one.
pub(crate) fn add_piece(
    rows: &mut [Operation],
    kind: OperationKind,
    session: u64,
    bytes: &[u8],
    ready: Option<&RunningTag>,
    entries: u64,
)
    ensures { IsUpdateOfRows kind session (record {
      bytes = bytes.now;
      ready = option_copied ready.entry;
      entries = entries;
    }) rows.old rows.new }
{
    if let Some(position) = position_of(rows, kind, session) {
        rows[position].add_piece(bytes, ready, entries);
    }
}

/// Ends the session's operation of the kind, where there is one.
pub(crate) fn remove_operation(rows: &mut Vec<Operation>, kind: OperationKind, session: u64)
    ensures { rows.new.items
        ≡ filter (λ (row : Operation). not (is_operation kind session row)) rows.old.items }
{
    rows.retain(|row| !row.is_operation(kind, session));
}

/// Ends all operations of the session.
pub(crate) fn remove_session(rows: &mut Vec<Operation>, session: u64)
    ensures { rows.new.items
        ≡ filter (λ (row : Operation). not (is_of_session session row)) rows.old.items }
{
    rows.retain(|row| !row.is_of_session(session));
}

/// Ends the session's operations whose kinds the flags of C_SessionCancel name.
pub(crate) fn remove_named(rows: &mut Vec<Operation>, session: u64, flags: u64)
    ensures { rows.new.items
        ≡ filter (λ (row : Operation). not (is_named session flags row)) rows.old.items }
{
    rows.retain(|row| !row.is_named(session, flags));
}
