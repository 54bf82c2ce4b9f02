use crate::active_operations::Operation;
use crate::rows::{add_piece, find_operation, remove_named, remove_operation, remove_session};
use ck_journal::OperationKind;
use ck_mac::RunningTag;
use ck_types::NoMemory;
use std::alloc::Global;
use std::marker::Model;

/// The active digest, signing and verification operations of all sessions, at most one of a kind in
/// a session (PKCS #11 Base 3.0, Message digesting functions, Signing and MACing functions,
/// Functions for verifying signatures and MACs).
#[derive(Drop)]
pub struct Operations {
    rows: Vec<Operation>,
}

impl Model for Operations {
    ghost use Rattle.std.specs.Prelude.{vec_len, vec_capacity, ◌-◌};
    ghost use Rattle.ck_operations.specs.Agreement.{OperationsState};

    ghost Value = { OperationsState };

    ghost view = { λ o. record {
      rows = o.rows.items;
      spare = vec_capacity o.rows - vec_len o.rows;
    } };
}

impl Operations {
    ghost use Rattle.std.specs.Prelude.{◌≡◌, ◌<◌, [], false, Option, OnOk, IsOk, IfSome};
    ghost use Rattle.std.specs.Option.{option_copied};
    ghost use Rattle.ck_journal.specs.declared.bases.Base.{Base};
    ghost use Rattle.ck_journal.specs.Histories.{History, start, ◌◁◌, entry_count};
    ghost use Rattle.ck_journal.specs.Operations.{is_active};
    ghost use Rattle.ck_journal.specs.Works.{HoldsWith};
    ghost use Rattle.ck_journal.specs.declared.calls.Entry.{Entry};
    ghost use Rattle.ck_operations.specs.Agreement.{OperationsAgree, OptionAgrees, operation_at};
    ghost use Rattle.ck_mac.specs.Computations.{Computation};
    ghost use Rattle.ck_mac.specs.RunningTags.{HoldsTag};
    ghost use Rattle.ck_operations.specs.Moves.{Start, Add, End, OnlyIn, OnlyInSession, OnlyNamed};
    ghost use Rattle.ck_operations.specs.Moves.{InAll, IsStartOf};

    /// No operations, as at the start of a journal. This takes no memory.
    pub fn new(alloc: Global) -> Operations
        ensures { (b : Base) → OperationsAgree (start b) result }
    {
        Operations {
            rows: Vec::new(alloc),
        }
    }

    /// Makes room for one more operation.
    pub fn reserve(&mut self) -> Result<(), NoMemory>
        ensures agree { (h : History) → OperationsAgree h self.old → OperationsAgree h self.new }
        ensures room { OnOk result (0 < self.new.spare) }
        ensures succeeds { 0 < self.old.spare → IsOk result }
    {
        self.rows.reserve(1)?;
        Ok(())
    }

    /// The session's operation of the kind, where one is active.
    pub fn get(&self, kind: OperationKind, session: u64) -> Option<&Operation>
        ensures { (h : History) → OperationsAgree h self.now
            → OptionAgrees (option_copied result) (operation_at kind h session) }
    {
        find_operation(&self.rows, kind, session)
    }

    // ---- changes, each by what the entry of an answered call does to operations

    /// Starts an operation where the session has none of the kind. There must be room for it; this
    /// takes no memory. `running` is the running tag of the empty message, `key` is the number of
    /// the operation's key (a digest has none), and `entries` is how many entries the journal has
    /// before this one.
    pub fn start(
        &mut self,
        kind: OperationKind,
        session: u64,
        running: RunningTag,
        key: Option<u64>,
        entries: u64,
    )
        requires { 0 < self.old.spare }
        ensures agree { (h : History) (e : Entry) (computation : Computation)
            → entries ≡ entry_count h
            → HoldsTag computation running [] → IsStartOf h e computation key
            → OnlyIn kind session Start e → is_active kind h session ≡ false
            → OperationsAgree h self.old → OperationsAgree (e ◁ h) self.new }
    {
        let operation = Operation::new(kind, session, running, key, entries);
        self.rows.push_reserved(operation);
    }

    /// Adds a piece to the message of the session's operation of the kind. `ready`, where it is
    /// given, is the running tag that has taken in the message and the piece already, and takes the
    /// place of the operation's; `entries` is how many entries the journal has before this one.
    pub fn add_piece(
        &mut self,
        kind: OperationKind,
        session: u64,
        bytes: &[u8],
        ready: Option<&RunningTag>,
        entries: u64,
    )
        ensures agree { (h : History) (e : Entry) → entries ≡ entry_count h
            → IfSome (option_copied ready.entry) (HoldsWith kind h session bytes.now)
            → OnlyIn kind session (Add bytes.now) e
            → OperationsAgree h self.old → OperationsAgree (e ◁ h) self.new }
    {
        add_piece(&mut self.rows, kind, session, bytes, ready, entries);
    }

    /// Ends the session's operation of the kind, where one is active.
    pub fn end(&mut self, kind: OperationKind, session: u64)
        ensures agree { (h : History) (e : Entry) → OnlyIn kind session End e
            → OperationsAgree h self.old → OperationsAgree (e ◁ h) self.new }
    {
        remove_operation(&mut self.rows, kind, session);
    }

    /// Ends all operations of the session.
    pub fn end_session(&mut self, session: u64)
        ensures agree { (h : History) (e : Entry) → OnlyInSession session End e
            → OperationsAgree h self.old → OperationsAgree (e ◁ h) self.new }
    {
        remove_session(&mut self.rows, session);
    }

    /// Ends the operations of the session whose kinds the flags name.
    pub fn cancel(&mut self, session: u64, flags: u64)
        ensures agree { (h : History) (e : Entry) → OnlyNamed session flags End e
            → OperationsAgree h self.old → OperationsAgree (e ◁ h) self.new }
    {
        remove_named(&mut self.rows, session, flags);
    }

    /// Ends all operations of all sessions.
    pub fn end_all(&mut self)
        ensures agree { (h : History) (e : Entry) → InAll End e
            → OperationsAgree h self.old → OperationsAgree (e ◁ h) self.new }
    {
        self.rows.clear();
    }
}
