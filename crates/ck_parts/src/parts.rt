use crate::additions::{create_object, start_digest};
use crate::changes::Change;
use ck_journal::{Base, Call};
use ck_mac::RunningTag;
use ck_operations::Operations;
use ck_sessions::Sessions;
use ck_store::Store;
use ck_types::NoMemory;
use std::alloc::Global;

/// The sessions, the objects and the operations of a token. While a call is carried out they are
/// ahead of the journal, so what ties them to a history stands in the contracts.
#[derive(Drop)]
pub struct Parts {
    pub sessions: Sessions,
    pub objects: Store,
    pub operations: Operations,
}

impl Parts {
    ghost use Rattle.std.specs.Prelude.{◌≡◌, IfOk, IfSome, IsOk, OnOk, false};
    ghost use Rattle.std.specs.Option.{option_copied};
    ghost use Rattle.ck_types.specs.TokenLimits.{Ranges};
    ghost use Rattle.ck_journal.specs.Answers.{IsLegal};
    ghost use Rattle.ck_journal.specs.Bases.{empty_base, IsSound};
    ghost use Rattle.ck_journal.specs.Histories.{History, start, ◌◁◌, entry_count};
    ghost use Rattle.ck_journal.specs.Works.{HoldsAfter};
    ghost use Rattle.ck_journal.specs.declared.calls.Entry.{Entry};
    ghost use Rattle.ck_parts.specs.Agreement.{PartsAgree, adds, HasRoom, IsCounted};
    ghost use Rattle.ck_parts.specs.Changes.{effect};

    /// The parts of a new token, which take no memory.
    pub fn new(alloc: Global) -> Parts
        ensures { PartsAgree (start empty_base) result }
    {
        Parts {
            sessions: Sessions::new(alloc),
            objects: Store::new(alloc),
            operations: Operations::new(alloc),
        }
    }

    /// The parts that start from a base: its PINs, counts and objects, no session and no operation.
    pub fn from_base(alloc: Global, base: &Base) -> Result<Parts, NoMemory>
        requires { IsSound base.now }
        ensures { IfOk result (λ parts. PartsAgree (start base.now) parts) }
    {
        let objects = Store::from_base(alloc, base)?;
        Ok(Parts {
            sessions: Sessions::from_base(alloc, base),
            objects,
            operations: Operations::new(alloc),
        })
    }

    /// Makes room for what a change adds. Where there is room already, this takes no memory.
    pub fn reserve(&mut self, change: &Change) -> Result<(), NoMemory>
        ensures agree { (h : History) → PartsAgree h self.old → PartsAgree h self.new }
        ensures room { OnOk result (HasRoom self.new change.now) }
        ensures has_room { HasRoom self.old change.now → IsOk result }
        ensures succeeds { adds change.now ≡ false → IsOk result }
    {
        match change {
            Change::OpenSession { .. } => self.sessions.reserve(),
            Change::CreateObject { .. } => self.objects.reserve(),
            Change::StartDigest { .. } | Change::StartHmac { .. } => self.operations.reserve(),
            _ => Ok(()),
        }
    }

    /// Carries out the change of an answered call, and takes no memory. The bytes that a call adds
    /// to a message are read off the call. `ready`, where it is given, is the running tag of the
    /// call's operation that has taken in those bytes already; `entries` is how many entries the
    /// journal has before this one.
    pub fn apply(&mut self, change: Change, call: &Call, ready: Option<&RunningTag>, entries: u64)
        requires room { HasRoom self.old change }
        requires counted { IsCounted self.old change }
        ensures agree { (limits : Ranges) (h : History) (e : Entry) → IsLegal limits (e ◁ h)
            → change ≡ effect h e.call e.reply → call.now ≡ e.call
            → entries ≡ entry_count h → IfSome (option_copied ready.entry) (HoldsAfter h e.call)
            → PartsAgree h self.old → PartsAgree (e ◁ h) self.new }
    {
        match change {
            Change::Nothing => {}
            Change::WrongTry { user } => self.sessions.count_wrong_try(user),
            Change::InitToken { pin } => {
                self.sessions.init_token(pin);
                self.objects.clear();
            }
            Change::InitPin { pin } => self.sessions.init_pin(pin),
            Change::SetPin { owner, pin } => self.sessions.set_pin(owner, pin),
            Change::OpenSession { flags } => self.sessions.open_session(flags),
            Change::CloseSession { session } => {
                self.sessions.close(session);
                self.objects.end_session(session);
                self.operations.end_session(session);
            }
            Change::CloseAllSessions => {
                self.sessions.close_all();
                self.objects.end_all_sessions();
                self.operations.end_all();
            }
            Change::LogIn { user } => self.sessions.log_in(user),
            Change::LogOut => {
                self.sessions.log_out();
                self.objects.end_private();
                self.operations.end_all();
            }
            Change::CreateObject {
                session,
                attributes,
            } => create_object(&mut self.objects, session, attributes),
            Change::SetAttributes { number, values } => self.objects.change(number, values),
            Change::SetKeyState { number, state } => self.objects.set_state(number, state),
            Change::DestroyObject { number } => self.objects.destroy(number),
            Change::SetSearch { session, found } => self.sessions.set_search(session, found),
            Change::AdvanceSearch { session, number } => {
                self.sessions.advance_search(session, number)
            }
            Change::StartDigest { session, hash } => {
                start_digest(&mut self.operations, session, hash, entries)
            }
            Change::StartHmac {
                kind,
                session,
                hash,
                key,
                len,
            } => self.start_hmac(kind, session, hash, key, len, entries),
            Change::AddPiece { kind, session } => {
                self.operations
                    .add_piece(kind, session, call.taken_bytes(), ready, entries)
            }
            Change::FinishOperation {
                kind,
                session,
                ends,
            } => {
                if ends {
                    self.operations.end(kind, session);
                }
            }
            Change::CancelOperations { session, flags } => self.operations.cancel(session, flags),
        }
    }
}
