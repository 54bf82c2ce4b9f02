ghost use Rattle.std.specs.Prelude.{◌≡◌, ◌<◌, ◌≤◌, false, IfOk, IfSome, IsOk, OnOk};
ghost use Rattle.std.specs.Option.{option_copied};
ghost use Rattle.ck_journal.specs.Histories.{History};
ghost use Rattle.ck_journal.specs.MemoryNeeds.{may_run_out};
ghost use Rattle.ck_journal.specs.Replies.{has_items};
ghost use Rattle.ck_parts.specs.Agreement.{PartsAgree, adds, HasRoom};

use crate::cuts::Uncut;
use crate::decisions::{Decision, Refused};
use ck_journal::{Base, Body, Call, Entry, Journal, OperationKind, Reply, TokenBoard, Work};
use ck_mac::RunningTag;
use ck_parts::{Change, Parts};
use ck_types::{Limits, NoMemory, Rv};
use std::alloc::Global;
use std::marker::Model;
use std::mem;

mod mechanisms;
mod object_calls;
mod operation_calls;
mod pin_calls;
mod readings;
mod search_calls;
mod session_calls;
mod works;

/// A token with its sessions, objects and operations, wholly in memory. Contracts see its limits,
/// the history of its journal, and for how many more entries the journal has room. Of every token
/// the parts are what the history says, and the history is legal.
#[derive(Drop)]
pub struct Token {
    limits: Limits,
    parts: Parts,
    journal: Journal,
}

impl Model for Token {
    ghost use Rattle.std.specs.Coded.{codes};
    ghost use Rattle.ck_journal.specs.HistoryCode.{history_code};
    ghost use Rattle.ck_journal.specs.TokenStates.{TokenState};
    ghost use Rattle.ck_token.specs.Agreement.{TokenAgrees};

    ghost Value = { TokenState };

    ghost coded = { Prim.hlevel (codes, history_code) };

    ghost view = { λ t. record {
      limits = t.limits;
      history = t.journal.history;
      spare = t.journal.spare;
    } };

    ghost invariant = { λ t. TokenAgrees t.limits t.journal.history t.parts };
}

/// Drops what is left of a call, and answers `NoMemory`.
// Inlined, so that what is left isn't copied on the way to `drop_apart`.
#[inline(always)]
fn out_of_memory<T: Drop>(left: T) -> NoMemory {
    drop_apart(left);
    NoMemory
}

/// Drops a value in a function of its own, since a compiled function clears, where it begins, the
/// stack room of all that it may drop.
#[cold]
#[inline(never)]
fn drop_apart<T: Drop>(_left: T) {}

/// Makes a reply of its code and its body, which a `Decision` has apart.
// A function, since the proof of `call_after` names what is known after it; inlined, so that the
// body isn't copied.
#[inline(always)]
fn reply_with(rv: Rv, body: Body) -> Reply
    ensures { result ≡ record { rv = rv; body = body } }
{
    Reply { rv, body }
}

/// Does what may fail when a call is entered: makes the journal's copy of the reply's body, and
/// room for the entry and for what the change adds.
// Inlined, as `decide` and `dispatch` are: a decision is large, and functions of their own would
// copy it.
#[inline(always)]
fn prepare(
    parts: &mut Parts,
    journal: &mut Journal,
    body: &Body,
    change: &Change,
) -> Result<Body, NoMemory>
    ensures copy { IfOk result (λ copy. copy ≡ body.now) }
    ensures agree { (h : History) → PartsAgree h parts.old → PartsAgree h parts.new }
    ensures room { OnOk result (HasRoom parts.new change.now) }
    ensures history { journal.new.history ≡ journal.old.history }
    ensures entry { OnOk result (1 ≤ journal.new.spare) }
    ensures spare { journal.old.spare ≤ journal.new.spare }
    ensures succeeds { 0 < journal.old.spare → has_items body.now ≡ false
        → adds change.now ≡ false → IsOk result }
{
    let entered = body.clone()?;
    parts.reserve(change)?;
    journal.reserve(1)?;
    Ok(entered)
}

impl Token {
    ghost use Rattle.std.specs.Prelude.{◌+◌, true, OnErr};
    ghost use Rattle.ck_journal.specs.Answers.{IsLegal, answer};
    ghost use Rattle.ck_journal.specs.Bases.{empty_base, IsSound};
    ghost use Rattle.ck_journal.specs.Boards.{board_of};
    ghost use Rattle.ck_journal.specs.Cuts.{base_of, IsLeftBy};
    ghost use Rattle.ck_journal.specs.Histories.{start, start_of};
    ghost use Rattle.ck_journal.specs.Laws.{IsSoundHistory};
    ghost use Rattle.ck_journal.specs.TokenStates.{IsAnswered, IsUnchanged};
    ghost use Rattle.ck_journal.specs.Works.{IsAhead, HoldsAfter};
    ghost use Rattle.ck_parts.specs.Changes.{effect};
    ghost use Rattle.ck_token.specs.Cuts.{IsCut};
    ghost use Rattle.ck_token.specs.Decisions.{IsDecision, reply_of};

    /// A token that has answered no call; to make it takes no memory.
    pub fn new(alloc: Global, limits: Limits) -> Token
        ensures limits { result.limits ≡ limits }
        ensures history { result.history ≡ start empty_base }
    {
        Token::of(limits, Parts::new(alloc), Journal::new(alloc))
    }

    /// A token that starts from a base, such as that of a journal, and has answered no call since.
    /// Where there is no memory, the base is dropped.
    pub fn from_base(alloc: Global, limits: Limits, base: Base) -> Result<Token, NoMemory>
        requires { IsSound base }
        ensures limits { IfOk result (λ token. token.limits ≡ limits) }
        ensures history { IfOk result (λ token. token.history ≡ start base) }
    {
        let parts = Parts::from_base(alloc, &base)?;
        Ok(Token::of(limits, parts, Journal::from_base(alloc, base)))
    }

    /// A token of a journal without entries, and of the parts that it starts with.
    // A function, so that the invariant is shown once for `new` and for `from_base`.
    fn of(limits: Limits, parts: Parts, journal: Journal) -> Token
        requires empty { journal.history ≡ start (start_of journal.history) }
        requires agree { PartsAgree journal.history parts }
        ensures limits { result.limits ≡ limits }
        ensures history { result.history ≡ journal.history }
    {
        Token {
            limits,
            parts,
            journal,
        }
    }

    /// The journal: the base that it starts from, and all calls answered since. The laws of
    /// ck_journal hold of it.
    pub fn journal(&self) -> &Journal
        ensures history { result.now.history ≡ self.now.history }
        ensures legal { IsLegal self.now.limits self.now.history }
        ensures sound { IsSoundHistory self.now.limits self.now.history }
    {
        &self.journal
    }

    /// What C_GetSessionInfo and C_GetTokenInfo read of the token. A board has a fixed size, so
    /// this takes no memory.
    pub fn board(&self) -> TokenBoard
        ensures { result ≡ board_of self.now.limits self.now.history }
    {
        self.parts.sessions.board(self.limits.sessions())
    }

    /// Makes room in the journal for `count` more entries. Where there is no memory for all, the
    /// room that was made so far stays.
    pub fn reserve(&mut self, count: u64) -> Result<(), NoMemory>
        ensures unchanged { IsUnchanged self.old self.new }
        ensures room { OnOk result (count ≤ self.new.spare) }
        ensures spare { self.old.spare ≤ self.new.spare }
        ensures succeeds { count ≤ self.old.spare → IsOk result }
    {
        self.journal.reserve(count)
    }

    /// For how many more entries the journal has room.
    pub fn spare(&self) -> u64
        ensures { result ≡ self.now.spare }
    {
        self.journal.spare()
    }

    /// How many sessions may be open at once, and how many openings of sessions, creations of
    /// objects and logins of the normal user there may be in all.
    pub fn limits(&self) -> Limits
        ensures { result ≡ self.now.limits }
    {
        self.limits
    }

    /// Takes the journal out. The token goes on with a new one, which starts from what the calls so
    /// far leave, has no entries and may have no room for any. Where a session is open, which is
    /// looked at first, or there is no memory, nothing has changed. All later calls are answered as
    /// they would have been.
    pub fn cut(&mut self, alloc: Global) -> Result<Journal, Uncut>
        ensures cut { IsCut self.old self.new result }
        ensures taken { OnOk result (IsSoundHistory self.old.limits self.old.history) }
        ensures sound { OnOk result (IsSound (base_of self.old.history)) }
        ensures left { OnOk result
            (IsLeftBy self.old.limits self.old.history (base_of self.old.history)) }
    {
        if self.parts.sessions.count() != 0 {
            return Err(Uncut::Session);
        }
        let objects = self.parts.objects.kept(alloc)?;
        let base = self
            .parts
            .sessions
            .base(self.parts.objects.creations(), objects);
        let journal = Journal::from_base(alloc, base);
        Ok(mem::replace(&mut self.journal, journal))
    }

    /// Answers a call and enters it in the journal. Where there is no memory for it, nothing has
    /// changed and the call isn't in the journal. `caller` is a number of the application's choice.
    /// It stands in the entry, and no reply depends on it.
    ///
    /// Where the journal has room, a call that fails one of its checks is never out of memory. One
    /// that passes them may be out of memory only where it opens a session; creates, generates or
    /// copies an object; sets or reads attributes; finds or returns objects; reads the list of
    /// mechanisms; starts an operation; or asks for the bytes of a digest or a signature.
    // Inlined, since a function that only hands a call on would copy it.
    #[inline(always)]
    pub fn call(&mut self, alloc: Global, caller: u32, call: Call) -> Result<Reply, NoMemory>
        ensures answered { IfOk result (λ reply. IsAnswered self.old self.new caller call reply) }
        ensures unchanged { OnErr result (IsUnchanged self.old self.new) }
        ensures legal { IsLegal self.new.limits self.new.history }
        ensures succeeds { 0 < self.old.spare
            → may_run_out self.old.limits self.old.history call ≡ false → IsOk result }
        ensures room { OnOk result (self.old.spare ≤ self.new.spare + 1) }
        ensures spare { OnErr result (self.old.spare ≤ self.new.spare) }
    {
        self.call_after(alloc, caller, call, None)
    }

    /// As `call`, with the work that `Token::work` began for this call and that is done. It counts
    /// only where the call's operation hasn't changed since; the reply and the entry are those of
    /// `call` in any case.
    // Never inlined: else it is compiled twice, with work and without. The functions that it calls
    // then aren't inlined, and short calls take longer.
    #[inline(never)]
    pub fn call_after(
        &mut self,
        alloc: Global,
        caller: u32,
        call: Call,
        work: Option<&Work>,
    ) -> Result<Reply, NoMemory>
        requires { IfSome (option_copied work) (IsAhead self.old.history call) }
        ensures answered { IfOk result (λ reply. IsAnswered self.old self.new caller call reply) }
        ensures unchanged { OnErr result (IsUnchanged self.old self.new) }
        ensures legal { IsLegal self.new.limits self.new.history }
        ensures succeeds { 0 < self.old.spare
            → may_run_out self.old.limits self.old.history call ≡ false → IsOk result }
        ensures room { OnOk result (self.old.spare ≤ self.new.spare + 1) }
        ensures spare { OnErr result (self.old.spare ≤ self.new.spare) }
    {
        let ready = self.ready_tag(&call, work);
        let Ok(Decision { rv, body, change }) = self.decide(alloc, &call, ready) else {
            return Err(out_of_memory(call));
        };
        let Ok(entered) = prepare(&mut self.parts, &mut self.journal, &body, &change) else {
            return Err(out_of_memory((call, body, change)));
        };
        let entries = self.journal.len();
        self.parts.apply(change, &call, ready, entries);
        self.journal.push_reserved(Entry {
            caller,
            call,
            reply: reply_with(rv, entered),
        });
        Ok(reply_with(rv, body))
    }

    /// The reply to a call, and what the call changes. `ready`, where it is given, is the running
    /// tag of the call's operation that has taken in the bytes of the call already.
    // Inlined, as `prepare` is.
    #[inline(always)]
    fn decide(
        &self,
        alloc: Global,
        call: &Call,
        ready: Option<&RunningTag>,
    ) -> Result<Decision, NoMemory>
        requires { IfSome (option_copied ready) (HoldsAfter self.now.history call.now) }
        ensures reply { IfOk result (λ decision.
            reply_of decision ≡ answer self.now.limits self.now.history call.now) }
        ensures change { IfOk result (λ decision.
            decision.change ≡ effect self.now.history call.now (reply_of decision)) }
        ensures succeeds { OnErr result
            (may_run_out self.now.limits self.now.history call.now ≡ true) }
    {
        match self.dispatch(alloc, call, ready) {
            Ok(decision) => Ok(decision),
            Err(Refused::Error { error, change }) => Ok(Decision {
                rv: Rv::Error(error),
                body: Body::Empty,
                change,
            }),
            Err(Refused::Memory) => Err(NoMemory),
        }
    }

    /// The decision on a call, by the call's own function. `ready` is as that of `decide`.
    // Inlined, as `prepare` is.
    #[inline(always)]
    fn dispatch(
        &self,
        alloc: Global,
        call: &Call,
        ready: Option<&RunningTag>,
    ) -> Result<Decision, Refused>
        requires { IfSome (option_copied ready) (HoldsAfter self.now.history call.now) }
        ensures { IsDecision self.now.limits self.now.history call.now result }
    {
        match call {
            Call::InitToken { pin } => self.init_token(*pin),
            Call::InitPin { session, pin } => self.init_pin(*session, *pin),
            Call::SetPin { session, old, new } => self.set_pin(*session, *old, *new),
            Call::OpenSession { flags } => self.open_session(*flags),
            Call::CloseSession { session } => self.close_session(*session),
            // C_CloseAllSessions is never refused.
            Call::CloseAllSessions => Ok(Decision::of_change(Change::CloseAllSessions)),
            Call::Login { session, user, pin } => self.login(*session, *user, *pin),
            Call::Logout { session } => self.logout(*session),
            Call::GetSessionInfo { session } => self.get_session_info(*session),
            Call::GetTokenInfo => Ok(self.get_token_info()),
            Call::GetMechanismList => self.get_mechanism_list(alloc),
            Call::SessionCancel { session, flags } => self.session_cancel(*session, *flags),
            Call::CreateObject { session, template } => {
                self.create_object(alloc, *session, template)
            }
            Call::GenerateKey {
                session,
                mechanism,
                template,
                random,
            } => self.generate_key(alloc, *session, mechanism, template, random.as_slice()),
            Call::CopyObject {
                session,
                object,
                template,
            } => self.copy_object(alloc, *session, *object, template),
            Call::GetAttributeValue {
                session,
                object,
                queries,
            } => self.get_attribute_value(alloc, *session, *object, queries.as_slice()),
            Call::SetAttributeValue {
                session,
                object,
                template,
            } => self.set_attribute_value(*session, *object, template),
            Call::SetKeyState {
                session,
                key,
                state,
            } => self.set_key_state(*session, *key, *state),
            Call::DestroyObject { session, object } => self.destroy_object(*session, *object),
            Call::FindObjectsInit { session, template } => {
                self.find_objects_init(alloc, *session, template)
            }
            Call::FindObjects { session, max } => self.find_objects(alloc, *session, *max),
            Call::FindObjectsFinal { session } => self.find_objects_final(*session),
            Call::DigestInit { session, mechanism } => self.digest_init(*session, mechanism),
            Call::Digest {
                session,
                bytes,
                room,
            } => self.finish_single_part(
                alloc,
                OperationKind::Digest,
                *session,
                bytes.as_slice(),
                *room,
                ready,
            ),
            Call::DigestUpdate { session, bytes } => {
                self.update(OperationKind::Digest, *session, bytes.as_slice())
            }
            Call::DigestFinal { session, room } => {
                self.finish_multiple_part(alloc, OperationKind::Digest, *session, *room)
            }
            Call::SignInit {
                session,
                mechanism,
                key,
            } => self.hmac_init(OperationKind::Sign, *session, mechanism, *key),
            Call::Sign {
                session,
                bytes,
                room,
            } => self.finish_single_part(
                alloc,
                OperationKind::Sign,
                *session,
                bytes.as_slice(),
                *room,
                ready,
            ),
            Call::SignUpdate { session, bytes } => {
                self.update(OperationKind::Sign, *session, bytes.as_slice())
            }
            Call::SignFinal { session, room } => {
                self.finish_multiple_part(alloc, OperationKind::Sign, *session, *room)
            }
            Call::VerifyInit {
                session,
                mechanism,
                key,
            } => self.hmac_init(OperationKind::Verify, *session, mechanism, *key),
            Call::Verify {
                session,
                bytes,
                signature,
            } => self.verify(*session, bytes.as_slice(), signature.as_slice(), ready),
            Call::VerifyUpdate { session, bytes } => {
                self.update(OperationKind::Verify, *session, bytes.as_slice())
            }
            Call::VerifyFinal { session, signature } => {
                self.verify_final(*session, signature.as_slice())
            }
        }
    }
}
