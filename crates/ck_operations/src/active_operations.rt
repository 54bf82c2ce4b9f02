ghost use Rattle.std.specs.Prelude.{◌≡◌, ℕ, List, ◌++◌, IfSome};
ghost use Rattle.ck_mac.specs.Computations.{Computation, tag_of};
ghost use Rattle.ck_mac.specs.RunningTags.{HoldsTag, tag_size};
ghost use Rattle.ck_operations.specs.Rows.{is_operation, is_of_session, is_named, IsUpdateOf};
ghost use Rattle.ck_operations.specs.Rows.{HoldsMessage, operation_key, has_update, new_operation};
ghost use Rattle.ck_operations.specs.Rows.{last_change};
ghost use Rattle.std.specs.Option.{option_copied};

use ck_journal::OperationKind;
use ck_mac::{RunningTag, Tag};

/// An active digest, signing or verification operation of a session (PKCS #11 Base 3.0, Message
/// digesting functions, Signing and MACing functions, Functions for verifying signatures and MACs).
#[derive(Drop)]
pub struct Operation {
    kind: OperationKind,
    session: u64,
    /// The running tag of the message so far.
    running: RunningTag,
    /// The number of the key that it computes with; a digest has none.
    key: Option<u64>,
    /// Whether there was an update, even if of no bytes.
    updated: bool,
    /// How many entries the journal had before the one that last started the operation or added to
    /// its message.
    last_change: u64,
}

impl Operation {
    /// An operation before its first update. `entries` is how many entries the journal has before
    /// the one that starts it.
    pub(crate) fn new(
        kind: OperationKind,
        session: u64,
        running: RunningTag,
        key: Option<u64>,
        entries: u64,
    ) -> Operation
        ensures { result ≡ new_operation kind session running key entries }
    {
        Operation {
            kind,
            session,
            running,
            key,
            updated: false,
            last_change: entries,
        }
    }

    /// Whether it is the session's operation of the kind.
    pub(crate) fn is_operation(&self, kind: OperationKind, session: u64) -> bool
        ensures { result ≡ is_operation kind session self.now }
    {
        self.session == session && self.kind == kind
    }

    /// Whether it is an operation of the session.
    pub(crate) fn is_of_session(&self, session: u64) -> bool
        ensures { result ≡ is_of_session session self.now }
    {
        self.session == session
    }

    /// Whether it is an operation of the session whose kind the flags name.
    pub(crate) fn is_named(&self, session: u64, flags: u64) -> bool
        ensures { result ≡ is_named session flags self.now }
    {
        self.session == session && self.kind.is_named_by(flags)
    }

    /// The number of the key that it computes with; a digest has none.
    pub fn key(&self) -> Option<u64>
        ensures { result ≡ operation_key self.now }
    {
        self.key
    }

    /// Whether there was an update since it was started, even if of no bytes.
    pub fn is_updated(&self) -> bool
        ensures { result ≡ has_update self.now }
    {
        self.updated
    }

    /// How many entries the journal had before the one that last started the operation or added to
    /// its message.
    pub fn last_change(&self) -> u64
        ensures { result ≡ last_change self.now }
    {
        self.last_change
    }

    /// The running tag of the message so far.
    pub fn running(&self) -> &RunningTag
        ensures { (computation : Computation) (message : List ℕ)
            → HoldsMessage computation self.now message
            → HoldsTag computation result.now message }
    {
        &self.running
    }

    /// How many bytes its tag has.
    pub fn tag_len(&self) -> u64
        ensures { (computation : Computation) (message : List ℕ)
            → HoldsMessage computation self.now message → result ≡ tag_size computation }
    {
        self.running.tag_len()
    }

    /// The tag of the message so far: its digest (FIPS 180-4), or the first bytes of its HMAC (FIPS
    /// 198-1), as many as `tag_len` says.
    pub fn tag(&self) -> Tag
        ensures { (computation : Computation) (message : List ℕ)
            → HoldsMessage computation self.now message → result ≡ tag_of computation message }
    {
        self.running.tag()
    }

    /// The tag of the message so far, followed by these bytes. `ready`, where it is given, is the
    /// running tag that has taken in both already.
    pub fn tag_with(&self, bytes: &[u8], ready: Option<&RunningTag>) -> Tag
        ensures { (computation : Computation) (message : List ℕ)
            → IfSome (option_copied ready.entry)
            (λ running. HoldsTag computation running (message ++ bytes.now))
            → HoldsMessage computation self.now message
            → result ≡ tag_of computation (message ++ bytes.now) }
    {
        match ready {
            Some(running) => running.tag(),
            None => self.running.tag_with(bytes),
        }
    }

    /// Adds a piece to its message. `entries` is how many entries the journal has before the one
    /// that adds it. `ready`, where it is given, is the running tag that has taken in the message
    /// and the piece already.
    pub(crate) fn add_piece(&mut self, bytes: &[u8], ready: Option<&RunningTag>, entries: u64)
        ensures { IsUpdateOf (record {
          bytes = bytes.now;
          ready = option_copied ready.entry;
          entries = entries;
        }) self.old self.new }
    {
        match ready {
            Some(running) => self.running = running.duplicate(),
            None => self.running.update(bytes),
        }
        self.updated = true;
        self.last_change = entries;
    }
}
