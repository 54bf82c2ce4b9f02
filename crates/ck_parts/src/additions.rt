//! What a change adds. A compiled function clears the stack room of its values where it begins, and
//! these values are large. So the functions that add are never inlined, and other changes take no
//! time for their values.
ghost use Rattle.std.specs.Prelude.{◌≡◌, ◌+◌, ◌<◌, ◌≤◌, ◌^◌, [], true, false, Some, None};
ghost use Rattle.std.specs.Prelude.{unwrap_or};
ghost use Rattle.ck_types.specs.Hashes.{digest_length};
ghost use Rattle.ck_objects.specs.Records.{key_value};
ghost use Rattle.ck_mac.specs.Computations.{digest_by, hmac_by};
ghost use Rattle.ck_journal.specs.Histories.{History, ◌◁◌, done, entry_count};
ghost use Rattle.ck_journal.specs.Objects.{attributes_named, object_at};
ghost use Rattle.ck_journal.specs.Objects.{creates, creation_session, creation_attributes};
ghost use Rattle.ck_journal.specs.Operations.{is_active};
ghost use Rattle.ck_journal.specs.declared.calls.Call.{Call};
ghost use Rattle.ck_journal.specs.declared.calls.Entry.{Entry};
ghost use Rattle.ck_journal.specs.declared.operations.OperationKind.TheVariants as kind;
ghost use Rattle.ck_operations.specs.Agreement.{OperationsAgree};
ghost use Rattle.ck_operations.specs.Moves.{IsStartOf, OnlyIn, Start};
ghost use Rattle.ck_store.specs.Agreement.{StoreAgrees};

use crate::boxed::Boxed;
use crate::parts::Parts;
use ck_journal::OperationKind;
use ck_mac::{Mac, Running, RunningTag};
use ck_objects::Record;
use ck_operations::Operations;
use ck_store::Store;
use ck_types::Hash;

/// Adds an object that the session creates or copies.
#[inline(never)]
pub(crate) fn create_object(objects: &mut Store, session: u64, attributes: Boxed<Record>)
    requires room { 0 < objects.old.spare }
    requires numbers { objects.old.creations + 1 < 2 ^ 32 }
    ensures { (h : History) (e : Entry) (c : Call) → done e ≡ Some c
        → creates (Some c) ≡ true → session ≡ creation_session (Some c)
        → attributes ≡ creation_attributes (Some c) (attributes_named h)
        → StoreAgrees h objects.old → StoreAgrees (e ◁ h) objects.new }
{
    objects.create(session, attributes.into_inner());
}

/// Starts a digest, where the session has none. There must be room for it. `entries` is how many
/// entries the journal has before this one.
#[inline(never)]
pub(crate) fn start_digest(operations: &mut Operations, session: u64, hash: Hash, entries: u64)
    requires { 0 < operations.old.spare }
    ensures { (h : History) (e : Entry) → entries ≡ entry_count h
        → IsStartOf h e (digest_by hash) None
        → OnlyIn kind.Digest session Start e → is_active kind.Digest h session ≡ false
        → OperationsAgree h operations.old → OperationsAgree (e ◁ h) operations.new }
{
    let running = RunningTag::Digest(Running::new(hash));
    operations.start(OperationKind::Digest, session, running, None, entries);
}

/// The bytes of the key of this number; none where there is no such object. The decision has looked
/// the key up already. Its change holds only the number, since it can't borrow from the store that
/// `apply` changes.
fn key_value(objects: &Store, number: u64) -> &[u8]
    ensures { (h : History) → StoreAgrees h objects.now
        → result.now ≡ key_value (unwrap_or (object_at h number) []) }
{
    match objects.at(number) {
        None => &[],
        Some(attributes) => attributes.value_bytes(),
    }
}

impl Parts {
    /// Starts a signature or a verification under the key of this number, where the session has
    /// none of the kind. There must be room for it. `len` is how many bytes a signature has, and
    /// `entries` how many entries the journal has before this one.
    #[inline(never)]
    pub(crate) fn start_hmac(
        &mut self,
        kind: OperationKind,
        session: u64,
        hash: Hash,
        key: u64,
        len: u64,
        entries: u64,
    )
        requires room { 0 < self.old.operations.spare }
        requires length { (1 ≤ len) × (len ≤ digest_length hash) }
        ensures others { self.new ≡ record self.old { operations = self.new.operations } }
        ensures agree { (h : History) (e : Entry) → entries ≡ entry_count h
            → StoreAgrees h self.old.objects
            → IsStartOf h e (hmac_by hash (key_value (unwrap_or (object_at h key) [])) len)
            (Some key)
            → OnlyIn kind session Start e → is_active kind h session ≡ false
            → OperationsAgree h self.old.operations
            → OperationsAgree (e ◁ h) self.new.operations }
    {
        let mac = Mac::general(hash, key_value(&self.objects, key), len);
        self.operations
            .start(kind, session, RunningTag::Mac(mac), Some(key), entries);
    }
}
