ghost use Rattle.std.specs.Prelude.{◌≡◌, ℕ, List, [], ◌++◌};
ghost use Rattle.ck_mac.specs.Digests.{digest_of};

use crate::tags::Tag;
use ck_types::Hash;
use sha2::{Digest, Sha224, Sha256, Sha384, Sha512};

/// A hasher of the crate `sha2`.
#[derive(Clone, Drop)]
enum Hasher {
    Sha224(Sha224),
    Sha256(Sha256),
    Sha384(Sha384),
    Sha512(Sha512),
}

/// A running digest: that of a message that comes in pieces (FIPS 180-4).
#[derive(Clone, Drop)]
pub struct Running {
    hasher: Hasher,
}

impl Running {
    ghost use Rattle.ck_types.specs.declared.hashes.Hash.{Hash};
    ghost use Rattle.ck_mac.specs.RunningTags.{Holds};

    /// A running digest whose message is empty so far.
    pub fn new(hash: Hash) -> Running
        ensures { Holds hash result [] }
    {
        let hasher = match hash {
            Hash::Sha224 => Hasher::Sha224(Sha224::new()),
            Hash::Sha256 => Hasher::Sha256(Sha256::new()),
            Hash::Sha384 => Hasher::Sha384(Sha384::new()),
            Hash::Sha512 => Hasher::Sha512(Sha512::new()),
        };
        Running { hasher }
    }

    /// The hash function.
    pub(crate) fn hash(&self) -> Hash
        ensures { (hash : Hash) (message : List ℕ) → Holds hash self.now message → result ≡ hash }
    {
        match &self.hasher {
            Hasher::Sha224(_) => Hash::Sha224,
            Hasher::Sha256(_) => Hash::Sha256,
            Hasher::Sha384(_) => Hash::Sha384,
            Hasher::Sha512(_) => Hash::Sha512,
        }
    }

    /// Adds the bytes to the end of the message.
    pub fn update(&mut self, bytes: &[u8])
        ensures { (hash : Hash) (message : List ℕ)
            → Holds hash self.old message → Holds hash self.new (message ++ bytes.now) }
    {
        match &mut self.hasher {
            Hasher::Sha224(hasher) => hasher.update(bytes),
            Hasher::Sha256(hasher) => hasher.update(bytes),
            Hasher::Sha384(hasher) => hasher.update(bytes),
            Hasher::Sha512(hasher) => hasher.update(bytes),
        }
    }

    /// The digest of the message.
    pub fn finish(self) -> Tag
        ensures { (hash : Hash) (message : List ℕ)
            → Holds hash self message → result ≡ digest_of hash message }
    {
        match self.hasher {
            Hasher::Sha224(hasher) => Tag::of(&hasher.finalize()),
            Hasher::Sha256(hasher) => Tag::of(&hasher.finalize()),
            Hasher::Sha384(hasher) => Tag::of(&hasher.finalize()),
            Hasher::Sha512(hasher) => Tag::of(&hasher.finalize()),
        }
    }
}

/// The digest of the message.
pub(crate) fn digest(hash: Hash, message: &[u8]) -> Tag
    ensures { result ≡ digest_of hash message.now }
{
    let mut running = Running::new(hash);
    running.update(message);
    running.finish()
}
