ghost use Rattle.std.specs.Prelude.{◌≡◌, ◌≤◌, ℕ, List, [], ◌++◌, take};
ghost use Rattle.ck_mac.specs.RunningTags.{Holds};
ghost use Rattle.ck_types.specs.Hashes.{block_length, digest_length};
ghost use Rattle.ck_mac.specs.Macs.{block_key, xor_each};
ghost use Rattle.ck_types.specs.declared.hashes.Hash.{Hash};

use crate::digests::{Running, digest};
use crate::tags::{Tag, with_zeros};
use ck_types::{Hash, RvError};

/// The length in bytes of the longest block.
const LONGEST_BLOCK: usize = 128;

/// Each byte of the inner pad (ipad; FIPS 198-1, section 2.3).
const INNER_PAD: u8 = 0x36;

/// Each byte of the outer pad (opad).
const OUTER_PAD: u8 = 0x5c;

/// A running HMAC, of a message that comes in pieces (FIPS 198-1). Its tag is the whole HMAC or its
/// first bytes.
#[derive(Clone, Drop)]
pub struct Mac {
    /// Has taken in the key combined with the inner pad, and then the message so far.
    inner: Running,
    /// Has taken in the key combined with the outer pad.
    outer: Running,
    /// The length of the tag in bytes.
    len: u64,
}

impl Mac {
    ghost use Rattle.ck_types.specs.Checks.{check_of};
    ghost use Rattle.ck_mac.specs.Macs.{hmac, signature_error};
    ghost use Rattle.ck_mac.specs.RunningTags.{HoldsMac};

    /// A running HMAC under this key, whose message is empty so far. The key may have any length.
    pub fn new(hash: Hash, key: &[u8]) -> Mac
        ensures { HoldsMac hash key.now (digest_length hash) result [] }
    {
        Mac::general(hash, key, hash.len())
    }

    /// A running HMAC as `new` makes it, whose tag is the first `n` bytes of the HMAC.
    #[tactic(auto, unfolding(crate::specs::RunningTags::HoldsMac))]
    pub fn general(hash: Hash, key: &[u8], n: u64) -> Mac
        requires at_least_one { 1 ≤ n }
        requires at_most_all { n ≤ digest_length hash }
        ensures { HoldsMac hash key.now n result [] }
    {
        let block = block_key(hash, key);
        Mac {
            inner: keyed_digest(hash, block, INNER_PAD),
            outer: keyed_digest(hash, block, OUTER_PAD),
            len: n,
        }
    }

    /// Adds the bytes to the end of the message.
    #[tactic(auto, unfolding(crate::specs::RunningTags::HoldsMac))]
    pub fn update(&mut self, bytes: &[u8])
        ensures { (hash : Hash) (key : List ℕ) (n : ℕ) (message : List ℕ)
            → HoldsMac hash key n self.old message
            → HoldsMac hash key n self.new (message ++ bytes.now) }
    {
        self.inner.update(bytes);
    }

    /// The length of the tag in bytes.
    #[tactic(auto, unfolding(crate::specs::RunningTags::HoldsMac))]
    pub fn len(&self) -> u64
        ensures { (hash : Hash) (key : List ℕ) (n : ℕ) (message : List ℕ)
            → HoldsMac hash key n self.now message → result ≡ n }
    {
        self.len
    }

    /// The tag: the HMAC of the message, or its first bytes.
    pub fn finish(self) -> Tag
        ensures { (hash : Hash) (key : List ℕ) (n : ℕ) (message : List ℕ)
            → HoldsMac hash key n self message → result ≡ take n (hmac hash key message) }
    {
        let Mac {
            inner,
            mut outer,
            len,
        } = self;
        outer.update(inner.finish().bytes());
        let mut tag = outer.finish();
        tag.truncate(len as usize);
        tag
    }

    /// Checks a signature against the tag: CKR_SIGNATURE_LEN_RANGE for another length,
    /// CKR_SIGNATURE_INVALID for other bytes of the same length.
    pub fn check(self, signature: &[u8]) -> Result<(), RvError>
        ensures { (hash : Hash) (key : List ℕ) (n : ℕ) (message : List ℕ)
            → HoldsMac hash key n self message
            → result ≡ check_of (signature_error (take n (hmac hash key message)) signature.now) }
    {
        self.finish().check(signature)
    }
}

/// The key, or its digest where it is longer than a block, followed by zeros. Its first block is K0
/// (FIPS 198-1, section 4).
#[tactic(auto, using(crate::proofs::KeyLemmas::key_blocks))]
fn block_key(hash: Hash, key: &[u8]) -> [u8; LONGEST_BLOCK]
    ensures { take (block_length hash) result ≡ block_key hash key.now }
{
    if key.len() as u64 <= hash.block() {
        with_zeros(key)
    } else {
        with_zeros(digest(hash, key).bytes())
    }
}

/// A running digest that has taken in the block of the key, each byte combined with the pad.
#[tactic(auto, using(crate::proofs::LengthLemmas::block_length_le_128))]
fn keyed_digest(hash: Hash, mut block: [u8; LONGEST_BLOCK], pad: u8) -> Running
    ensures { Holds hash result (xor_each pad (take (block_length hash) block)) }
{
    let block = &mut block[..hash.block() as usize];
    xor_each(block, pad);
    let mut running = Running::new(hash);
    running.update(block);
    running
}

/// Combines each byte with the pad by exclusive or.
fn xor_each(bytes: &mut [u8], pad: u8)
    ensures { bytes.new ≡ xor_each pad bytes.old }
{
    for byte in bytes.iter_mut() {
        *byte ^= pad;
    }
}
