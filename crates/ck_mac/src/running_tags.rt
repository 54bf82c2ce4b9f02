use crate::digests::Running;
use crate::macs::Mac;
use crate::tags::Tag;

/// A running tag: the digest or the HMAC of a message that comes in pieces.
#[derive(Clone, Drop)]
pub enum RunningTag {
    Digest(Running),
    Mac(Mac),
}

impl RunningTag {
    ghost use Rattle.std.specs.Prelude.{◌≡◌, ℕ, List, ◌++◌};
    ghost use Rattle.ck_mac.specs.Computations.{Computation, tag_of};
    ghost use Rattle.ck_mac.specs.RunningTags.{HoldsTag, tag_size};

    /// Adds the bytes to the end of the message.
    pub fn update(&mut self, bytes: &[u8])
        ensures { (computation : Computation) (message : List ℕ)
            → HoldsTag computation self.old message
            → HoldsTag computation self.new (message ++ bytes.now) }
    {
        match self {
            RunningTag::Digest(running) => running.update(bytes),
            RunningTag::Mac(mac) => mac.update(bytes),
        }
    }

    /// The length of the tag in bytes. It is the same for every message.
    pub fn tag_len(&self) -> u64
        ensures { (computation : Computation) (message : List ℕ)
            → HoldsTag computation self.now message → result ≡ tag_size computation }
    {
        match self {
            RunningTag::Digest(running) => running.hash().len(),
            RunningTag::Mac(mac) => mac.len(),
        }
    }

    /// A copy. Unlike `clone` of most types, that of a running tag takes no memory and never fails.
    pub fn duplicate(&self) -> RunningTag
        ensures { result ≡ self.now }
    {
        self.clone().unwrap()
    }

    /// The tag of the message.
    fn finish(self) -> Tag
        ensures { (computation : Computation) (message : List ℕ)
            → HoldsTag computation self message → result ≡ tag_of computation message }
    {
        match self {
            RunningTag::Digest(running) => running.finish(),
            RunningTag::Mac(mac) => mac.finish(),
        }
    }

    /// The tag of the message so far.
    pub fn tag(&self) -> Tag
        ensures { (computation : Computation) (message : List ℕ)
            → HoldsTag computation self.now message → result ≡ tag_of computation message }
    {
        self.duplicate().finish()
    }

    /// The tag of the message so far with these bytes at its end. They aren't added to the message.
    pub fn tag_with(&self, bytes: &[u8]) -> Tag
        ensures { (computation : Computation) (message : List ℕ)
            → HoldsTag computation self.now message
            → result ≡ tag_of computation (message ++ bytes.now) }
    {
        let mut whole = self.duplicate();
        whole.update(bytes);
        whole.finish()
    }
}
