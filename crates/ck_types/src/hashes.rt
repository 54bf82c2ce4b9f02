ghost use Rattle.std.specs.Prelude.{◌≡◌};

/// A hash function of the SHA-2 family (FIPS 180-4).
#[derive(Clone, Copy, Debug, PartialEq, Eq)]
pub enum Hash {
    Sha224,
    Sha256,
    Sha384,
    Sha512,
}

impl Hash {
    ghost use Rattle.ck_types.specs.Hashes.{digest_length, block_length};

    /// The length of a digest in bytes (FIPS 180-4, figure 1).
    pub fn len(self) -> u64
        ensures { result ≡ digest_length self }
    {
        match self {
            Hash::Sha224 => 28,
            Hash::Sha256 => 32,
            Hash::Sha384 => 48,
            Hash::Sha512 => 64,
        }
    }

    /// The length of a block in bytes (FIPS 180-4, figure 1). A message is hashed block by block.
    pub fn block(self) -> u64
        ensures { result ≡ block_length self }
    {
        match self {
            Hash::Sha224 | Hash::Sha256 => 64,
            Hash::Sha384 | Hash::Sha512 => 128,
        }
    }
}
