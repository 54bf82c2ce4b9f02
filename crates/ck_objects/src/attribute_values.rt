use ck_types::NoMemory;
use smallvec::SmallVec;
use std::alloc::{AllocError, Global};
use std::marker::Model;

/// The bytes of an attribute's value (CK_ATTRIBUTE; PKCS #11 Base 3.0, Object types). A copy of at
/// most 16 bytes lies in the value itself and takes no memory of its own; a longer one lies in a
/// vector. Contracts see the bytes.
#[derive(Drop)]
pub struct AttributeValue {
    bytes: SmallVec<u8, 16>,
}

impl Model for AttributeValue {
    ghost use Rattle.std.specs.Prelude.{List, ℕ};

    ghost Value = { List ℕ };

    ghost view = { λ v. v.bytes.items };
}

/// A copy of a value of at most 16 bytes takes no memory.
impl Clone for AttributeValue {
    ghost use Rattle.std.specs.Prelude.{◌≡◌, ◌≤◌, length};

    ghost is_clone = { λ value copy. copy ≡ value };

    ghost is_infallible = { λ value. length value ≤ 16 };

    fn clone(&self) -> Result<AttributeValue, AllocError> {
        let bytes = SmallVec::from_slice(*self.bytes.allocator(), self.as_slice())?;
        Ok(AttributeValue { bytes })
    }
}

impl AttributeValue {
    ghost use Rattle.std.specs.Prelude.{◌≡◌, ◌≤◌, [], IfOk, IsOk, length};

    /// A value of no bytes, which takes no memory.
    pub fn new(alloc: Global) -> AttributeValue
        ensures { result ≡ [] }
    {
        AttributeValue {
            bytes: SmallVec::new(alloc),
        }
    }

    /// A copy of these bytes. One of at most 16 bytes takes no memory.
    pub fn from_slice(alloc: Global, bytes: &[u8]) -> Result<AttributeValue, NoMemory>
        ensures copied { IfOk result (λ value. value ≡ bytes.now) }
        ensures short { length bytes.now ≤ 16 → IsOk result }
    {
        let bytes = SmallVec::from_slice(alloc, bytes)?;
        Ok(AttributeValue { bytes })
    }

    /// The bytes of a vector. This takes no memory: a vector with room for more than 16 bytes is
    /// kept, and the bytes of a smaller one are moved into the value.
    pub fn from_vec(bytes: Vec<u8>) -> AttributeValue
        ensures { result ≡ bytes.items }
    {
        AttributeValue {
            bytes: SmallVec::from_vec(bytes),
        }
    }

    /// The bytes, in their order.
    pub fn as_slice(&self) -> &[u8]
        ensures { result.now ≡ self.now }
    {
        self.bytes.as_slice()
    }
}
