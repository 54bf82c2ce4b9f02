use crate::memory::NoMemory;
use std::alloc::{AllocError, Global};
use std::marker::Model;

/// A vector of which contracts see only the items: two of them are equal where their items are,
/// whatever their capacities.
#[derive(Drop)]
pub struct Sequence<T> {
    items: Vec<T>,
}

impl<T> Model for Sequence<T> {
    ghost use Rattle.std.specs.Prelude.{List};

    ghost Value = { List T };

    ghost view = { λ s. s.items.items };
}

/// A copy of no items takes no memory.
impl<T: Clone> Clone for Sequence<T> {
    ghost use Rattle.std.specs.Prelude.{◌≡◌, []};
    ghost use Rattle.std.specs.List.{AllZip};

    ghost is_clone = { λ s copy. AllZip T.is_clone s copy };

    ghost is_infallible = { λ s. s ≡ [] };

    fn clone(&self) -> Result<Sequence<T>, AllocError> {
        // A vector's own clone may fail also where there is nothing to copy.
        if self.items.is_empty() {
            return Ok(Sequence::new(*self.items.allocator()));
        }
        let items = self.items.clone()?;
        Ok(Sequence { items })
    }
}

/// Bytes, such as a message or a signature.
pub type Bytes = Sequence<u8>;

impl<T> Sequence<T> {
    ghost use Rattle.std.specs.Prelude.{◌≡◌, []};

    /// A sequence of no items, which takes no memory.
    pub fn new(alloc: Global) -> Sequence<T>
        ensures { result ≡ [] }
    {
        Sequence {
            items: Vec::new(alloc),
        }
    }

    /// A sequence of the vector's items. They are moved, so this takes no memory.
    pub fn from_vec(items: Vec<T>) -> Sequence<T>
        ensures { result ≡ items.items }
    {
        Sequence { items }
    }

    /// A vector of the items. They are moved, so this takes no memory.
    pub fn into_vec(self) -> Vec<T>
        ensures { result.items ≡ self }
    {
        self.items
    }

    /// The items, in their order.
    pub fn as_slice(&self) -> &[T]
        ensures { result.now ≡ self.now }
    {
        &self.items
    }
}

impl Sequence<u8> {
    ghost use Rattle.std.specs.Prelude.{◌≡◌, [], IfOk, IsOk};

    /// A copy of these bytes. A copy of no bytes takes no memory, which `Vec::from_slice` doesn't
    /// promise.
    pub fn from_slice(alloc: Global, bytes: &[u8]) -> Result<Bytes, NoMemory>
        ensures copied { IfOk result (λ copied. copied ≡ bytes.now) }
        ensures empty { bytes.now ≡ [] → IsOk result }
    {
        let mut items = Vec::with_capacity(alloc, bytes.len())?;
        items.extend_from_slice(bytes)?;
        Ok(Sequence { items })
    }
}
