use crate::attribute_values::AttributeValue;
use ck_types::NoMemory;
use std::alloc::Global;

/// The value of an attribute as an object keeps it (PKCS #11 Base 3.0, Objects). As bytes, a flag
/// is one byte 0 or 1 (CK_BBOOL), and a number is 8 bytes, the least significant first (CK_ULONG).
#[derive(Drop)]
pub enum Field<'a> {
    Flag(bool),
    Number(u64),
    Bytes(&'a AttributeValue),
}

impl<'a> Field<'a> {
    ghost use Rattle.std.specs.Prelude.{◌≡◌, ◌≤◌, IfOk, IsOk, length};
    ghost use Rattle.ck_types.specs.Numbers.{same_bytes};
    ghost use Rattle.ck_objects.specs.Fields.{field_bytes};

    /// The length of the value in bytes.
    pub fn len(&self) -> u64
        ensures { result ≡ length (field_bytes self.now) }
    {
        match self {
            Field::Flag(_) => 1,
            Field::Number(_) => 8,
            Field::Bytes(bytes) => bytes.as_slice().len() as u64,
        }
    }

    /// Whether these are the value's bytes.
    pub(crate) fn has_bytes(&self, bytes: &[u8]) -> bool
        ensures { result ≡ same_bytes bytes.now (field_bytes self.now) }
    {
        match self {
            Field::Flag(flag) => bytes == [u8::from(*flag)].as_slice(),
            Field::Number(number) => bytes == number.to_le_bytes().as_slice(),
            Field::Bytes(value) => bytes == value.as_slice(),
        }
    }

    /// A copy of the value's bytes. One of at most 16 bytes takes no memory.
    pub fn to_value(&self, alloc: Global) -> Result<AttributeValue, NoMemory>
        ensures copied { IfOk result (λ value. value ≡ field_bytes self.now) }
        ensures short { length (field_bytes self.now) ≤ 16 → IsOk result }
    {
        match self {
            Field::Flag(flag) => AttributeValue::from_slice(alloc, &[u8::from(*flag)]),
            Field::Number(number) => AttributeValue::from_slice(alloc, &number.to_le_bytes()),
            Field::Bytes(value) => AttributeValue::from_slice(alloc, value.as_slice()),
        }
    }
}
