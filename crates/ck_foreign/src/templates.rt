ghost use Rattle.std.specs.Prelude.{◌≡◌, IfOk, drop, take};
ghost use Rattle.ck_foreign.specs.Templates.{template_of};

use ck_token::{AttributeValue, Item, NoMemory, Sequence, Template};
use std::alloc::Global;

/// What C tells of an attribute of a template besides its value: its type, and the value's length.
#[repr(C)]
#[derive(Clone, Copy)]
pub struct TypeAndLength {
    pub kind: u64,
    pub length: u64,
}

/// As many bytes as the length says, or all where there are fewer, and what is left.
fn split_value(values: &[u8], length: u64) -> (&[u8], &[u8])
    ensures value { result.0.now ≡ take length values.now }
    ensures rest { result.1.now ≡ drop length values.now }
{
    if length >= values.len() as u64 {
        return (values, &[]);
    }
    values.split_at(length as usize)
}

/// The template of these attributes, whose values stand one after the other.
pub fn template_of(
    alloc: Global,
    attributes: &[TypeAndLength],
    values: &[u8],
) -> Result<Template, NoMemory>
    ensures { IfOk result (λ template. template ≡ template_of attributes.now values.now) }
{
    let mut items = Vec::with_capacity(alloc, attributes.len())?;
    let mut rest = values;
    for attribute in attributes {
        let (value, behind) = split_value(rest, attribute.length);
        let value = AttributeValue::from_slice(alloc, value)?;
        items.push(Item {
            kind: attribute.kind,
            value,
        })?;
        rest = behind;
    }
    Ok(Template {
        items: Sequence::from_vec(items),
    })
}
