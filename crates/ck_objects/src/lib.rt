//! Attributes, templates, key states and the records of objects of a PKCS #11 token.
#![tactic(auto)]

mod attribute_values;
mod attributes;
mod data_objects;
mod fields;
mod forms;
mod items;
mod key_states;
mod keys;
mod object_flags;
mod records;
mod template_constructors;
mod templates;

pub use attribute_values::AttributeValue;
pub use attributes::{Attribute, Class};
pub use fields::Field;
pub use forms::{DATA, GENERIC_SECRET, SECRET_KEY};
pub use items::Item;
pub use key_states::KeyState;
pub use object_flags::Placement;
pub use records::Record;
pub use templates::Template;
