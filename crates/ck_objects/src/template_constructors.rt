use crate::attribute_values::AttributeValue;
use crate::attributes::{Attribute, Class};
use crate::forms::GENERIC_SECRET;
use crate::items::Item;
use crate::templates::Template;
use ck_types::{NoMemory, Sequence};
use std::alloc::Global;

/// Templates that are made attribute by attribute. What they give isn't checked here.
impl Template {
    ghost use Rattle.std.specs.Prelude.{◌≡◌, ◌++◌, ◌∷◌, [], IfOk};
    ghost use Rattle.ck_types.specs.Numbers.{number_bytes};
    ghost use Rattle.ck_objects.specs.Attributes.{type_of, flag_bytes, class_number};
    ghost use Rattle.ck_objects.specs.declared.attributes.Attribute.TheVariants as attribute;

    /// A template that gives no attribute. It takes no memory.
    pub fn new(alloc: Global) -> Template
        ensures { result.items ≡ [] }
    {
        Template {
            items: Sequence::new(alloc),
        }
    }

    /// A template by which C_CreateObject makes a generic secret key. It gives the class
    /// (CKO_SECRET_KEY), the key type (CKK_GENERIC_SECRET) and these bytes as the value, and
    /// nothing else.
    pub fn secret_key(alloc: Global, value: &[u8]) -> Result<Template, NoMemory>
        ensures { IfOk result (λ template. template.items ≡ record {
          kind = type_of attribute.Class;
          value = number_bytes 4;
        } ∷ record {
          kind = type_of attribute.KeyType;
          value = number_bytes 16;
        } ∷ record { kind = type_of attribute.Value; value = value.now } ∷ []) }
    {
        Template::new(alloc)
            .class(Class::SecretKey)?
            .number(Attribute::KeyType, GENERIC_SECRET)?
            .bytes(Attribute::Value, value)
    }

    /// The template with one item more: this attribute, with these bytes as its value.
    pub fn bytes(self, attribute: Attribute, value: &[u8]) -> Result<Template, NoMemory>
        ensures { IfOk result (λ template. template.items ≡ self.items
            ++ record { kind = type_of attribute; value = value.now } ∷ []) }
    {
        let mut items = self.items.into_vec();
        let value = AttributeValue::from_slice(*items.allocator(), value)?;
        items.push(Item {
            kind: attribute.number(),
            value,
        })?;
        Ok(Template {
            items: Sequence::from_vec(items),
        })
    }

    /// The template with one item more: this attribute, with a flag as its value (CK_BBOOL).
    pub fn flag(self, attribute: Attribute, value: bool) -> Result<Template, NoMemory>
        ensures { IfOk result (λ template. template.items ≡ self.items
            ++ record { kind = type_of attribute; value = flag_bytes value } ∷ []) }
    {
        self.bytes(attribute, &[u8::from(value)])
    }

    /// The template with one item more: the class (CKA_CLASS).
    pub fn class(self, class: Class) -> Result<Template, NoMemory>
        ensures { IfOk result (λ template. template.items ≡ self.items ++ record {
          kind = type_of attribute.Class;
          value = number_bytes (class_number class);
        } ∷ []) }
    {
        self.number(Attribute::Class, class.number())
    }

    /// The template with one item more: this attribute, with a number as its value (CK_ULONG), such
    /// as `GENERIC_SECRET` for the key type.
    pub fn number(self, attribute: Attribute, value: u64) -> Result<Template, NoMemory>
        ensures { IfOk result (λ template. template.items ≡ self.items
            ++ record { kind = type_of attribute; value = number_bytes value } ∷ []) }
    {
        self.bytes(attribute, &value.to_le_bytes())
    }
}
