use crate::attribute_values::AttributeValue;
use crate::attributes::Attribute;
use crate::fields::Field;
use crate::forms::DATA;
use crate::items::{Item, copied_items, flag_or, take_value};
use crate::object_flags::Placement;
use ck_types::NoMemory;
use std::alloc::Global;

/// A data object (PKCS #11 Base 3.0, Data objects). Its class is no field. The fields that most
/// calls read stand first and side by side, for calls that look at many objects: the label, and the
/// flags that are read before it.
#[derive(Clone, Drop)]
pub(crate) struct Data {
    label: AttributeValue,
    token: bool,
    private: bool,
    modifiable: bool,
    copyable: bool,
    destroyable: bool,
    application: AttributeValue,
    pub(crate) value: AttributeValue,
    object_id: AttributeValue,
}

impl Data {
    ghost use Rattle.std.specs.Prelude.{◌≡◌, None, IfOk, option_map};
    ghost use Rattle.ck_types.specs.Numbers.{number_bytes};
    ghost use Rattle.ck_objects.specs.Attributes.{type_of};
    ghost use Rattle.ck_types.specs.Checks.{first_error};
    ghost use Rattle.ck_objects.specs.Templates.{value_at, form_error, flag_at, created_error};
    ghost use Rattle.ck_objects.specs.Templates.{class_of};
    ghost use Rattle.ck_objects.specs.declared.attributes.Attribute.TheVariants as attribute;
    ghost use Rattle.ck_objects.specs.Records.{with_given, placement_of, created_items, is_set};
    ghost use Rattle.ck_objects.specs.Structs.{data_items, blank_data, keeps, changed_data};
    ghost use Rattle.ck_objects.specs.declared.attributes.Class.TheVariants as class;
    ghost use Rattle.ck_objects.specs.Fields.{field_bytes, flag_field};

    /// The data object that a template creates.
    pub(crate) fn created(alloc: Global, items: &[Item]) -> Result<Data, NoMemory>
        requires class { class_of items.now ≡ class.Data }
        requires passes { created_error items.now ≡ None }
        ensures { IfOk result (λ made. data_items made ≡ created_items items.now) }
    {
        let mut values = copied_items(alloc, items)?;
        let mut data = Data::blank(alloc);
        data.set(&mut values);
        Ok(data)
    }

    /// A data object with the defaults of the table in specs/Attributes.antt. It takes no memory.
    fn blank(alloc: Global) -> Data
        ensures { result ≡ blank_data }
    {
        Data {
            token: false,
            private: false,
            label: AttributeValue::new(alloc),
            application: AttributeValue::new(alloc),
            value: AttributeValue::new(alloc),
            object_id: AttributeValue::new(alloc),
            modifiable: true,
            copyable: true,
            destroyable: true,
        }
    }

    /// Gives the object the values of the attributes that the items give. Values of bytes are
    /// exchanged, so the items get what the object had.
    pub(crate) fn set(&mut self, items: &mut [Item])
        requires well_formed { first_error form_error items.old ≡ None }
        requires class { keeps items.old attribute.Class (number_bytes 0) }
        ensures { data_items self.new ≡ with_given items.old (data_items self.old) }
    {
        self.token = flag_or(items, Attribute::Token, self.token);
        self.private = flag_or(items, Attribute::Private, self.private);
        self.modifiable = flag_or(items, Attribute::Modifiable, self.modifiable);
        self.copyable = flag_or(items, Attribute::Copyable, self.copyable);
        self.destroyable = flag_or(items, Attribute::Destroyable, self.destroyable);
        self.change(items);
    }

    /// As `set`, but only for the attributes that a change may give.
    pub(crate) fn change(&mut self, items: &mut [Item])
        ensures { self.new ≡ changed_data items.old self.old }
    {
        take_value(items, Attribute::Label, &mut self.label);
        take_value(items, Attribute::Application, &mut self.application);
        take_value(items, Attribute::Value, &mut self.value);
        take_value(items, Attribute::ObjectId, &mut self.object_id);
    }

    /// The value of an attribute, or `None` where data objects don't have it.
    #[tactic(auto, using(crate::proofs::FlagLemmas::flags))]
    pub(crate) fn field(&self, attribute: Attribute) -> Option<Field>
        ensures value { option_map field_bytes result
            ≡ value_at (data_items self.now) (type_of attribute) }
        ensures flag { flag_field result ≡ flag_at (data_items self.now) attribute }
    {
        match attribute {
            Attribute::Class => Some(Field::Number(DATA)),
            Attribute::Token => Some(Field::Flag(self.token)),
            Attribute::Private => Some(Field::Flag(self.private)),
            Attribute::Label => Some(Field::Bytes(&self.label)),
            Attribute::Application => Some(Field::Bytes(&self.application)),
            Attribute::Value => Some(Field::Bytes(&self.value)),
            Attribute::ObjectId => Some(Field::Bytes(&self.object_id)),
            Attribute::Modifiable => Some(Field::Flag(self.modifiable)),
            Attribute::Copyable => Some(Field::Flag(self.copyable)),
            Attribute::Destroyable => Some(Field::Flag(self.destroyable)),
            _ => None,
        }
    }

    /// Whether the object has the flag and it is true.
    pub(crate) fn is_set(&self, flag: Attribute) -> bool
        ensures { result ≡ is_set (data_items self.now) flag }
    {
        matches!(self.field(flag), Some(Field::Flag(true)))
    }

    /// CKA_TOKEN and CKA_PRIVATE of the object.
    pub(crate) fn placement(&self) -> Placement
        ensures { result ≡ placement_of (data_items self.now) }
    {
        Placement {
            token: self.token,
            private: self.private,
        }
    }
}
