ghost use Rattle.std.specs.Prelude.{◌≡◌, None, IfOk};

use crate::attributes::{Attribute, Class, Purpose};
use crate::data_objects::Data;
use crate::fields::Field;
use crate::items::{Item, class_of, copied_items};
use crate::key_states::KeyState;
use crate::keys::Key;
use crate::object_flags::{Placement, Protections};
use crate::templates::Template;
use ck_types::{NoMemory, RvError, error_if};
use std::alloc::{AllocError, Global};
use std::marker::Model;

/// An object by its class.
#[derive(Clone, Drop)]
enum Object {
    Data(Data),
    Key(Key),
}

/// The attributes of one object. Contracts see them as items, by ascending type.
#[derive(Drop)]
pub struct Record {
    object: Object,
}

impl Model for Record {
    ghost use Rattle.std.specs.Prelude.{List};
    ghost use Rattle.ck_objects.specs.declared.items.Item.{Item};

    ghost Value = { List Item };

    ghost use Rattle.ck_objects.specs.Structs.{object_items};

    ghost view = { λ r. object_items r.object };
}

// Not derived: contracts see a record as its items, and a derived clone as its fields.
impl Clone for Record {
    ghost use Rattle.std.specs.Prelude.{◌≡◌};

    ghost is_clone = { λ r copy. copy ≡ r };

    fn clone(&self) -> Result<Record, AllocError> {
        let object = self.object.clone()?;
        Ok(Record { object })
    }
}

impl Record {
    ghost use Rattle.std.specs.Prelude.{option_map, Some, true};
    ghost use Rattle.ck_types.specs.Checks.{check_of};
    ghost use Rattle.std.specs.Result.{result_err};
    ghost use Rattle.ck_objects.specs.Templates.{value_at, created_error, generated_error};
    ghost use Rattle.ck_objects.specs.Templates.{class_of};
    ghost use Rattle.ck_objects.specs.declared.attributes.Attribute.TheVariants as attribute;
    ghost use Rattle.ck_objects.specs.Records.{generated_items, readable_value};
    ghost use Rattle.ck_objects.specs.Records.{state_in, key_value, with_state, created_items};
    ghost use Rattle.ck_objects.specs.Records.{with_given, protections_of, placement_of};
    ghost use Rattle.ck_objects.specs.Records.{is_revealable, is_hidden, copied_error};
    ghost use Rattle.ck_objects.specs.Records.{changed_error, is_set, has_item, matches};
    ghost use Rattle.ck_objects.specs.Structs.{data_items, key_items, read_error};
    ghost use Rattle.ck_objects.specs.Fields.{field_bytes};

    /// The object that C_CreateObject makes by a template that passes `Template::check_creation`
    /// (PKCS #11 Base 3.0, Object management functions).
    pub fn create_with(alloc: Global, template: &Template) -> Result<Record, NoMemory>
        requires { created_error template.now.items ≡ None }
        ensures { IfOk result (λ made. made ≡ created_items template.now.items) }
    {
        let items = template.items.as_slice();
        match class_of(items) {
            Class::Data => {
                let data = Data::created(alloc, items)?;
                Ok(Record::of_data(data))
            }
            Class::SecretKey => {
                let key = Key::created(alloc, items)?;
                Ok(Record::of_key(key))
            }
        }
    }

    /// The key that C_GenerateKey makes by a template and random bytes that pass
    /// `Template::check_generation` (PKCS #11 Base 3.0, Key management functions). Its value is the
    /// random bytes.
    pub fn generate_with(
        alloc: Global,
        template: &Template,
        random: &[u8],
    ) -> Result<Record, NoMemory>
        requires { generated_error template.now.items random.now ≡ None }
        ensures { IfOk result (λ made. made ≡ generated_items template.now.items random.now) }
    {
        let key = Key::generated(alloc, template.items.as_slice(), random)?;
        Ok(Record::of_key(key))
    }

    /// The attributes of a data object.
    fn of_data(object: Data) -> Record
        ensures { result ≡ data_items object }
    {
        Record {
            object: Object::Data(object),
        }
    }

    /// The attributes of a key.
    fn of_key(key: Key) -> Record
        ensures { result ≡ key_items key }
    {
        Record {
            object: Object::Key(key),
        }
    }

    /// The checks of a template of C_CopyObject for this object (PKCS #11 Base 3.0, Object
    /// management functions). The first that fails gives the code: a type that the token doesn't
    /// know (CKR_ATTRIBUTE_TYPE_INVALID) or a value that isn't of its form
    /// (CKR_ATTRIBUTE_VALUE_INVALID), item by item; two different values of one type
    /// (CKR_TEMPLATE_INCONSISTENT); an attribute that the object's class doesn't have
    /// (CKR_ATTRIBUTE_TYPE_INVALID) or that a copy may not be given (CKR_ATTRIBUTE_READ_ONLY), item
    /// by item; CKA_SENSITIVE false for a sensitive key or CKA_EXTRACTABLE true for a key that
    /// isn't extractable (CKR_ATTRIBUTE_READ_ONLY); CKA_PRIVATE false for a private object
    /// (CKR_TEMPLATE_INCONSISTENT).
    #[tactic(auto, using(ck_types::proofs::CheckLemmas::checks))]
    pub fn check_copy(&self, template: &Template) -> Result<(), RvError>
        ensures { result ≡ check_of
            (copied_error (class_of self.now) (protections_of self.now) template.now.items) }
    {
        let protections = self.protections();
        template.check(self.class(), Purpose::Copy)?;
        error_if(
            template.exposes_key(protections),
            RvError::AttributeReadOnly,
        )?;
        error_if(
            template.makes_public(protections),
            RvError::TemplateInconsistent,
        )
    }

    /// CKA_TOKEN and CKA_PRIVATE of a copy that is made with the template.
    pub fn copy_placement(&self, template: &Template) -> Placement
        ensures { result ≡ placement_of (with_given template.now.items self.now) }
    {
        let items = template.items.as_slice();
        // By class: the clause is so only of attributes that have both flags, as each class has
        // them.
        match &self.object {
            Object::Data(data) => data.placement().with(items),
            Object::Key(key) => key.placement().with(items),
        }
    }

    /// A copy of the object, with the values that a template of C_CopyObject gives, where the
    /// template passes `check_copy` (PKCS #11 Base 3.0, Object management functions).
    pub fn copy_with(&self, alloc: Global, template: &Template) -> Result<Record, NoMemory>
        requires { copied_error (class_of self.now) (protections_of self.now) template.now.items
            ≡ None }
        ensures { IfOk result (λ made. made ≡ with_given template.now.items self.now) }
    {
        let mut values = copied_items(alloc, template.items.as_slice())?;
        let mut copy = self.clone()?;
        match &mut copy.object {
            Object::Data(data) => data.set(&mut values),
            Object::Key(key) => key.set(&mut values),
        }
        Ok(copy)
    }

    /// The checks of a template of C_SetAttributeValue for this object (PKCS #11 Base 3.0, Object
    /// management functions): those of `check_copy` except the last. An attribute that may not be
    /// set is CKR_ATTRIBUTE_READ_ONLY.
    #[tactic(auto, using(ck_types::proofs::CheckLemmas::checks))]
    pub fn check_change(&self, template: &Template) -> Result<(), RvError>
        ensures { result ≡ check_of
            (changed_error (class_of self.now) (protections_of self.now) template.now.items) }
    {
        template.check(self.class(), Purpose::Set)?;
        error_if(
            template.exposes_key(self.protections()),
            RvError::AttributeReadOnly,
        )
    }

    /// Gives the object the values of a template of C_SetAttributeValue that passes `check_change`
    /// (PKCS #11 Base 3.0, Object management functions). They are moved into the object, so this
    /// takes no memory. CKA_PRIVATE stays as it was.
    pub fn change(&mut self, values: Template)
        requires { changed_error (class_of self.old) (protections_of self.old) values.items
            ≡ None }
        ensures given { self.new ≡ with_given values.items self.old }
        ensures private { is_set self.new attribute.Private ≡ is_set self.old attribute.Private }
    {
        let mut items = values.items.into_vec();
        match &mut self.object {
            Object::Data(data) => data.change(&mut items),
            Object::Key(key) => key.change(&mut items),
        }
    }

    /// The object's class (CKA_CLASS).
    pub fn class(&self) -> Class
        ensures { result ≡ class_of self.now }
    {
        match &self.object {
            Object::Data(_) => Class::Data,
            Object::Key(_) => Class::SecretKey,
        }
    }

    /// The attributes of the object that a template may not weaken.
    fn protections(&self) -> Protections
        ensures { result ≡ protections_of self.now }
    {
        Protections {
            private: self.is_set(Attribute::Private),
            sensitive: self.is_set(Attribute::Sensitive),
            extractable: self.is_set(Attribute::Extractable),
        }
    }

    /// CKA_TOKEN and CKA_PRIVATE of the object.
    pub fn placement(&self) -> Placement
        ensures { result ≡ placement_of self.now }
    {
        match &self.object {
            Object::Data(data) => data.placement(),
            Object::Key(key) => key.placement(),
        }
    }

    /// Whether the object matches a template of C_FindObjectsInit (PKCS #11 Base 3.0, Object
    /// management functions): it has each attribute of the template with equal bytes, none of them
    /// hidden. The template isn't checked: one without items matches every object, and a type that
    /// the object doesn't have, or two different values of one type, match none.
    pub fn matches(&self, template: &Template) -> bool
        ensures { result ≡ matches self.now template.now.items }
    {
        template.items.as_slice().iter().all(|item| self.has(item))
    }

    /// Whether the value may be revealed (CKA_VALUE; PKCS #11 Base 3.0, Secret key objects).
    fn is_revealable(&self) -> bool
        ensures { result ≡ is_revealable self.now }
    {
        match &self.object {
            Object::Data(_) => true,
            Object::Key(key) => key.is_revealable(),
        }
    }

    /// The bytes of the value (CKA_VALUE), whether or not they may be revealed.
    pub fn value_bytes(&self) -> &[u8]
        ensures { result.now ≡ key_value self.now }
    {
        match &self.object {
            Object::Data(data) => data.value.as_slice(),
            Object::Key(key) => key.value.as_slice(),
        }
    }

    /// Whether the attribute of this type is a value (CKA_VALUE) that may not be revealed.
    fn is_hidden(&self, kind: u64) -> bool
        ensures { result ≡ is_hidden self.now kind }
    {
        kind == Attribute::Value.number() && !self.is_revealable()
    }

    /// Whether the object has the item's attribute with equal bytes, and it isn't hidden.
    fn has(&self, item: &Item) -> bool
        ensures { result ≡ has_item self.now item.now }
    {
        if self.is_hidden(item.kind) {
            return false;
        }
        self.field(item.kind)
            .is_some_and(|field| field.has_bytes(item.value.as_slice()))
    }

    /// Whether the object has the flag and it is true.
    pub fn is_set(&self, flag: Attribute) -> bool
        ensures { result ≡ is_set self.now flag }
    {
        match &self.object {
            Object::Data(data) => data.is_set(flag),
            Object::Key(key) => key.is_set(flag),
        }
    }

    /// The value of an attribute as C_GetAttributeValue reads it (PKCS #11 Base 3.0, Object
    /// management functions): CKR_ATTRIBUTE_SENSITIVE for a value that may not be revealed,
    /// CKR_ATTRIBUTE_TYPE_INVALID for an attribute that the object doesn't have.
    pub fn readable(&self, kind: u64) -> Result<Field, RvError>
        ensures value { IfOk result (λ field.
            readable_value self.now kind ≡ Some (field_bytes field)) }
        ensures error { result_err result ≡ read_error self.now kind }
    {
        error_if(self.is_hidden(kind), RvError::AttributeSensitive)?;
        self.field(kind).ok_or(RvError::AttributeTypeInvalid)
    }

    /// The state of a key, or `None` for a data object.
    pub fn key_state(&self) -> Option<KeyState>
        ensures { result ≡ state_in self.now }
    {
        match &self.object {
            Object::Data(_) => None,
            Object::Key(key) => Some(key.state),
        }
    }

    /// Gives a key this state, also where `KeyState::may_become` forbids it. A data object has no
    /// state and stays as it is.
    pub fn set_state(&mut self, state: KeyState)
        ensures { self.new ≡ with_state state self.old }
    {
        if let Object::Key(key) = &mut self.object {
            key.state = state;
        }
    }

    /// The attribute of this type, where the object has it. Whether it may be read isn't asked.
    fn field(&self, kind: u64) -> Option<Field>
        ensures { option_map field_bytes result ≡ value_at self.now kind }
    {
        match (&self.object, Attribute::of(kind)) {
            (_, None) => None,
            (Object::Data(data), Some(attribute)) => data.field(attribute),
            (Object::Key(key), Some(attribute)) => key.field(attribute),
        }
    }
}
