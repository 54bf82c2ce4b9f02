use crate::attribute_values::AttributeValue;
use crate::attributes::Attribute;
use crate::fields::Field;
use crate::forms::{GENERIC_SECRET, SECRET_KEY};
use crate::items::{Item, copied_items, copied_value, flag_or, number_at, state_or, take_value};
use crate::key_states::KeyState;
use crate::object_flags::Placement;
use ck_types::{GENERIC_SECRET_KEY_GEN, NoMemory};
use std::alloc::{AllocError, Global};

/// CK_UNAVAILABLE_INFORMATION: all ones, what stands for a number that isn't known.
const UNAVAILABLE_INFORMATION: u64 = u64::MAX;

/// How a key came to be: the attributes that no template may give. A copy has those of its source.
#[derive(Clone, Copy)]
pub(crate) struct Origin {
    local: bool,
    never_extractable: bool,
    always_sensitive: bool,
    /// The mechanism that generated the key (CKA_KEY_GEN_MECHANISM), else
    /// CK_UNAVAILABLE_INFORMATION.
    generation: u64,
}

/// A generic secret key (PKCS #11 Current Mechanisms 3.0, Generic secret key objects). Its class,
/// its key type and the length of its value are no fields. The fields that most calls read stand
/// first, as in a data object.
#[derive(Drop)]
pub(crate) struct Key {
    label: AttributeValue,
    token: bool,
    private: bool,
    modifiable: bool,
    copyable: bool,
    destroyable: bool,
    sensitive: bool,
    extractable: bool,
    pub(crate) state: KeyState,
    pub(crate) value: AttributeValue,
    id: AttributeValue,
    encrypt: bool,
    decrypt: bool,
    wrap: bool,
    unwrap: bool,
    sign: bool,
    verify: bool,
    derive: bool,
    origin: Origin,
}

// Not derived: with this many fields, proving a derived clone takes about six minutes, more than
// the rest of the crate.
impl Clone for Key {
    ghost use Rattle.std.specs.Prelude.{◌≡◌};

    ghost is_clone = { λ key copy. copy ≡ key };

    fn clone(&self) -> Result<Key, AllocError> {
        Ok(Key {
            label: self.label.clone()?,
            token: self.token,
            private: self.private,
            modifiable: self.modifiable,
            copyable: self.copyable,
            destroyable: self.destroyable,
            sensitive: self.sensitive,
            extractable: self.extractable,
            state: self.state,
            value: self.value.clone()?,
            id: self.id.clone()?,
            encrypt: self.encrypt,
            decrypt: self.decrypt,
            wrap: self.wrap,
            unwrap: self.unwrap,
            sign: self.sign,
            verify: self.verify,
            derive: self.derive,
            origin: self.origin,
        })
    }
}

impl Key {
    ghost use Rattle.std.specs.Prelude.{◌≡◌, None, IfOk, option_map};
    ghost use Rattle.ck_objects.specs.Attributes.{type_of};
    ghost use Rattle.ck_types.specs.Checks.{first_error};
    ghost use Rattle.ck_objects.specs.Templates.{value_at, flag_at, form_error, class_of};
    ghost use Rattle.ck_objects.specs.Templates.{created_error, generated_error};
    ghost use Rattle.ck_objects.specs.Records.{placement_of, is_revealable, with_given};
    ghost use Rattle.ck_objects.specs.Records.{created_items, generated_items, is_set};
    ghost use Rattle.ck_objects.specs.Structs.{key_items, blank_key, KeepsKey, changed_key};
    ghost use Rattle.ck_objects.specs.Fields.{field_bytes, flag_field};
    ghost use Rattle.ck_objects.specs.declared.attributes.Class.TheVariants as class;

    /// The key that a template creates, with a copy of the value that the template gives.
    pub(crate) fn created(alloc: Global, items: &[Item]) -> Result<Key, NoMemory>
        requires class { class_of items.now ≡ class.SecretKey }
        requires passes { created_error items.now ≡ None }
        ensures { IfOk result (λ made. key_items made ≡ created_items items.now) }
    {
        let origin = Origin {
            local: false,
            never_extractable: false,
            always_sensitive: false,
            generation: UNAVAILABLE_INFORMATION,
        };
        let value = copied_value(alloc, items, Attribute::Value)?;
        Key::new(alloc, origin, items, value)
    }

    /// The key that is generated with a template from random bytes.
    pub(crate) fn generated(alloc: Global, items: &[Item], random: &[u8]) -> Result<Key, NoMemory>
        requires { generated_error items.now random.now ≡ None }
        ensures { IfOk result (λ made. key_items made ≡ generated_items items.now random.now) }
    {
        // Tells the prover that the value is as long as the template says.
        prove!(number_at(items, Attribute::ValueLen) == Some(random.len() as u64));
        let origin = Origin {
            local: true,
            never_extractable: !flag_or(items, Attribute::Extractable, true),
            always_sensitive: flag_or(items, Attribute::Sensitive, false),
            generation: GENERIC_SECRET_KEY_GEN,
        };
        let value = AttributeValue::from_slice(alloc, random)?;
        Key::new(alloc, origin, items, value)
    }

    /// A key with the defaults of the table in specs/Attributes.antt and a value of no bytes. It
    /// takes no memory.
    fn blank(alloc: Global, origin: Origin) -> Key
        ensures { result ≡ blank_key origin }
    {
        Key {
            token: false,
            private: true,
            label: AttributeValue::new(alloc),
            value: AttributeValue::new(alloc),
            id: AttributeValue::new(alloc),
            sensitive: false,
            encrypt: false,
            decrypt: false,
            wrap: false,
            unwrap: false,
            sign: true,
            verify: true,
            derive: false,
            extractable: true,
            origin,
            modifiable: true,
            copyable: true,
            destroyable: true,
            state: KeyState::Active,
        }
    }

    /// A new key with this value, and with the values of the other attributes that the items give.
    fn new(
        alloc: Global,
        origin: Origin,
        items: &[Item],
        value: AttributeValue,
    ) -> Result<Key, NoMemory>
        requires well_formed { first_error form_error items.now ≡ None }
        requires keeps { KeepsKey items.now (record (blank_key origin) { value = value }) }
        ensures { IfOk result (λ made. key_items made
            ≡ with_given items.now (key_items (record (blank_key origin) { value = value }))) }
    {
        let mut values = copied_items(alloc, items)?;
        let mut key = Key {
            value,
            ..Key::blank(alloc, origin)
        };
        key.set(&mut values);
        Ok(key)
    }

    /// Gives the key the values of the attributes that the items give. Values of bytes are
    /// exchanged, so the items get what the key had.
    pub(crate) fn set(&mut self, items: &mut [Item])
        requires well_formed { first_error form_error items.old ≡ None }
        requires keeps { KeepsKey items.old self.old }
        ensures { key_items self.new ≡ with_given items.old (key_items self.old) }
    {
        self.token = flag_or(items, Attribute::Token, self.token);
        self.private = flag_or(items, Attribute::Private, self.private);
        self.modifiable = flag_or(items, Attribute::Modifiable, self.modifiable);
        self.copyable = flag_or(items, Attribute::Copyable, self.copyable);
        self.destroyable = flag_or(items, Attribute::Destroyable, self.destroyable);
        self.state = state_or(items, self.state);
        self.change(items);
    }

    /// As `set`, but only for the attributes that a change may give.
    pub(crate) fn change(&mut self, items: &mut [Item])
        ensures { self.new ≡ changed_key items.old self.old }
    {
        self.sensitive = flag_or(items, Attribute::Sensitive, self.sensitive);
        self.encrypt = flag_or(items, Attribute::Encrypt, self.encrypt);
        self.decrypt = flag_or(items, Attribute::Decrypt, self.decrypt);
        self.wrap = flag_or(items, Attribute::Wrap, self.wrap);
        self.unwrap = flag_or(items, Attribute::Unwrap, self.unwrap);
        self.sign = flag_or(items, Attribute::Sign, self.sign);
        self.verify = flag_or(items, Attribute::Verify, self.verify);
        self.derive = flag_or(items, Attribute::Derive, self.derive);
        self.extractable = flag_or(items, Attribute::Extractable, self.extractable);
        take_value(items, Attribute::Label, &mut self.label);
        take_value(items, Attribute::Id, &mut self.id);
    }

    /// The value of an attribute, or `None` where keys don't have it.
    #[tactic(auto, using(crate::proofs::FlagLemmas::flags))]
    pub(crate) fn field(&self, attribute: Attribute) -> Option<Field>
        ensures value { option_map field_bytes result
            ≡ value_at (key_items self.now) (type_of attribute) }
        ensures flag { flag_field result ≡ flag_at (key_items self.now) attribute }
    {
        match attribute {
            Attribute::Class => Some(Field::Number(SECRET_KEY)),
            Attribute::Token => Some(Field::Flag(self.token)),
            Attribute::Private => Some(Field::Flag(self.private)),
            Attribute::Label => Some(Field::Bytes(&self.label)),
            Attribute::Value => Some(Field::Bytes(&self.value)),
            Attribute::KeyType => Some(Field::Number(GENERIC_SECRET)),
            Attribute::Id => Some(Field::Bytes(&self.id)),
            Attribute::Sensitive => Some(Field::Flag(self.sensitive)),
            Attribute::Encrypt => Some(Field::Flag(self.encrypt)),
            Attribute::Decrypt => Some(Field::Flag(self.decrypt)),
            Attribute::Wrap => Some(Field::Flag(self.wrap)),
            Attribute::Unwrap => Some(Field::Flag(self.unwrap)),
            Attribute::Sign => Some(Field::Flag(self.sign)),
            Attribute::Verify => Some(Field::Flag(self.verify)),
            Attribute::Derive => Some(Field::Flag(self.derive)),
            Attribute::ValueLen => Some(Field::Number(self.value.as_slice().len() as u64)),
            Attribute::Extractable => Some(Field::Flag(self.extractable)),
            Attribute::Local => Some(Field::Flag(self.origin.local)),
            Attribute::NeverExtractable => Some(Field::Flag(self.origin.never_extractable)),
            Attribute::AlwaysSensitive => Some(Field::Flag(self.origin.always_sensitive)),
            Attribute::KeyGenMechanism => Some(Field::Number(self.origin.generation)),
            Attribute::Modifiable => Some(Field::Flag(self.modifiable)),
            Attribute::Copyable => Some(Field::Flag(self.copyable)),
            Attribute::Destroyable => Some(Field::Flag(self.destroyable)),
            Attribute::KeyState => Some(Field::Number(self.state.number())),
            Attribute::Application | Attribute::ObjectId => None,
        }
    }

    /// Whether the key has the flag and it is true.
    pub(crate) fn is_set(&self, flag: Attribute) -> bool
        ensures { result ≡ is_set (key_items self.now) flag }
    {
        matches!(self.field(flag), Some(Field::Flag(true)))
    }

    /// CKA_TOKEN and CKA_PRIVATE of the key.
    pub(crate) fn placement(&self) -> Placement
        ensures { result ≡ placement_of (key_items self.now) }
    {
        Placement {
            token: self.token,
            private: self.private,
        }
    }

    /// Whether the value may be revealed.
    pub(crate) fn is_revealable(&self) -> bool
        ensures { result ≡ is_revealable (key_items self.now) }
    {
        !self.sensitive && self.extractable && !self.state.is_destroyed()
    }
}
