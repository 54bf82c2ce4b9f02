ghost use Rattle.std.specs.Prelude.{◌≡◌, ◌==◌, ◌∷◌, [], None, not, is_none, length};
ghost use Rattle.ck_objects.specs.Attributes.{type_of};
ghost use Rattle.ck_types.specs.Checks.{check_of, first_error, first_of, error_if};
ghost use Rattle.ck_objects.specs.Templates.{form_error, gives_other_class, is_key_length};
ghost use Rattle.ck_objects.specs.Templates.{new_key_error, new_object_error, given_length};
ghost use Rattle.ck_objects.specs.Templates.{value_at};
ghost use Rattle.ck_objects.specs.declared.attributes.Attribute.TheVariants as attribute;
ghost use Rattle.ck_types.specs.declared.errors.RvError.TheVariants as rv_error;

use crate::attributes::{Attribute, Class, Purpose};
use crate::items::{
    Item, check_forms, check_permissions, class_of, flag_or, given_class, has_conflict, number_at,
    value_at,
};
use crate::object_flags::{Placement, Protections};
use ck_types::{RvError, Sequence, error_if};

/// The attributes that a caller gives, in the caller's order (PKCS #11 Base 3.0, Object management
/// functions).
#[derive(Clone, Drop)]
pub struct Template {
    pub items: Sequence<Item>,
}

impl Template {
    ghost use Rattle.std.specs.Prelude.{ℕ, List};
    ghost use Rattle.ck_objects.specs.Templates.{created_error, generated_error, template_error};
    ghost use Rattle.ck_objects.specs.Records.{created_items, generated_items, placement_of};
    ghost use Rattle.ck_objects.specs.Records.{exposes_key, makes_public};

    /// The checks of a template of C_CreateObject (PKCS #11 Base 3.0, Object management functions).
    /// The first that fails gives the code: a type that the token doesn't know
    /// (CKR_ATTRIBUTE_TYPE_INVALID) or a value that isn't of its form
    /// (CKR_ATTRIBUTE_VALUE_INVALID), item by item; two different values of one type
    /// (CKR_TEMPLATE_INCONSISTENT); no class (CKR_TEMPLATE_INCOMPLETE); an attribute that the class
    /// doesn't have (CKR_ATTRIBUTE_TYPE_INVALID) or that may not be given
    /// (CKR_ATTRIBUTE_READ_ONLY), item by item; for a key no key type or no value
    /// (CKR_TEMPLATE_INCOMPLETE), or a value of 0 bytes or of more than 4096
    /// (CKR_ATTRIBUTE_VALUE_INVALID).
    #[tactic(auto, using(ck_types::proofs::CheckLemmas::checks))]
    pub fn check_creation(&self) -> Result<(), RvError>
        ensures { result ≡ check_of (created_error self.now.items) }
    {
        let items = self.items.as_slice();
        check_forms(items)?;
        error_if(has_conflict(items), RvError::TemplateInconsistent)?;
        let class = given_class(items).ok_or(RvError::TemplateIncomplete)?;
        check_permissions(class, Purpose::Create, items)?;
        check_new_object(class, items)
    }

    /// CKA_TOKEN and CKA_PRIVATE of the object that the template creates.
    pub fn creation_placement(&self) -> Placement
        ensures { result ≡ placement_of (created_items self.now.items) }
    {
        let items = self.items.as_slice();
        let placement = Placement {
            token: false,
            private: class_of(items).is_key(),
        };
        placement.with(items)
    }

    /// The checks of a template of C_GenerateKey (PKCS #11 Base 3.0, Key management functions) and
    /// of the random bytes that are the key's value. The first that fails gives the code: types and
    /// values as in `check_creation`; two different values of one type, or another class than that
    /// of secret keys (CKR_TEMPLATE_INCONSISTENT); an attribute that keys don't have
    /// (CKR_ATTRIBUTE_TYPE_INVALID) or that may not be given (CKR_ATTRIBUTE_READ_ONLY), item by
    /// item; no CKA_VALUE_LEN (CKR_TEMPLATE_INCOMPLETE), or one of 0 or more than 4096
    /// (CKR_KEY_SIZE_RANGE); another number of random bytes than CKA_VALUE_LEN (CKR_ARGUMENTS_BAD).
    #[tactic(auto, using(ck_types::proofs::CheckLemmas::checks))]
    pub fn check_generation(&self, random: &[u8]) -> Result<(), RvError>
        ensures { result ≡ check_of (generated_error self.now.items random.now) }
    {
        let items = self.items.as_slice();
        check_forms(items)?;
        error_if(has_conflict(items), RvError::TemplateInconsistent)?;
        error_if(gives_other_class(items), RvError::TemplateInconsistent)?;
        check_permissions(Class::SecretKey, Purpose::Generate, items)?;
        check_given_length(items, random)
    }

    /// CKA_TOKEN and CKA_PRIVATE of the key that is generated with the template.
    pub fn generation_placement(&self) -> Placement
        ensures { (random : List ℕ)
            → result ≡ placement_of (generated_items self.now.items random) }
    {
        let placement = Placement {
            token: false,
            private: true,
        };
        placement.with(self.items.as_slice())
    }

    /// The checks of a template that changes or copies an object of the class, except those that
    /// look at more of the object than its class.
    pub(crate) fn check(&self, class: Class, purpose: Purpose) -> Result<(), RvError>
        ensures { result ≡ check_of (template_error class purpose self.now.items) }
    {
        let items = self.items.as_slice();
        check_forms(items)?;
        error_if(has_conflict(items), RvError::TemplateInconsistent)?;
        check_permissions(class, purpose, items)
    }

    /// Whether the template exposes a key: CKA_SENSITIVE false for a sensitive key, or
    /// CKA_EXTRACTABLE true for one that isn't extractable.
    pub(crate) fn exposes_key(&self, protections: Protections) -> bool
        ensures { result ≡ exposes_key protections self.now.items }
    {
        let items = self.items.as_slice();
        (protections.sensitive && !flag_or(items, Attribute::Sensitive, true))
            || (!protections.extractable && flag_or(items, Attribute::Extractable, false))
    }

    /// Whether the template makes a private object public.
    pub(crate) fn makes_public(&self, protections: Protections) -> bool
        ensures { result ≡ makes_public protections self.now.items }
    {
        protections.private && !flag_or(self.items.as_slice(), Attribute::Private, true)
    }
}

/// The most bytes that a key's value may have: a limit of this token.
const LONGEST_KEY: u64 = 4096;

/// Whether a key's value may have this many bytes.
fn is_key_length(length: u64) -> bool
    ensures { result ≡ is_key_length length }
{
    (1..=LONGEST_KEY).contains(&length)
}

/// Checks that a template gives what a new object of the class must be given.
fn check_new_object(class: Class, items: &[Item]) -> Result<(), RvError>
    ensures { result ≡ check_of (new_object_error class items.now) }
{
    match class {
        Class::Data => Ok(()),
        Class::SecretKey => check_new_key(items),
    }
}

/// Checks that the items give a key type, and a value of a length that a key may have.
#[tactic(auto, using(ck_types::proofs::CheckLemmas::checks))]
fn check_new_key(items: &[Item]) -> Result<(), RvError>
    ensures { result ≡ check_of (new_key_error items.now) }
{
    let is_missing = value_at(items, Attribute::KeyType.number()).is_none();
    error_if(is_missing, RvError::TemplateIncomplete)?;
    let value = value_at(items, Attribute::Value.number()).ok_or(RvError::TemplateIncomplete)?;
    let length = value.as_slice().len() as u64;
    error_if(!is_key_length(length), RvError::AttributeValueInvalid)
}

/// Whether the items give another class than that of secret keys.
fn gives_other_class(items: &[Item]) -> bool
    ensures { result ≡ gives_other_class items.now }
{
    given_class(items) == Some(Class::Data)
}

/// The checks of the length that the items give a key, and of the random bytes.
#[tactic(auto, using(ck_types::proofs::CheckLemmas::checks))]
fn check_given_length(items: &[Item], random: &[u8]) -> Result<(), RvError>
    requires { first_error form_error items.now ≡ None }
    ensures { result ≡ check_of (first_of (
        error_if (is_none (value_at items.now (type_of attribute.ValueLen)))
        rv_error.TemplateIncomplete
        ∷ error_if (not (is_key_length (given_length items.now))) rv_error.KeySizeRange
        ∷ error_if (not (length random.now == given_length items.now)) rv_error.ArgumentsBad
        ∷ [])) }
{
    let length = number_at(items, Attribute::ValueLen).ok_or(RvError::TemplateIncomplete)?;
    error_if(!is_key_length(length), RvError::KeySizeRange)?;
    error_if(random.len() as u64 != length, RvError::ArgumentsBad)
}
