ghost use Rattle.std.specs.Prelude.{◌≡◌, ◌≢◌, ◌==◌, ◌<◌, ◌&&◌, ℕ, [], None, IfOk, not, unwrap_or};
ghost use Rattle.std.specs.Prelude.{false, is_none, length, position, option_map, Some, IfSome};
ghost use Rattle.std.specs.Int.{w64, from_le_bytes};
ghost use Rattle.std.specs.List.{list_any};
ghost use Rattle.std.specs.Option.{option_copied, option_map_or};
ghost use Rattle.ck_types.specs.Numbers.{same_bytes, number_bytes};
ghost use Rattle.ck_objects.specs.Attributes.{type_of, form_of, flag_bytes};
ghost use Rattle.ck_types.specs.Checks.{check_of, first_error};
ghost use Rattle.ck_objects.specs.Templates.{value_at, value_or, flag_at};
ghost use Rattle.ck_objects.specs.Templates.{has_conflict, class_of, gives_other_class, form_error};
ghost use Rattle.ck_objects.specs.Templates.{permission_error};
ghost use Rattle.ck_objects.specs.Structs.{has_two_values};
ghost use Rattle.ck_objects.specs.Records.{is_key_class};
ghost use Rattle.ck_objects.specs.KeyStates.{state_number};
ghost use Rattle.ck_objects.specs.declared.attributes.Attribute.TheVariants as attribute;
ghost use Rattle.ck_objects.specs.declared.attributes.Class.TheVariants as class;
ghost use Rattle.ck_objects.specs.declared.items.Item.{Item};
ghost use Rattle.ck_objects.specs.declared.forms.Form.TheVariants as form;

use crate::attribute_values::AttributeValue;
use crate::attributes::{Attribute, Class, Purpose};
use crate::forms::{SECRET_KEY, is_number};
use crate::key_states::KeyState;
use ck_types::{NoMemory, RvError, error_if, number_from_bytes};
use std::alloc::Global;
use std::mem;

/// One attribute of a template or of an object (CK_ATTRIBUTE; PKCS #11 Base 3.0, Object types): its
/// type and the bytes of its value.
#[derive(Clone, Drop)]
pub struct Item {
    /// The attribute's type (CK_ATTRIBUTE_TYPE), known to the token or not.
    pub kind: u64,
    pub value: AttributeValue,
}

impl Item {
    /// CKR_ATTRIBUTE_TYPE_INVALID for a type that the token doesn't know,
    /// CKR_ATTRIBUTE_VALUE_INVALID for a value that isn't of the type's form.
    fn check_form(&self) -> Result<(), RvError>
        ensures { result ≡ check_of (form_error self.now) }
    {
        let attribute = Attribute::of(self.kind).ok_or(RvError::AttributeTypeInvalid)?;
        let is_of_form = attribute.form().admits(self.value.as_slice());
        error_if(!is_of_form, RvError::AttributeValueInvalid)
    }

    /// CKR_ATTRIBUTE_TYPE_INVALID for an attribute that objects of the class don't have,
    /// CKR_ATTRIBUTE_READ_ONLY for one that a template of this purpose may not give.
    fn check_permission(&self, class: Class, purpose: Purpose) -> Result<(), RvError>
        ensures { result ≡ check_of (permission_error class purpose self.now) }
    {
        let attribute = Attribute::of(self.kind).ok_or(RvError::AttributeTypeInvalid)?;
        let is_permitted = attribute
            .permission(class, purpose)
            .ok_or(RvError::AttributeTypeInvalid)?;
        error_if(!is_permitted, RvError::AttributeReadOnly)
    }

    /// Whether the item is of the attribute's type and has another value than this one.
    fn differs(&self, attribute: Attribute, value: &AttributeValue) -> bool
        ensures { result ≡ (type_of attribute == self.now.kind)
            && not (same_bytes self.now.value value.now) }
    {
        attribute.number() == self.kind && self.value.as_slice() != value.as_slice()
    }
}

/// Checks the form of each item.
#[tactic(auto, using(ck_types::proofs::CheckLemmas::item_checks))]
pub(crate) fn check_forms(items: &[Item]) -> Result<(), RvError>
    ensures { result ≡ check_of (first_error form_error items.now) }
{
    for item in items {
        item.check_form()?;
    }
    Ok(())
}

/// Checks for each item whether a template of this purpose may give it.
#[tactic(auto, using(ck_types::proofs::CheckLemmas::item_checks))]
pub(crate) fn check_permissions(
    class: Class,
    purpose: Purpose,
    items: &[Item],
) -> Result<(), RvError>
    ensures { result ≡ check_of (first_error (permission_error class purpose) items.now) }
{
    for item in items {
        item.check_permission(class, purpose)?;
    }
    Ok(())
}

/// The value of the first item of the type, or `None` where there is no such item.
pub(crate) fn value_at(items: &[Item], kind: u64) -> Option<&AttributeValue>
    ensures { option_copied result ≡ value_at items.now kind }
{
    let item = items.iter().find(|item| item.kind == kind)?;
    Some(&item.value)
}

/// The position of the first item of the type.
fn position_of(items: &[Item], kind: u64) -> Option<usize>
    ensures within { IfSome result (λ i. i < length items.now) }
    ensures position { result ≡ position (λ (item : Item). item.kind == kind) items.now }
{
    items.iter().position(|item| item.kind == kind)
}

/// Exchanges the field with the value of the first item of the attribute's type, where there is
/// one.
pub(crate) fn take_value(items: &mut [Item], attribute: Attribute, field: &mut AttributeValue)
    ensures value { field.new ≡ value_or items.old (type_of attribute) field.old }
    ensures others { (kind : ℕ) → kind ≢ type_of attribute
        → value_at items.new kind ≡ value_at items.old kind }
{
    // By position: no contract says what becomes of an item that `iter_mut().find` lends.
    if let Some(i) = position_of(items, attribute.number()) {
        mem::swap(&mut items[i].value, field);
    }
}

/// The flag that the items give the attribute, else `other`. In well-formed items it is one byte, 0
/// or 1.
pub(crate) fn flag_or(items: &[Item], attribute: Attribute, other: bool) -> bool
    requires { form_of attribute ≡ form.Flag }
    ensures flag { result ≡ unwrap_or (flag_at items.now attribute) other }
    ensures bytes { first_error form_error items.now ≡ None
        → flag_bytes result ≡ value_or items.now (type_of attribute) (flag_bytes other) }
{
    match value_at(items, attribute.number()) {
        None => other,
        Some(value) => value.as_slice() == [1].as_slice(),
    }
}

/// Copies of the items, whose values then move into the attributes of an object. All memory is
/// taken here, before the first value moves, so the moves can't fail.
pub(crate) fn copied_items(alloc: Global, items: &[Item]) -> Result<Vec<Item>, NoMemory>
    ensures { IfOk result (λ copies. copies.items ≡ items.now) }
{
    Ok(Vec::from_clones(alloc, items)?)
}

/// A copy of the value that the items give the attribute. Where they give none it has no bytes.
pub(crate) fn copied_value(
    alloc: Global,
    items: &[Item],
    attribute: Attribute,
) -> Result<AttributeValue, NoMemory>
    ensures { IfOk result (λ value. value ≡ value_or items.now (type_of attribute) []) }
{
    match value_at(items, attribute.number()) {
        None => Ok(AttributeValue::new(alloc)),
        Some(value) => Ok(value.clone()?),
    }
}

/// The number that the items give the attribute. In well-formed items it is 8 bytes.
pub(crate) fn number_at(items: &[Item], attribute: Attribute) -> Option<u64>
    requires form { form_of attribute ≡ form.Number }
    requires well_formed { first_error form_error items.now ≡ None }
    ensures number { result
        ≡ option_map (from_le_bytes w64) (value_at items.now (type_of attribute)) }
    ensures bytes { IfSome result (λ number.
        value_at items.now (type_of attribute) ≡ Some (number_bytes number)) }
{
    number_from_bytes(value_at(items, attribute.number())?.as_slice())
}

/// The key state that the items give, else `other`. In well-formed items it is pre-activation (0)
/// or active (1).
pub(crate) fn state_or(items: &[Item], other: KeyState) -> KeyState
    requires well_formed { first_error form_error items.now ≡ None }
    ensures { number_bytes (state_number result)
        ≡ value_or items.now (type_of attribute.KeyState) (number_bytes (state_number other)) }
{
    match value_at(items, Attribute::KeyState.number()) {
        None => other,
        Some(value) => {
            if is_number(value.as_slice(), KeyState::PreActivation.number()) {
                KeyState::PreActivation
            } else {
                KeyState::Active
            }
        }
    }
}

/// The class that the items give, or `None` where they give none.
pub(crate) fn given_class(items: &[Item]) -> Option<Class>
    ensures class { unwrap_or result class.Data ≡ class_of items.now }
    ensures missing { is_none result ≡ is_none (value_at items.now (type_of attribute.Class)) }
    ensures other { option_map_or (λ c. not (is_key_class c)) result false
        ≡ gives_other_class items.now }
{
    let value = value_at(items, Attribute::Class.number())?;
    if is_number(value.as_slice(), SECRET_KEY) {
        Some(Class::SecretKey)
    } else {
        Some(Class::Data)
    }
}

/// The class of an object with these attributes; where they give none, that of data objects.
pub(crate) fn class_of(items: &[Item]) -> Class
    ensures { result ≡ class_of items.now }
{
    given_class(items).unwrap_or(Class::Data)
}

/// Whether items of the attribute's type have different values.
#[tactic(auto, using(crate::proofs::ConflictLemmas::not_given))]
fn has_two_values(items: &[Item], attribute: Attribute) -> bool
    ensures { result ≡ has_two_values items.now attribute }
{
    match value_at(items, attribute.number()) {
        None => false,
        Some(first) => items.iter().any(|item| item.differs(attribute, first)),
    }
}

/// Whether the item has another value than the first item of its type.
fn differs_from_first(items: &[Item], item: &Item) -> bool
    ensures { result
        ≡ not (same_bytes item.now.value (value_or items.now item.now.kind item.now.value)) }
{
    let first = value_at(items, item.kind).unwrap_or(&item.value);
    item.value.as_slice() != first.as_slice()
}

/// Whether items of one of the attributes' types have different values.
// A function of its own, since the proof of `has_conflict_of_many` goes by its clause.
fn has_conflict_in(attributes: &[Attribute], items: &[Item]) -> bool
    ensures { result ≡ list_any (has_two_values items.now) attributes.now }
{
    attributes
        .iter()
        .any(|attribute| has_two_values(items, *attribute))
}

/// Whether two items of one type have different values, with at most two walks over the items for
/// each attribute.
fn has_conflict_of_many(items: &[Item]) -> bool
    requires well_formed { first_error form_error items.now ≡ None }
    ensures { result ≡ has_conflict items.now }
{
    has_conflict_in(&Attribute::ALL, items)
}

/// Whether two items of one type have different values. Each of a few items is compared with the
/// first of its type, which would take far too long for many.
pub(crate) fn has_conflict(items: &[Item]) -> bool
    requires well_formed { first_error form_error items.now ≡ None }
    ensures { result ≡ has_conflict items.now }
{
    if items.len() <= Attribute::ALL.len() {
        items.iter().any(|item| differs_from_first(items, item))
    } else {
        has_conflict_of_many(items)
    }
}
