ghost use Rattle.std.specs.Prelude.{◌≡◌, Some, IfSome};
ghost use Rattle.ck_objects.specs.declared.attributes.Class.TheVariants as class;

use crate::forms::{DATA, Form, SECRET_KEY};

/// An object's class (CK_OBJECT_CLASS; PKCS #11 Base 3.0, Object types): CKO_DATA or
/// CKO_SECRET_KEY.
#[derive(Clone, Copy, Debug, PartialEq, Eq)]
pub enum Class {
    Data,
    SecretKey,
}

impl Class {
    ghost use Rattle.ck_objects.specs.Attributes.{class_number};
    ghost use Rattle.ck_objects.specs.Records.{is_key_class};

    /// The number of the class, as templates and objects have it.
    pub(crate) fn number(self) -> u64
        ensures { result ≡ class_number self }
    {
        match self {
            Class::Data => DATA,
            Class::SecretKey => SECRET_KEY,
        }
    }

    /// Whether it is a class of keys.
    pub(crate) fn is_key(self) -> bool
        ensures { result ≡ is_key_class self }
    {
        self == Class::SecretKey
    }
}

/// What a template is for: C_CreateObject, C_GenerateKey, C_CopyObject or C_SetAttributeValue.
#[derive(Clone, Copy, Debug, PartialEq, Eq)]
pub(crate) enum Purpose {
    Create,
    Generate,
    Copy,
    Set,
}

/// An attribute that the token knows, with the number of its type (PKCS #11 Base 3.0, Objects;
/// Current Mechanisms 3.0, Generic secret key). `KeyState` is a vendor attribute of this token.
#[derive(Clone, Copy, Debug, PartialEq, Eq)]
pub enum Attribute {
    Class = 0x0,
    Token = 0x1,
    Private = 0x2,
    Label = 0x3,
    Application = 0x10,
    Value = 0x11,
    ObjectId = 0x12,
    KeyType = 0x100,
    Id = 0x102,
    Sensitive = 0x103,
    Encrypt = 0x104,
    Decrypt = 0x105,
    Wrap = 0x106,
    Unwrap = 0x107,
    Sign = 0x108,
    Verify = 0x10a,
    Derive = 0x10c,
    ValueLen = 0x161,
    Extractable = 0x162,
    Local = 0x163,
    NeverExtractable = 0x164,
    AlwaysSensitive = 0x165,
    KeyGenMechanism = 0x166,
    Modifiable = 0x170,
    Copyable = 0x171,
    Destroyable = 0x172,
    KeyState = 0x8000_0001,
}

impl Attribute {
    ghost use Rattle.ck_objects.specs.Attributes.{type_of, form_of, permission, attribute_of};
    ghost use Rattle.ck_objects.specs.declared.attributes.Attribute.{Attribute};

    /// Every attribute, by ascending type.
    pub(crate) const ALL: [Attribute; 27] = [
        Attribute::Class,
        Attribute::Token,
        Attribute::Private,
        Attribute::Label,
        Attribute::Application,
        Attribute::Value,
        Attribute::ObjectId,
        Attribute::KeyType,
        Attribute::Id,
        Attribute::Sensitive,
        Attribute::Encrypt,
        Attribute::Decrypt,
        Attribute::Wrap,
        Attribute::Unwrap,
        Attribute::Sign,
        Attribute::Verify,
        Attribute::Derive,
        Attribute::ValueLen,
        Attribute::Extractable,
        Attribute::Local,
        Attribute::NeverExtractable,
        Attribute::AlwaysSensitive,
        Attribute::KeyGenMechanism,
        Attribute::Modifiable,
        Attribute::Copyable,
        Attribute::Destroyable,
        Attribute::KeyState,
    ];

    /// The number of the attribute's type (CK_ATTRIBUTE_TYPE).
    pub fn number(self) -> u64
        ensures { result ≡ type_of self }
    {
        self as u64
    }

    /// The attribute of this type, or `None` where the token knows no such type.
    pub fn of(kind: u64) -> Option<Attribute>
        ensures attribute { result ≡ attribute_of kind }
        ensures number { IfSome result (λ a. type_of a ≡ kind) }
        ensures known { (a : Attribute) → type_of a ≡ kind → result ≡ Some a }
    {
        match kind {
            0x0 => Some(Attribute::Class),
            0x1 => Some(Attribute::Token),
            0x2 => Some(Attribute::Private),
            0x3 => Some(Attribute::Label),
            0x10 => Some(Attribute::Application),
            0x11 => Some(Attribute::Value),
            0x12 => Some(Attribute::ObjectId),
            0x100 => Some(Attribute::KeyType),
            0x102 => Some(Attribute::Id),
            0x103 => Some(Attribute::Sensitive),
            0x104 => Some(Attribute::Encrypt),
            0x105 => Some(Attribute::Decrypt),
            0x106 => Some(Attribute::Wrap),
            0x107 => Some(Attribute::Unwrap),
            0x108 => Some(Attribute::Sign),
            0x10a => Some(Attribute::Verify),
            0x10c => Some(Attribute::Derive),
            0x161 => Some(Attribute::ValueLen),
            0x162 => Some(Attribute::Extractable),
            0x163 => Some(Attribute::Local),
            0x164 => Some(Attribute::NeverExtractable),
            0x165 => Some(Attribute::AlwaysSensitive),
            0x166 => Some(Attribute::KeyGenMechanism),
            0x170 => Some(Attribute::Modifiable),
            0x171 => Some(Attribute::Copyable),
            0x172 => Some(Attribute::Destroyable),
            0x8000_0001 => Some(Attribute::KeyState),
            _ => None,
        }
    }

    /// The form of the attribute's value.
    pub(crate) fn form(self) -> Form
        ensures { result ≡ form_of self }
    {
        match self {
            Attribute::Class => Form::Class,
            Attribute::KeyType => Form::KeyType,
            Attribute::KeyState => Form::KeyState,
            Attribute::Label
            | Attribute::Application
            | Attribute::Value
            | Attribute::ObjectId
            | Attribute::Id => Form::Bytes,
            Attribute::ValueLen | Attribute::KeyGenMechanism => Form::Number,
            Attribute::Token
            | Attribute::Private
            | Attribute::Sensitive
            | Attribute::Encrypt
            | Attribute::Decrypt
            | Attribute::Wrap
            | Attribute::Unwrap
            | Attribute::Sign
            | Attribute::Verify
            | Attribute::Derive
            | Attribute::Extractable
            | Attribute::Local
            | Attribute::NeverExtractable
            | Attribute::AlwaysSensitive
            | Attribute::Modifiable
            | Attribute::Copyable
            | Attribute::Destroyable => Form::Flag,
        }
    }

    /// Whether a template of this purpose may give the attribute to an object of this class, or
    /// `None` where objects of the class don't have it.
    pub(crate) fn permission(self, class: Class, purpose: Purpose) -> Option<bool>
        ensures { result ≡ permission class purpose self }
    {
        match class {
            Class::Data => self.data_permission(purpose),
            Class::SecretKey => self.key_permission(purpose),
        }
    }

    /// As `permission`, for data objects.
    fn data_permission(self, purpose: Purpose) -> Option<bool>
        ensures { result ≡ permission class.Data purpose self }
    {
        match self {
            Attribute::Class => Some(matches!(purpose, Purpose::Create | Purpose::Generate)),
            Attribute::Token
            | Attribute::Private
            | Attribute::Modifiable
            | Attribute::Copyable
            | Attribute::Destroyable => Some(!matches!(purpose, Purpose::Set)),
            Attribute::Label => Some(true),
            Attribute::Application | Attribute::Value | Attribute::ObjectId => {
                Some(!matches!(purpose, Purpose::Generate))
            }
            _ => None,
        }
    }

    /// As `permission`, for keys.
    fn key_permission(self, purpose: Purpose) -> Option<bool>
        ensures { result ≡ permission class.SecretKey purpose self }
    {
        match self {
            Attribute::Class | Attribute::KeyType | Attribute::KeyState => {
                Some(matches!(purpose, Purpose::Create | Purpose::Generate))
            }
            Attribute::Token
            | Attribute::Private
            | Attribute::Modifiable
            | Attribute::Copyable
            | Attribute::Destroyable => Some(!matches!(purpose, Purpose::Set)),
            Attribute::Value => Some(matches!(purpose, Purpose::Create)),
            Attribute::ValueLen => Some(matches!(purpose, Purpose::Generate)),
            Attribute::Local
            | Attribute::NeverExtractable
            | Attribute::AlwaysSensitive
            | Attribute::KeyGenMechanism => Some(false),
            Attribute::Application | Attribute::ObjectId => None,
            _ => Some(true),
        }
    }
}
