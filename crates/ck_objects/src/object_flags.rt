ghost use Rattle.std.specs.Prelude.{◌≡◌, unwrap_or};

use crate::attributes::Attribute;
use crate::items::{Item, flag_or};

/// The attributes of an object that a template may not weaken: CKA_PRIVATE, CKA_SENSITIVE and
/// CKA_EXTRACTABLE, each false where the object doesn't have it.
#[derive(Clone, Copy, Debug, PartialEq, Eq)]
pub(crate) struct Protections {
    pub(crate) private: bool,
    pub(crate) sensitive: bool,
    pub(crate) extractable: bool,
}

/// CKA_TOKEN and CKA_PRIVATE of an object: whether it is a token object or a session object, and
/// whether it is private.
#[derive(Clone, Copy, Debug, PartialEq, Eq)]
pub struct Placement {
    pub token: bool,
    pub private: bool,
}

impl Placement {
    ghost use Rattle.ck_objects.specs.Templates.{flag_at};
    ghost use Rattle.ck_objects.specs.declared.attributes.Attribute.TheVariants as attribute;

    /// The placement with the flags that the items give.
    pub(crate) fn with(self, items: &[Item]) -> Placement
        ensures token { result.token ≡ unwrap_or (flag_at items.now attribute.Token) self.token }
        ensures private { result.private
            ≡ unwrap_or (flag_at items.now attribute.Private) self.private }
    {
        Placement {
            token: flag_or(items, Attribute::Token, self.token),
            private: flag_or(items, Attribute::Private, self.private),
        }
    }
}
