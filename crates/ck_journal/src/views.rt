ghost use Rattle.std.specs.Prelude.{◌≡◌, ◌<◌, ◌^◌};
ghost use Rattle.ck_journal.specs.Objects.{handle_with};
ghost use Rattle.ck_journal.specs.Searches.{number_of_handle};

use ck_objects::{Attribute, Record};

/// What each login of the normal user adds to the handles of private objects.
const HANDLES_PER_LOGIN: u64 = 0x1_0000_0000;

/// The number of the object that has this handle (`View::handle`): the handle modulo 2^32.
pub fn number_of_handle(handle: u64) -> u64
    ensures { result ≡ number_of_handle handle }
{
    handle % HANDLES_PER_LOGIN
}

/// What handles depend on apart from the objects: whether the normal user is logged in, and how
/// many times the user has logged in so far.
#[derive(Clone, Copy, Debug, PartialEq, Eq)]
pub struct View {
    pub is_user_in: bool,
    pub logins: u64,
}

impl View {
    /// The handle of an object with these attributes and this number: its number, and for a private
    /// object 2^32 more for each login of the normal user.
    pub fn handle(self, attributes: &Record, number: u64) -> u64
        requires number { number < 2 ^ 32 }
        requires logins { self.logins < 2 ^ 31 }
        ensures { result ≡ handle_with self attributes.now number }
    {
        if attributes.is_set(Attribute::Private) {
            number + HANDLES_PER_LOGIN * self.logins
        } else {
            number
        }
    }
}
