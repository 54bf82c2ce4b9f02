ghost use Rattle.std.specs.Prelude.{◌≡◌, Some};

use ck_types::Pin;

/// A user's PIN, and how many wrong tries of it were made since they last went back to 0.
#[derive(Clone, Copy)]
pub struct Credential {
    pub pin: Option<Pin>,
    pub tries: u64,
}

/// The credential of a user who has no PIN and no wrong tries.
pub(crate) const NO_PIN: Credential = Credential {
    pin: None,
    tries: 0,
};

impl Credential {
    /// A PIN with no wrong tries.
    pub(crate) fn new(pin: Pin) -> Credential
        ensures { result ≡ record { pin = Some pin; tries = 0 } }
    {
        Credential {
            pin: Some(pin),
            tries: 0,
        }
    }
}
