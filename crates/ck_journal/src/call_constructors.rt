ghost use Rattle.std.specs.Prelude.{◌≡◌, Some};
ghost use Rattle.ck_types.specs.Users.{user_of};
ghost use Rattle.ck_journal.specs.declared.calls.Call.TheVariants as call;

use crate::calls::Call;
use ck_types::{Bytes, Mechanism, Pin, UserType};

/// Constructors of calls for programs.
impl Call {
    ghost use Rattle.std.specs.Prelude.{ℕ};

    /// C_Login of this user.
    pub fn login(session: u64, user: UserType, pin: Pin) -> Call
        ensures { (number : ℕ) → user_of number ≡ Some user
            → result ≡ call.Login session number pin }
    {
        Call::Login {
            session,
            user: user.number(),
            pin,
        }
    }

    /// C_SignInit with this mechanism and key.
    pub fn sign_init(session: u64, mechanism: Mechanism, key: u64) -> Call
        ensures { result ≡ call.SignInit session mechanism key }
    {
        Call::SignInit {
            session,
            mechanism,
            key,
        }
    }

    /// C_Sign of a single-part message, with room for a signature of `room` bytes.
    pub fn sign(session: u64, bytes: Bytes, room: u64) -> Call
        ensures { result ≡ call.Sign session bytes (Some room) }
    {
        Call::Sign {
            session,
            bytes,
            room: Some(room),
        }
    }
}
