ghost use Rattle.std.specs.Prelude.{◌≡◌, ⊤, ◌∷◌, [], codes};
ghost use Rattle.ck_types.specs.TokenFlagBits.{token_flags, with_flag};

use crate::pins::MOST_TRIES;
use bitflags::{Flag, Flags, bitflag_items};

/// The flags that C_GetTokenInfo gives (CK_TOKEN_INFO; PKCS #11 Base 3.0, Slot and token types).
/// They have the standard's names without CKF_.
#[derive(Clone, Copy, Debug, PartialEq, Eq)]
pub struct TokenFlags(u64);

bitflag_items! {
    impl TokenFlags: u64 {
        const LOGIN_REQUIRED = 0x4;
        const USER_PIN_INITIALIZED = 0x8;
        const TOKEN_INITIALIZED = 0x400;
        const USER_PIN_COUNT_LOW = 0x10000;
        const USER_PIN_FINAL_TRY = 0x20000;
        const USER_PIN_LOCKED = 0x40000;
        const SO_PIN_COUNT_LOW = 0x100000;
        const SO_PIN_FINAL_TRY = 0x200000;
        const SO_PIN_LOCKED = 0x400000;
    }
}

impl Flags for TokenFlags {
    type Bits = u64;

    ghost exact = { ⊤ };

    ghost table = { (codes "LOGIN_REQUIRED", 0x4)
        ∷ (codes "USER_PIN_INITIALIZED", 0x8) ∷ (codes "TOKEN_INITIALIZED", 0x400)
        ∷ (codes "USER_PIN_COUNT_LOW", 0x10000) ∷ (codes "USER_PIN_FINAL_TRY", 0x20000)
        ∷ (codes "USER_PIN_LOCKED", 0x40000) ∷ (codes "SO_PIN_COUNT_LOW", 0x100000)
        ∷ (codes "SO_PIN_FINAL_TRY", 0x200000) ∷ (codes "SO_PIN_LOCKED", 0x400000) ∷ [] };

    ghost set_of = { λ f. f.0 };

    fn flags<'a>() -> &'a [Flag<TokenFlags>] {
        TokenFlags::FLAGS
    }

    fn bits(&self) -> u64 {
        self.0
    }

    fn from_bits_retain(bits: u64) -> TokenFlags {
        TokenFlags(bits)
    }
}

impl TokenFlags {
    /// The flags of a token. A login is always required. The tries are the wrong tries (0 to 3) of
    /// the user's and of the security officer's PIN: from 1 on the count is low, 2 leave a final
    /// try, and 3 lock the PIN.
    pub fn of(
        is_initialized: bool,
        has_user_pin: bool,
        user_tries: u64,
        so_tries: u64,
    ) -> TokenFlags
        ensures { result.0 ≡ token_flags is_initialized has_user_pin user_tries so_tries }
    {
        TokenFlags::LOGIN_REQUIRED
            .with(has_user_pin, TokenFlags::USER_PIN_INITIALIZED)
            .with(is_initialized, TokenFlags::TOKEN_INITIALIZED)
            .with(user_tries >= 1, TokenFlags::USER_PIN_COUNT_LOW)
            .with(user_tries == MOST_TRIES - 1, TokenFlags::USER_PIN_FINAL_TRY)
            .with(user_tries == MOST_TRIES, TokenFlags::USER_PIN_LOCKED)
            .with(so_tries >= 1, TokenFlags::SO_PIN_COUNT_LOW)
            .with(so_tries == MOST_TRIES - 1, TokenFlags::SO_PIN_FINAL_TRY)
            .with(so_tries == MOST_TRIES, TokenFlags::SO_PIN_LOCKED)
    }

    /// The flags as one number (CK_FLAGS).
    pub fn number(&self) -> u64
        ensures { result ≡ self.now.0 }
    {
        self.bits()
    }

    /// These flags, with another one where `holds` is true.
    fn with(self, holds: bool, flag: TokenFlags) -> TokenFlags
        ensures { result.0 ≡ with_flag holds flag.0 self.0 }
    {
        if holds { self.union(flag) } else { self }
    }
}
