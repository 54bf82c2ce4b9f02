ghost use Rattle.std.specs.Prelude.{◌≡◌, Some, IfSome};

/// The state of a key (NIST SP 800-57 Part 1 Revision 5, Key states and transitions), with the
/// number that this token gives it.
#[derive(Clone, Copy, Debug, PartialEq, Eq)]
pub enum KeyState {
    PreActivation = 0,
    Active = 1,
    Deactivated = 2,
    Compromised = 3,
    Destroyed = 4,
    Suspended = 5,
}

impl KeyState {
    ghost use Rattle.ck_objects.specs.KeyStates.{state_number, state_of_number, may_become};
    ghost use Rattle.ck_objects.specs.KeyStates.{may_sign, may_verify, is_destroyed};
    ghost use Rattle.ck_objects.specs.declared.key_states.KeyState.{KeyState};

    /// The number of the state, as the key's attribute and a script have it.
    pub fn number(self) -> u64
        ensures { result ≡ state_number self }
    {
        self as u64
    }

    /// The state with this number, or `None` where there is none.
    pub fn of(number: u64) -> Option<KeyState>
        ensures state { result ≡ state_of_number number }
        ensures number { IfSome result (λ state. state_number state ≡ number) }
        ensures known { (state : KeyState) → state_number state ≡ number → result ≡ Some state }
    {
        match number {
            0 => Some(KeyState::PreActivation),
            1 => Some(KeyState::Active),
            2 => Some(KeyState::Deactivated),
            3 => Some(KeyState::Compromised),
            4 => Some(KeyState::Destroyed),
            5 => Some(KeyState::Suspended),
            _ => None,
        }
    }

    /// Whether a key in this state may be taken to the other. No state may become itself.
    pub fn may_become(self, after: KeyState) -> bool
        ensures { result ≡ may_become self after }
    {
        match self {
            KeyState::PreActivation => matches!(
                after,
                KeyState::Active | KeyState::Compromised | KeyState::Destroyed
            ),
            KeyState::Active => matches!(
                after,
                KeyState::Suspended
                    | KeyState::Deactivated
                    | KeyState::Compromised
                    | KeyState::Destroyed
            ),
            KeyState::Suspended => matches!(
                after,
                KeyState::Active
                    | KeyState::Deactivated
                    | KeyState::Compromised
                    | KeyState::Destroyed
            ),
            KeyState::Deactivated => {
                matches!(after, KeyState::Compromised | KeyState::Destroyed)
            }
            KeyState::Compromised => matches!(after, KeyState::Destroyed),
            KeyState::Destroyed => false,
        }
    }

    /// Whether a key in this state may sign.
    pub fn may_sign(self) -> bool
        ensures { result ≡ may_sign self }
    {
        matches!(self, KeyState::Active)
    }

    /// Whether a key in this state may verify.
    pub fn may_verify(self) -> bool
        ensures { result ≡ may_verify self }
    {
        matches!(
            self,
            KeyState::Active | KeyState::Suspended | KeyState::Deactivated
        )
    }

    /// Whether the state is that of a destroyed key.
    pub(crate) fn is_destroyed(self) -> bool
        ensures { result ≡ is_destroyed self }
    {
        self == KeyState::Destroyed
    }
}
