use ck_types::NoMemory;
use thiserror::Error;

/// Why a journal isn't cut. The token is as it was.
#[derive(Clone, Copy, Debug, PartialEq, Eq, Error)]
pub enum Uncut {
    #[error("a session is open")]
    Session,
    #[error("out of memory")]
    Memory,
}

impl From<NoMemory> for Uncut {
    ghost use Rattle.std.specs.Prelude.{◌≡◌};
    ghost use Rattle.ck_token.specs.declared.cuts.Uncut.TheVariants as uncut;

    ghost from_gives = { λ _ made. made ≡ uncut.Memory };

    fn from(_error: NoMemory) -> Uncut {
        Uncut::Memory
    }
}
