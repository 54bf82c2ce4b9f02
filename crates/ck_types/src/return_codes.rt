ghost use Rattle.std.specs.Prelude.{◌≡◌, Some, IfSome};

use crate::errors::RvError;
use std::fmt;

/// A return code of the token (CK_RV; PKCS #11 Base 3.0, Function return values).
#[derive(Clone, Copy, Debug, PartialEq, Eq)]
pub enum Rv {
    Ok,
    Error(RvError),
}

impl Rv {
    ghost use Rattle.ck_types.specs.ReturnCodes.{number_of, code_of};
    ghost use Rattle.ck_types.specs.declared.return_codes.Rv.{Rv};

    /// The number that the standard gives the code.
    pub fn number(&self) -> u64
        ensures { result ≡ number_of self.now }
    {
        match self {
            Rv::Ok => 0,
            Rv::Error(error) => error.number(),
        }
    }

    /// The code with this number, or `None` where the token has no such code.
    pub fn of(number: u64) -> Option<Rv>
        ensures code { result ≡ code_of number }
        ensures number { IfSome result (λ code. number_of code ≡ number) }
        ensures known { (code : Rv) → number_of code ≡ number → result ≡ Some code }
    {
        match number {
            0 => Some(Rv::Ok),
            _ => RvError::of(number).map(Rv::Error),
        }
    }
}

impl From<RvError> for Rv {
    ghost use Rattle.ck_types.specs.declared.return_codes.Rv.TheVariants as rv;

    ghost from_gives = { λ error made. made ≡ rv.Error error };

    fn from(error: RvError) -> Rv {
        Rv::Error(error)
    }
}

impl fmt::Display for Rv {
    fn fmt<W: fmt::Write>(&self, f: &mut fmt::Formatter<W>) -> fmt::Result {
        match self {
            Rv::Ok => write!(f, "CKR_OK"),
            Rv::Error(error) => write!(f, "{error}"),
        }
    }
}
