ghost use Rattle.std.specs.Prelude.{◌≡◌};
ghost use Rattle.ck_types.specs.Checks.{check_of, error_if};

use crate::errors::RvError;

/// Fails with the error where the test is true.
pub fn error_if(test: bool, error: RvError) -> Result<(), RvError>
    ensures { result ≡ check_of (error_if test error) }
{
    if test { Err(error) } else { Ok(()) }
}
