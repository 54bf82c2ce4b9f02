ghost use Rattle.std.specs.Prelude.{◌≡◌};
ghost use Rattle.ck_types.specs.Checks.{check_of};
ghost use Rattle.ck_journal.specs.Answers.{parameter_error};

use ck_types::{Mechanism, RvError, error_if};

/// CKR_MECHANISM_PARAM_INVALID (71) where the mechanism has a parameter.
pub(super) fn check_no_parameter(mechanism: &Mechanism) -> Result<(), RvError>
    ensures { result ≡ check_of (parameter_error mechanism.now) }
{
    let has_parameter = !mechanism.parameter.as_slice().is_empty();
    error_if(has_parameter, RvError::MechanismParamInvalid)
}
