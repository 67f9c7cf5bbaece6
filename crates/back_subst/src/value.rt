//! Targets: the values that fields are given where the rules allow them.
ghost use Rattle.std.specs.Prelude.{◌≡◌, ◌<◌, IfSome, length, option_copied};
ghost use Rattle.fraction128.specs.Formulas.{ratio_of};
ghost use Rattle.back_subst.specs.Given.{number_in, target_of};

use edit_model::{Row, Value};
use fraction128::Fraction;

/// The number of a value, as a target: 0 where the value is a code or Bad.
pub(crate) fn number_of(value: &Value) -> Fraction
    ensures { ratio_of result ≡ number_in value.now }
{
    match value {
        Value::Number(x) => *x,
        Value::Code(_) | Value::Bad => Fraction::whole(0),
    }
}

/// The target at the field: the donor's value, and Bad where there is no donor. As a target, Bad stands for
/// 0 or the first code.
pub(crate) fn target_of(donor: Option<&Row>, field: u32) -> Value
    requires { IfSome (option_copied donor) (λ row. field < length row) }
    ensures { result ≡ target_of (option_copied donor.entry) field }
{
    match donor {
        Some(row) => *row.value(field),
        None => Value::Bad,
    }
}
