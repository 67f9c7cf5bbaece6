//! Numbers in thousandths, rounded down: by these they are put into bins.
ghost use Rattle.std.specs.Prelude.{◌≡◌, ◌+◌, ◌++◌, ◌<ℤ◌, ◌*ℤ◌, ◌≤◌, ◌<◌, ◌^◌, IfOk, IfSome, OnOk, map, pos, unsigned_abs};
ghost use Rattle.std.specs.Int.{int_div_euclid};
ghost use Rattle.page_counts.specs.Thousandths.{decimal_text, digit, digits_behind, rest_text, sign_text, thousandths_at, thousandths_of};

use edit_model::Value;
use foundation::OutOfMemory;
use fraction128::Fraction;
use std::alloc::Global;

// The greatest size of a numerator of which the thousandths are counted.
const MOST_NUMERATOR: u128 = 1_000_000_000_000_000_000_000_000_000_000_000;

/// How many thousandths the number is, rounded down: -1/3 is -334. None where its numerator is above
/// 10^33 in size. No memory.
pub fn thousandths_of(number: &Fraction) -> Option<i128>
    ensures is { result ≡ thousandths_of number.now }
    ensures few { IfSome result (λ thousandths. unsigned_abs thousandths ≤ 10 ^ 36) }
{
    if number.numerator().unsigned_abs() > MOST_NUMERATOR {
        return None;
    }
    Some(floor_quotient(thousand_times(number), number.denominator()))
}

/// How many thousandths each value is, in order. None where it is no number, or its numerator is above 10^33
/// in size.
pub(crate) fn thousandths(alloc: Global, values: &[Value]) -> Result<Vec<Option<i128>>, OutOfMemory>
    ensures { IfOk result (λ thousandths. thousandths.items ≡ map thousandths_at values.now) }
{
    let mut thousandths = Vec::with_capacity(alloc, values.len())?;
    for value in values {
        thousandths.push(thousandths_at(value))?;
    }
    Ok(thousandths)
}

/// How many thousandths the value is; None where it is no number, or its numerator is above 10^33 in size.
pub(crate) fn thousandths_at(value: &Value) -> Option<i128>
    ensures is { result ≡ thousandths_at value.now }
    ensures few { IfSome result (λ thousandths. unsigned_abs thousandths ≤ 10 ^ 36) }
{
    match value {
        Value::Number(number) => thousandths_of(number),
        Value::Code(_) | Value::Bad => None,
    }
}

// A thousand times the numerator, which stays in 128 bits.
fn thousand_times(number: &Fraction) -> i128
    requires { unsigned_abs number.now.numerator ≤ 10 ^ 33 }
    ensures product { result ≡ pos 1000 *ℤ number.now.numerator }
    ensures few { unsigned_abs result ≤ 10 ^ 36 }
{
    1000 * number.numerator()
}

/// The quotient of `size` and `unit`, rounded down: -1 and 3 give -1.
pub(crate) fn floor_quotient(size: i128, unit: i128) -> i128
    requires few { unsigned_abs size ≤ 10 ^ 36 }
    requires some { pos 0 <ℤ unit }
    ensures is { result ≡ int_div_euclid size unit }
    ensures few { unsigned_abs result ≤ 10 ^ 36 }
{
    size.div_euclid(unit)
}
