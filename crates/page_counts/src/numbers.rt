//! The sum, the least and the greatest of the numbers among some values; codes and missing values don't
//! count. In contracts, `IsLeast` and `IsGreatest` say so of a number, and `HaveNoNumber` says that no
//! value is one. `answered` is the fraction that a call answers, and None for an overflow.
ghost use Rattle.std.specs.Prelude.{◌≡◌, ◌⊎◌, ◌∷◌, ◌++◌, [], List, MatchOption, pos};
ghost use Rattle.fraction128.specs.Formulas.{answered, ratio_of};
ghost use Rattle.edit_model.specs.declared.value.Value.{Value as AnyValue};
ghost use Rattle.edit_model.specs.declared.value.Value.TheVariants as any;
ghost use Rattle.page_counts.specs.Numbers.{HaveNoNumber, IsAtLeast, IsAtMost, IsGreatest, IsLeast, sum_of, sum_with};

use edit_model::Value;
use fraction128::{Fraction, Overflow};
use std::cmp::Ordering;

/// The sum of the numbers among the values, added one after the other. It overflows exactly where a
/// number leaves the range on that way. No memory.
pub fn sum_of(values: &[Value]) -> Result<Fraction, Overflow>
    ensures { answered result ≡ sum_of values.now }
{
    let mut sum = zero();
    for value in values {
        sum = sum_with(sum, value)?;
    }
    Ok(sum)
}

// The number 0, as 0 over 1, with which a sum begins.
fn zero() -> Fraction
    ensures { ratio_of result ≡ record { numerator = pos 0; denominator = pos 1 } }
{
    Fraction::whole(0)
}

// The sum with a value more; what is no number adds nothing. It overflows where a number leaves the range.
fn sum_with(sum: Fraction, value: &Value) -> Result<Fraction, Overflow>
    ensures { answered result ≡ sum_with (ratio_of sum) value.now }
{
    match value {
        Value::Number(number) => sum.add(*number),
        Value::Code(_) | Value::Bad => Ok(sum),
    }
}

/// The least of the numbers among the values, None where there is no number. No memory.
pub fn least(values: &[Value]) -> Option<Fraction>
    ensures { MatchOption result (HaveNoNumber values.now) (IsLeast values.now) }
{
    let mut least = None;
    for value in values {
        least = least_with(least, value);
    }
    least
}

/// The greatest of the numbers among the values, None where there is no number. No memory.
pub fn greatest(values: &[Value]) -> Option<Fraction>
    ensures { MatchOption result (HaveNoNumber values.now) (IsGreatest values.now) }
{
    let mut greatest = None;
    for value in values {
        greatest = greatest_with(greatest, value);
    }
    greatest
}

// The least number among some values and one more, where `least` is that of the former. None where there
// is no number.
fn least_with(least: Option<Fraction>, value: &Value) -> Option<Fraction>
    ensures { (values : List AnyValue) → MatchOption least (HaveNoNumber values) (IsLeast values)
        → MatchOption result (HaveNoNumber (values ++ value.now ∷ [])) (IsLeast (values ++ value.now ∷ [])) }
{
    match value {
        Value::Number(number) => Some(lesser_of(least, *number)),
        Value::Code(_) => least,
        Value::Bad => least,
    }
}

// The least number among some values and the number `number`, where `least` is that of the former, if
// there is one.
fn lesser_of(least: Option<Fraction>, number: Fraction) -> Fraction
    ensures { (values : List AnyValue) → MatchOption least (HaveNoNumber values) (IsLeast values)
        → IsLeast (values ++ any.Number number ∷ []) result }
{
    match least {
        None => number,
        Some(least) => lesser(least, number),
    }
}

// The greatest number among some values and one more, where `greatest` is that of the former. None where
// there is no number.
fn greatest_with(greatest: Option<Fraction>, value: &Value) -> Option<Fraction>
    ensures { (values : List AnyValue) → MatchOption greatest (HaveNoNumber values) (IsGreatest values)
        → MatchOption result (HaveNoNumber (values ++ value.now ∷ [])) (IsGreatest (values ++ value.now ∷ [])) }
{
    match value {
        Value::Number(number) => Some(greater_of(greatest, *number)),
        Value::Code(_) => greatest,
        Value::Bad => greatest,
    }
}

// The greatest number among some values and the number `number`, where `greatest` is that of the former,
// if there is one.
fn greater_of(greatest: Option<Fraction>, number: Fraction) -> Fraction
    ensures { (values : List AnyValue) → MatchOption greatest (HaveNoNumber values) (IsGreatest values)
        → IsGreatest (values ++ any.Number number ∷ []) result }
{
    match greatest {
        None => number,
        Some(greatest) => greater(greatest, number),
    }
}

// The lesser of two numbers, and `x` where they are equal.
fn lesser(x: Fraction, y: Fraction) -> Fraction
    ensures one { (result ≡ x) ⊎ (result ≡ y) }
    ensures first { IsAtMost result x }
    ensures second { IsAtMost result y }
{
    match x.compare(y) {
        Ordering::Less | Ordering::Equal => x,
        Ordering::Greater => y,
    }
}

// The greater of two numbers, and `x` where they are equal.
fn greater(x: Fraction, y: Fraction) -> Fraction
    ensures one { (result ≡ x) ⊎ (result ≡ y) }
    ensures first { IsAtLeast result x }
    ensures second { IsAtLeast result y }
{
    match x.compare(y) {
        Ordering::Less => y,
        Ordering::Equal | Ordering::Greater => x,
    }
}
