//! Sums and products in range, which means of absolute value at most 2^127 - 1. The least i128, -2^127, is
//! out of range: no i128 is its negative. In contracts, `OkIff` says that a call answers the number
//! exactly where it is in range.
ghost use Rattle.std.specs.Prelude.{◌≡◌, ◌+ℤ◌, ◌*ℤ◌, OkIff, IfOk, OnOk, OnErr, [], ◌∷◌};
ghost use Rattle.fraction128.specs.Range.{InRange, AllInRange};

use crate::Overflow;

/// The product of two whole numbers, or Overflow exactly where it is out of range. Two numbers of 64 bits
/// go a way of their own, for speed: their product always fits, so the compiler can leave the check out.
#[inline(always)]
pub(crate) fn product_in_range(a: i128, b: i128) -> Result<i128, Overflow>
    ensures { OkIff result (InRange (a *ℤ b)) (a *ℤ b) }
{
    match (i64::try_from(a), i64::try_from(b)) {
        (Ok(first), Ok(second)) => product_of(i128::from(first), i128::from(second)),
        _ => product_of(a, b),
    }
}

/// The product of any two numbers, for both ways of `product_in_range`; Overflow exactly where it is out
/// of range, as -2^127 is.
#[inline(always)]
fn product_of(a: i128, b: i128) -> Result<i128, Overflow>
    ensures { OkIff result (InRange (a *ℤ b)) (a *ℤ b) }
{
    match a.checked_mul(b) {
        Some(i128::MIN) | None => Err(Overflow),
        Some(product) => Ok(product),
    }
}

/// The sum of two whole numbers, or Overflow exactly where it is out of range, as -2^127 is. Sums of
/// fractions are made of it.
#[inline(always)]
pub(crate) fn sum_in_range(a: i128, b: i128) -> Result<i128, Overflow>
    ensures { OkIff result (InRange (a +ℤ b)) (a +ℤ b) }
{
    match a.checked_add(b) {
        Some(i128::MIN) | None => Err(Overflow),
        Some(sum) => Ok(sum),
    }
}

/// `a * b + c * d`, or Overflow exactly where one of the products or their sum is out of range. It is the
/// numerator of a sum of fractions before that is reduced.
pub(crate) fn sum_of_products(a: i128, b: i128, c: i128, d: i128) -> Result<i128, Overflow>
    ensures value { IfOk result (λ sum. sum ≡ a *ℤ b +ℤ c *ℤ d) }
    ensures fits { OnOk result (AllInRange ((a *ℤ b) ∷ (c *ℤ d) ∷ (a *ℤ b +ℤ c *ℤ d) ∷ [])) }
    ensures overflow { OnErr result (¬ AllInRange ((a *ℤ b) ∷ (c *ℤ d) ∷ (a *ℤ b +ℤ c *ℤ d) ∷ [])) }
{
    let first = product_in_range(a, b)?;
    let second = product_in_range(c, d)?;
    sum_in_range(first, second)
}
