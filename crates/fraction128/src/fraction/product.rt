//! Fractions times, and divided by, whole numbers in range, of absolute value at most 2^127 - 1. In
//! contracts, `scaled_numbers` and `divided_numbers` list the two numbers of the answer, but for a sign.
//! `IsProduct` and `IsQuotient` say that the answer is exact.
ghost use Rattle.std.specs.Prelude.{◌≡◌, ◌≢◌, pos, IfOk, OnOk, OnErr};
ghost use Rattle.fraction128.specs.Arithmetic.{IsProduct, IsQuotient, scaled_numbers, divided_numbers};
ghost use Rattle.fraction128.specs.Range.{InRange, AllInRange};

use crate::divisor::Cofactors;
use crate::range::product_in_range;
use crate::{Fraction, Overflow};

impl Fraction {
    /// The fraction times a whole number in range. What the factor and the denominator share is divided
    /// out first, and then it overflows exactly where the numerator leaves the range.
    #[inline(always)]
    pub fn scale(self, factor: i128) -> Result<Fraction, Overflow>
        requires { InRange factor }
        ensures value { IfOk result (λ z. IsProduct self factor z) }
        ensures fits { OnOk result (AllInRange (scaled_numbers self factor)) }
        ensures overflow { OnErr result (¬ AllInRange (scaled_numbers self factor)) }
    {
        if self.is_whole() {
            self.scale_whole(factor)
        } else {
            self.scale_parts(factor)
        }
    }

    /// The short way of `scale`, for a fraction that is a whole number: no common divisor is looked for.
    /// Overflow where the product is out of range.
    #[inline(always)]
    fn scale_whole(self, factor: i128) -> Result<Fraction, Overflow>
        requires whole { self.denominator ≡ pos 1 }
        requires in_range { InRange factor }
        ensures value { IfOk result (λ z. IsProduct self factor z) }
        ensures fits { OnOk result (AllInRange (scaled_numbers self factor)) }
        ensures overflow { OnErr result (¬ AllInRange (scaled_numbers self factor)) }
    {
        let numerator = product_in_range(self.numerator, factor)?;
        Ok(Fraction::whole(numerator))
    }

    /// The long way of `scale`, for any fraction; Overflow where the numerator leaves the range. What is
    /// left of the factor and the denominator has no common divisor, so the product is in lowest terms.
    #[inline(never)]
    fn scale_parts(self, factor: i128) -> Result<Fraction, Overflow>
        requires { InRange factor }
        ensures value { IfOk result (λ z. IsProduct self factor z) }
        ensures fits { OnOk result (AllInRange (scaled_numbers self factor)) }
        ensures overflow { OnErr result (¬ AllInRange (scaled_numbers self factor)) }
    {
        let parts = Cofactors::of(factor, self.denominator);
        let numerator = product_in_range(self.numerator, parts.first)?;
        Ok(Fraction::from_lowest_terms(numerator, parts.second))
    }

    /// The fraction divided by a whole number in range that is not 0. What the divisor and the numerator
    /// share is divided out first, and then it overflows exactly where the denominator leaves the range.
    /// The sign of the divisor goes to the numerator, since a denominator is positive.
    pub fn divide(self, divisor: i128) -> Result<Fraction, Overflow>
        requires in_range { InRange divisor }
        requires not_zero { divisor ≢ pos 0 }
        ensures value { IfOk result (λ z. IsQuotient self divisor z) }
        ensures fits { OnOk result (AllInRange (divided_numbers self divisor)) }
        ensures overflow { OnErr result (¬ AllInRange (divided_numbers self divisor)) }
    {
        let parts = Cofactors::of(self.numerator, divisor);
        let denominator = product_in_range(self.denominator, parts.second.abs())?;
        let quotient = Fraction::from_lowest_terms(parts.first, denominator);
        if divisor < 0 {
            Ok(quotient.negated())
        } else {
            Ok(quotient)
        }
    }
}
