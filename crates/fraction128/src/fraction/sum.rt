//! Sums, differences and middles of fractions. In contracts, `sum_numbers` and `difference_numbers` list
//! the numbers that [`Fraction::add`] names. `IsSum`, `IsDifference` and `IsMiddle` say that the answer is
//! exact. `AllInRange` says that no number of a list is above 2^127 - 1 in absolute value.
ghost use Rattle.std.specs.Prelude.{◌≡◌, pos, IfOk, OnOk, OnErr};
ghost use Rattle.fraction128.specs.Arithmetic.{IsSum, IsDifference, IsMiddle, sum_numbers, difference_numbers};
ghost use Rattle.fraction128.specs.Formulas.{answered, middle, ratio_of};
ghost use Rattle.fraction128.specs.Range.{AllInRange};

use crate::divisor::Cofactors;
use crate::range::{product_in_range, sum_in_range, sum_of_products};
use crate::{Fraction, Overflow};

impl Fraction {
    /// The sum of a/b and c/d. It overflows exactly where one of `a * d'`, `c * b'`, their sum and
    /// `b' * d` is out of range. Here b' and d' are b and d, divided by their greatest common divisor.
    #[inline(always)]
    pub fn add(self, other: Fraction) -> Result<Fraction, Overflow>
        ensures value { IfOk result (λ z. IsSum self other z) }
        ensures fits { OnOk result (AllInRange (sum_numbers self other)) }
        ensures overflow { OnErr result (¬ AllInRange (sum_numbers self other)) }
    {
        if self.is_whole() && other.is_whole() {
            self.add_whole(other)
        } else {
            self.add_parts(other)
        }
    }

    /// The short way of `add`, for two fractions that are whole numbers: no common divisor is looked for.
    /// Overflow where the sum is out of range.
    #[inline(always)]
    fn add_whole(self, other: Fraction) -> Result<Fraction, Overflow>
        requires first { self.denominator ≡ pos 1 }
        requires second { other.denominator ≡ pos 1 }
        ensures value { IfOk result (λ z. IsSum self other z) }
        ensures fits { OnOk result (AllInRange (sum_numbers self other)) }
        ensures overflow { OnErr result (¬ AllInRange (sum_numbers self other)) }
    {
        let numerator = sum_in_range(self.numerator, other.numerator)?;
        Ok(Fraction::whole(numerator))
    }

    /// The long way of `add`, for any two fractions, which overflows as `add` says. Each numerator is
    /// multiplied by the other denominator without the common divisor, and the result is reduced.
    #[inline(never)]
    fn add_parts(self, other: Fraction) -> Result<Fraction, Overflow>
        ensures value { IfOk result (λ z. IsSum self other z) }
        ensures fits { OnOk result (AllInRange (sum_numbers self other)) }
        ensures overflow { OnErr result (¬ AllInRange (sum_numbers self other)) }
    {
        let parts = Cofactors::of(self.denominator, other.denominator);
        let numerator = sum_of_products(
            self.numerator,
            parts.second,
            other.numerator,
            parts.first,
        )?;
        let denominator = product_in_range(parts.first, other.denominator)?;
        Ok(Fraction::reduced(numerator, denominator))
    }

    /// This fraction without `other`. It overflows exactly where the sum with the negative of `other` does,
    /// as `add` says.
    pub fn sub(self, other: Fraction) -> Result<Fraction, Overflow>
        ensures value { IfOk result (λ z. IsDifference self other z) }
        ensures fits { OnOk result (AllInRange (difference_numbers self other)) }
        ensures overflow { OnErr result (¬ AllInRange (difference_numbers self other)) }
    {
        self.add(other.negated())
    }

    /// The fraction half way between the two: half of their sum. It overflows exactly where `add` does, or
    /// `divide` of the sum by 2.
    pub fn middle(self, other: Fraction) -> Result<Fraction, Overflow>
        ensures value { IfOk result (λ z. IsMiddle self other z) }
        ensures formula { answered result ≡ middle (ratio_of self) (ratio_of other) }
    {
        self.add(other)?.divide(2)
    }
}
