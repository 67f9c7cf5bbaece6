//! The exact fraction, which is always in lowest terms: how one is made, and its two numbers. The files in
//! `fraction/` add, multiply, compare, read and write it.
ghost use Rattle.std.specs.Prelude.{◌≡◌, pos, ◌<ℤ◌, ◌*ℤ◌, true, unsigned_abs};
ghost use lib.IntN.{neg_ℤ};
ghost use Rattle.std.specs.Int.{IsGcd};
ghost use Rattle.fraction128.specs.Range.{InRange};

mod order;
mod product;
mod read;
mod sum;
mod write;

use crate::divisor::Cofactors;

/// A fraction in lowest terms: its denominator is positive, and both numbers are of absolute value at
/// most `2^127 - 1`.
#[derive(Clone, Copy, Debug, PartialEq, Eq)]
pub struct Fraction {
    numerator: i128,
    denominator: i128,
    pub ghost positive: { pos 0 <ℤ denominator },
    pub ghost numerator_in_range: { InRange numerator },
    pub ghost denominator_in_range: { InRange denominator },
    pub ghost reduced: { IsGcd (unsigned_abs numerator) (unsigned_abs denominator) 1 },
}

impl Fraction {
    /// The fraction in lowest terms that is `numerator` over `denominator`. Both are in range, and the
    /// denominator is positive.
    pub fn reduced(numerator: i128, denominator: i128) -> Fraction
        requires numerator_in_range { InRange numerator }
        requires denominator_in_range { InRange denominator }
        requires positive { pos 0 <ℤ denominator }
        ensures same { result.numerator *ℤ denominator ≡ numerator *ℤ result.denominator }
    {
        if denominator == 1 {
            return Fraction::whole(numerator);
        }
        let lowest = Cofactors::of(numerator, denominator);
        Fraction::from_lowest_terms(lowest.first, lowest.second)
    }

    /// The whole number, which is in range, as a fraction over 1.
    pub fn whole(number: i128) -> Fraction
        requires { InRange number }
        ensures numerator { result.numerator ≡ number }
        ensures denominator { result.denominator ≡ pos 1 }
    {
        Fraction {
            numerator: number,
            denominator: 1,
        }
    }

    /// The numerator, which has the sign of the fraction.
    pub fn numerator(&self) -> i128
        ensures { result ≡ self.now.numerator }
    {
        self.numerator
    }

    /// The denominator, which is positive.
    pub fn denominator(&self) -> i128
        ensures { result ≡ self.now.denominator }
    {
        self.denominator
    }

    /// Whether the fraction is a whole number: its denominator is 1. Sums and products of such fractions go
    /// shorter ways.
    fn is_whole(&self) -> bool
        ensures { result ≡ true → self.now.denominator ≡ pos 1 }
    {
        self.denominator == 1
    }

    /// The fraction of two numbers in range that have no common divisor but 1. The denominator is positive.
    fn from_lowest_terms(numerator: i128, denominator: i128) -> Fraction
        requires numerator_in_range { InRange numerator }
        requires denominator_in_range { InRange denominator }
        requires positive { pos 0 <ℤ denominator }
        requires coprime { IsGcd (unsigned_abs numerator) (unsigned_abs denominator) 1 }
        ensures numerator { result.numerator ≡ numerator }
        ensures denominator { result.denominator ≡ denominator }
    {
        Fraction {
            numerator,
            denominator,
        }
    }

    /// The fraction with the other sign, for differences and negative divisors. It is always in range,
    /// since -2^127 is no numerator.
    fn negated(self) -> Fraction
        ensures numerator { result.numerator ≡ neg_ℤ self.numerator }
        ensures denominator { result.denominator ≡ self.denominator }
    {
        Fraction {
            numerator: -self.numerator,
            denominator: self.denominator,
        }
    }
}
