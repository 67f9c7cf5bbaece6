//! Greatest common divisors, and numbers divided by them, with which fractions are reduced. A number is in
//! range where its absolute value is at most 2^127 - 1. In contracts, `IsGcd` says that the last of three
//! numbers is the greatest common divisor of the other two. `int_gcd` is the same as a formula, and
//! `int_div` a quotient rounded toward zero.
ghost use Rattle.std.specs.Prelude.{◌≡◌, ◌≢◌, pos, ◌<ℤ◌, unsigned_abs, int_div};
ghost use Rattle.std.specs.Int.{IsGcd};
ghost use Rattle.fraction128.specs.Divisor.{gcd, int_gcd};
ghost use Rattle.fraction128.specs.Range.{InRange};

/// The greatest common divisor of two numbers in range. It is at least 0, and 0 for two zeros.
pub fn gcd(a: i128, b: i128) -> i128
    requires a_in_range { InRange a }
    requires b_in_range { InRange b }
    ensures value { result ≡ int_gcd a b }
    ensures greatest { IsGcd (unsigned_abs a) (unsigned_abs b) (unsigned_abs result) }
    ensures in_range { InRange result }
{
    gcd_of_sizes(a.unsigned_abs(), b.unsigned_abs()) as i128
}

/// The greatest common divisor of two numbers without sign, by Euclid's remainders; 0 for two zeros. It
/// does the work of `gcd`.
fn gcd_of_sizes(a: u128, b: u128) -> u128
    ensures { result ≡ gcd a b }
{
    let mut divisor = a;
    let mut remainder = b;
    while remainder != 0 {
        let rest = divisor % remainder;
        divisor = remainder;
        remainder = rest;
    }
    divisor
}

/// Two numbers without what they have in common: each is divided by their greatest common divisor.
#[derive(Clone, Copy)]
pub(crate) struct Cofactors {
    pub(crate) first: i128,
    pub(crate) second: i128,
}

impl Cofactors {
    /// Both numbers, each divided by their greatest common divisor. They are in range, and the second is
    /// not 0, so that the divisor is above 0.
    pub(crate) fn of(a: i128, b: i128) -> Cofactors
        requires a_in_range { InRange a }
        requires b_in_range { InRange b }
        requires not_zero { b ≢ pos 0 }
        ensures first { result.first ≡ int_div a (int_gcd a b) }
        ensures second { result.second ≡ int_div b (int_gcd a b) }
    {
        let divisor = gcd(a, b);
        Cofactors {
            first: quotient(a, divisor),
            second: quotient(b, divisor),
        }
    }
}

/// `a` divided by a positive divisor, rounded toward zero. `Cofactors::of` divides by a common divisor, so
/// that there nothing is rounded.
fn quotient(a: i128, divisor: i128) -> i128
    requires { pos 0 <ℤ divisor }
    ensures { result ≡ int_div a divisor }
{
    a / divisor
}
