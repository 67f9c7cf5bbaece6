//! The order of fractions, told without products of their numbers, so that nothing can overflow. In
//! contracts, `int_cmp` and `nat_cmp` are the order of whole numbers with and without sign.
ghost use Rattle.std.specs.Prelude.{◌≡◌, ◌<◌, ◌*◌, ◌*ℤ◌};
ghost use Rattle.std.specs.Ordering.{nat_cmp, int_cmp};

use crate::Fraction;
use std::cmp::Ordering;

impl Fraction {
    /// Whether this fraction, a/b, is less than `other`, c/d, equal or greater: as `a * d` compares with
    /// `c * b`. It is exact and never refuses.
    pub fn compare(self, other: Fraction) -> Ordering
        ensures { result ≡
            int_cmp (self.numerator *ℤ other.denominator) (other.numerator *ℤ self.denominator) }
    {
        let (a, b) = (self.numerator, self.denominator.unsigned_abs());
        let (c, d) = (other.numerator, other.denominator.unsigned_abs());
        match (a < 0, c < 0) {
            (false, false) => compare_sizes(a.unsigned_abs(), b, c.unsigned_abs(), d),
            (false, true) => Ordering::Greater,
            (true, false) => Ordering::Less,
            (true, true) => compare_sizes(c.unsigned_abs(), d, a.unsigned_abs(), b),
        }
    }
}

/// The order of `a/b` and `c/d`, which have no sign and whose denominators are not 0. Whole parts decide.
/// Where they are equal, the rests `r/b` and `s/d` decide. A rest of 0 is the least; else `r/b` and `s/d`
/// compare as `d/s` and `b/r` do. No product is formed, so none can overflow.
fn compare_sizes(a: u128, b: u128, c: u128, d: u128) -> Ordering
    requires first { 0 < b }
    requires second { 0 < d }
    ensures { result ≡ nat_cmp (a * d) (c * b) }
{
    if b == d {
        return a.cmp(&c);
    }
    let (first, second) = (a / b, c / d);
    if first != second {
        return first.cmp(&second);
    }
    let (first_rest, second_rest) = (a % b, c % d);
    if first_rest == 0 || second_rest == 0 {
        return first_rest.cmp(&second_rest);
    }
    compare_sizes(d, second_rest, b, first_rest)
}
