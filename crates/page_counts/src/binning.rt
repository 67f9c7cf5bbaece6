//! Bins over numbers: where they begin, and which serve. In contracts, `IsWithin` says that thousandths
//! are in one of the bins, and `IsNarrowest` that no narrower width of those that bins may have serves.
//! `bins_needed` is how many bins of a width there are from that of one number to that of another.
ghost use Rattle.std.specs.Prelude.{◌≡◌, ◌*◌, ◌≤◌, ◌^◌, ◌*ℤ◌, ◌<ℤ◌, ◌≤ℤ◌, pos, unsigned_abs};
ghost use Rattle.std.specs.Int.{int_div_euclid, int_max, int_min};
ghost use Rattle.page_counts.specs.Bins.{IsNarrowest, IsWithin, bin_low, bins_needed};

use crate::bins::Bins;
use crate::thousandth::floor_quotient;
use crate::widths::{bins_needed, width_over};

impl Bins {
    /// Where bin `i` begins, in thousandths. For `i` the number of bins, it is where the last one ends.
    pub fn low(&self, i: u32) -> i128
        requires { i ≤ 20 }
        ensures { result ≡ bin_low self.now i }
    {
        self.first + i128::from(i) * self.width
    }
}

/// The narrowest bins, at most 20 and not narrower than `unit`, that have the thousandths `one` and
/// `other` and all between. Either may be the greater. The width of the bins is 1, 2 or 5 times a power of
/// ten, and the first begins at a multiple of it. With a unit of 1000 bins begin at whole numbers.
pub fn bins_over(one: i128, other: i128, unit: i128) -> Bins
    requires one { unsigned_abs one ≤ 10 ^ 36 }
    requires other { unsigned_abs other ≤ 10 ^ 36 }
    requires unit { unsigned_abs unit ≤ 10 ^ 36 }
    ensures one { IsWithin result one }
    ensures other { IsWithin result other }
    ensures narrowest { IsNarrowest (int_min one other) (int_max one other) unit result.width }
    ensures first { result.first ≡ int_div_euclid (int_min one other) result.width *ℤ result.width }
    ensures count { pos result.count ≡ bins_needed (int_min one other) (int_max one other) result.width }
{
    if one <= other {
        bins_between(one, other, unit)
    } else {
        bins_between(other, one, unit)
    }
}

// The narrowest bins that have the thousandths from `least` to `greatest`. There are at most 20 of them, and
// they are not narrower than `unit`.
fn bins_between(least: i128, greatest: i128, unit: i128) -> Bins
    requires least { unsigned_abs least ≤ 10 ^ 36 }
    requires greatest { unsigned_abs greatest ≤ 10 ^ 36 }
    requires unit { unsigned_abs unit ≤ 10 ^ 36 }
    requires order { least ≤ℤ greatest }
    ensures least { IsWithin result least }
    ensures greatest { IsWithin result greatest }
    ensures narrowest { IsNarrowest least greatest unit result.width }
    ensures first { result.first ≡ int_div_euclid least result.width *ℤ result.width }
    ensures count { pos result.count ≡ bins_needed least greatest result.width }
{
    bins_of(least, greatest, width_over(least, greatest, unit))
}

// The bins of this width, from that which has the thousandths `least` to that which has `greatest`. At most
// 20 have to be enough (`few`).
fn bins_of(least: i128, greatest: i128, width: i128) -> Bins
    requires least { unsigned_abs least ≤ 10 ^ 36 }
    requires greatest { unsigned_abs greatest ≤ 10 ^ 36 }
    requires order { least ≤ℤ greatest }
    requires wide { pos 0 <ℤ width }
    requires small { unsigned_abs width ≤ 5 * 10 ^ 36 }
    requires few { bins_needed least greatest width ≤ℤ pos 20 }
    ensures width { result.width ≡ width }
    ensures first { result.first ≡ int_div_euclid least width *ℤ width }
    ensures count { pos result.count ≡ bins_needed least greatest width }
{
    Bins {
        first: lower_end(least, width),
        width,
        count: count_of(bins_needed(least, greatest, width)),
    }
}

// How many bins there are, from 1 to 20, as a number of 32 bits.
fn count_of(needed: i128) -> u32
    requires some { pos 1 ≤ℤ needed }
    requires few { needed ≤ℤ pos 20 }
    ensures is { pos result ≡ needed }
    ensures some { 1 ≤ result }
    ensures few { result ≤ 20 }
{
    needed as u32
}

// Where the bin of this width begins that has the thousandths `least`: at the last multiple of the width
// that is not above them.
fn lower_end(least: i128, width: i128) -> i128
    requires least { unsigned_abs least ≤ 10 ^ 36 }
    requires wide { pos 0 <ℤ width }
    requires small { unsigned_abs width ≤ 5 * 10 ^ 36 }
    ensures { result ≡ int_div_euclid least width *ℤ width }
{
    floor_quotient(least, width) * width
}
