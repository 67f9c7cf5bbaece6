//! The widths that bins may have: 1, 2 or 5 times a power of ten, in thousandths. In contracts,
//! `IsNarrowest` says that a width is the least of these by which at most 20 bins reach, and that isn't
//! below the unit.
ghost use Rattle.std.specs.Prelude.{◌≡◌, ◌*◌, ◌<◌, ◌≤◌, ◌^◌, ◌∷◌, [], ◌+ℤ◌, ◌-ℤ◌, ◌<ℤ◌, ◌≤ℤ◌, pos, slice_index, unsigned_abs};
ghost use Rattle.page_counts.specs.Bins.{IsNarrowest, bins_needed, reaches, round_width};

use crate::thousandth::floor_quotient;

// The step of the widest bins: they are 10^36 thousandths wide.
const LAST_STEP: u32 = 108;

/// The least width that bins may have which is not below `unit`, and by which at most 20 bins reach from
/// `least` to `greatest`. The last one always serves, since the numbers are at most 10^36 in size.
pub(crate) fn width_over(least: i128, greatest: i128, unit: i128) -> i128
    requires least { unsigned_abs least ≤ 10 ^ 36 }
    requires greatest { unsigned_abs greatest ≤ 10 ^ 36 }
    requires unit { unsigned_abs unit ≤ 10 ^ 36 }
    ensures narrowest { IsNarrowest least greatest unit result }
    ensures wide { pos 0 <ℤ result }
    ensures small { unsigned_abs result ≤ 5 * 10 ^ 36 }
    ensures few { bins_needed least greatest result ≤ℤ pos 20 }
{
    for step in 0..LAST_STEP {
        let width = round_width(step);
        if reaches(least, greatest, unit, width) {
            return width;
        }
    }
    round_width(LAST_STEP)
}

// Whether at most 20 bins of this width have `least` and `greatest` and all between, and the width is
// not below `unit`.
fn reaches(least: i128, greatest: i128, unit: i128, width: i128) -> bool
    requires least { unsigned_abs least ≤ 10 ^ 36 }
    requires greatest { unsigned_abs greatest ≤ 10 ^ 36 }
    requires wide { pos 0 <ℤ width }
    ensures { result ≡ reaches least greatest unit width }
{
    unit <= width && bins_needed(least, greatest, width) <= 20
}

// The width that stands at this place, from 0, in the row 1, 2, 5, 10, 20, 50 and so on, in thousandths.
fn round_width(step: u32) -> i128
    requires { step ≤ 108 }
    ensures is { result ≡ round_width step }
    ensures wide { pos 0 <ℤ result }
    ensures small { unsigned_abs result ≤ 5 * 10 ^ 36 }
{
    factor(step % 3) * power_of_ten(step / 3)
}

// How many times its power of ten a width is: 1, 2 or 5, for the rests 0, 1 and 2 of its step by 3.
fn factor(rest: u32) -> i128
    requires { rest < 3 }
    ensures { result ≡ pos (slice_index (1 ∷ 2 ∷ 5 ∷ []) rest) }
{
    match rest {
        0 => 1,
        1 => 2,
        _ => 5,
    }
}

// Ten to this power, which is at most 36.
fn power_of_ten(exponent: u32) -> i128
    requires { exponent ≤ 36 }
    ensures is { result ≡ pos (10 ^ exponent) }
    ensures small { 10 ^ exponent ≤ 10 ^ 36 }
    ensures some { 1 ≤ 10 ^ exponent }
{
    10i128.pow(exponent)
}

/// How many bins of this width there are from that which has `least` to that which has `greatest`.
pub(crate) fn bins_needed(least: i128, greatest: i128, width: i128) -> i128
    requires least { unsigned_abs least ≤ 10 ^ 36 }
    requires greatest { unsigned_abs greatest ≤ 10 ^ 36 }
    requires wide { pos 0 <ℤ width }
    ensures { result ≡ bins_needed least greatest width }
{
    count_from_to(
        floor_quotient(least, width),
        floor_quotient(greatest, width),
    )
}

// How many whole numbers there are from `first` to `last`, with both.
fn count_from_to(first: i128, last: i128) -> i128
    requires first { unsigned_abs first ≤ 10 ^ 36 }
    requires last { unsigned_abs last ≤ 10 ^ 36 }
    ensures { result ≡ (last -ℤ first) +ℤ pos 1 }
{
    last - first + 1
}
