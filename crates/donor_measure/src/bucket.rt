//! Buckets and marks of values, which tell that two records are far apart before they are measured. The
//! bucket of a number is how many thousandths of its field's scale it is, rounded down. A mark is a bucket
//! or a code, folded into 16 bits. A plain number is one as records have them: its numerator is below 10^21,
//! and its denominator at most 10^6.
ghost use Rattle.std.specs.Prelude.{◌≡◌, ℕ, ◌+◌, ◌-◌, ◌*◌, ◌<◌, ◌≤◌, ◌^◌, ◌+ℤ◌, ◌*ℤ◌, ◌<ℤ◌, min, pos, unsigned_abs, true};
ghost use Rattle.std.specs.Int.{abs_diff, int_div_euclid};
ghost use Rattle.edit_model.specs.PlainNumbers.{IsPlain, IsPlainValue};
ghost use Rattle.donor_measure.specs.Distances.{bucket_of};
ghost use Rattle.donor_measure.specs.Buckets.{bucket_no, folded, mark_of, number_bucket};
ghost use Rattle.donor_measure.specs.Yardsticks.{IsScale};

use edit_model::Value;
use fraction128::Fraction;

// No bucket of a plain number is further from 0: it is 1000 times a numerator below 10^21, over a
// denominator and a scale of at least 1.
const LOWEST_BUCKET: i128 = 1_000_000_000_000_000_000_000_000;

// Where folded numbers begin to be repeated: 2^17.
const PERIOD: u128 = 131_072;

// What is added to buckets before they are folded: 2^15, so that those nearest to 0 lie in the middle of
// the way up. Without it buckets as far below 0 as others are above it would have their marks.
const MIDDLE: u128 = 32_768;

/// The bucket of a number: how many thousandths of the scale it is, rounded down. It is counted from -10^24
/// on, the lowest bucket that a number with a numerator below 10^21 has. 0 where the value is no number, or
/// its parts are not as small as those of records. No memory.
pub fn bucket_no(scale: u64, value: &Value) -> u128
    requires { (1 ≤ scale) × (scale ≤ 10 ^ 12) }
    ensures is { IsPlainValue value.now → result ≡ bucket_no scale value.now }
    ensures few { result ≤ 2 * 10 ^ 24 }
{
    match value {
        Value::Number(x) => number_bucket(scale, x),
        Value::Code(_) | Value::Bad => 0,
    }
}

// The bucket of a number, counted from the lowest; 0 where the number is not plain.
fn number_bucket(scale: u64, x: &Fraction) -> u128
    requires { (1 ≤ scale) × (scale ≤ 10 ^ 12) }
    ensures is { IsPlain x.now → result ≡ number_bucket scale x.now }
    ensures few { result ≤ 2 * 10 ^ 24 }
{
    if is_plain(x) {
        plain_bucket(scale, x)
    } else {
        0
    }
}

// Whether a number is plain: its parts are as small as those of records.
fn is_plain(x: &Fraction) -> bool
    ensures yes { result ≡ true → IsPlain x.now }
    ensures all { IsPlain x.now → result ≡ true }
{
    let small = x.numerator().unsigned_abs() < 1_000_000_000_000_000_000_000;
    small && x.denominator() <= 1_000_000
}

// The bucket of a plain number, counted from the lowest.
fn plain_bucket(scale: u64, x: &Fraction) -> u128
    requires scale { (1 ≤ scale) × (scale ≤ 10 ^ 12) }
    requires plain { IsPlain x.now }
    ensures is { result ≡ number_bucket scale x.now }
    ensures few { result ≤ 2 * 10 ^ 24 }
{
    count_from_lowest(bucket_of(scale, x))
}

// The bucket of a plain number: how many thousandths of the scale it is, rounded down.
fn bucket_of(scale: u64, x: &Fraction) -> i128
    requires scale { (1 ≤ scale) × (scale ≤ 10 ^ 12) }
    requires plain { IsPlain x.now }
    ensures bucket { result ≡ bucket_of scale x.now }
    ensures few { unsigned_abs result ≤ 10 ^ 24 }
{
    floor_quotient(thousands(x), unit(scale, x))
}

// A thousand times the numerator: what is divided by [`unit`] for the number's bucket.
fn thousands(x: &Fraction) -> i128
    requires { IsPlain x.now }
    ensures product { result ≡ pos 1000 *ℤ x.now.numerator }
    ensures few { unsigned_abs result ≤ 10 ^ 24 }
{
    1000 * x.numerator()
}

// The denominator times the scale: by what [`thousands`] is divided for the number's bucket.
fn unit(scale: u64, x: &Fraction) -> i128
    requires scale { (1 ≤ scale) × (scale ≤ 10 ^ 12) }
    requires plain { IsPlain x.now }
    ensures { result ≡ x.now.denominator *ℤ pos scale }
{
    x.denominator() * i128::from(scale)
}

// The quotient of `size` by `unit`, rounded down also where `size` is below 0.
fn floor_quotient(size: i128, unit: i128) -> i128
    requires few { unsigned_abs size ≤ 10 ^ 24 }
    requires some { pos 0 <ℤ unit }
    ensures quotient { result ≡ int_div_euclid size unit }
    ensures few { unsigned_abs result ≤ 10 ^ 24 }
{
    size.div_euclid(unit)
}

// The number of a bucket, counted from -10^24 on, so that it is at least 0. No plain number has a lower
// bucket.
fn count_from_lowest(bucket: i128) -> u128
    requires { unsigned_abs bucket ≤ 10 ^ 24 }
    ensures is { result ≡ unsigned_abs (bucket +ℤ pos (10 ^ 24)) }
    ensures few { result ≤ 2 * 10 ^ 24 }
{
    (bucket + LOWEST_BUCKET).unsigned_abs()
}

/// A value's mark, by which values that are far apart are told without their distance. Where the marks of
/// two values of a field differ by d, the values are at least d - 1 thousandths apart, or 1000. The mark of
/// a number is its bucket, folded into 16 bits. That of a code is 1001 times its number, since two codes
/// are 1000 apart. A missing value counts as the bucket, or code, 0. No memory.
pub fn mark_of(scale: Option<u64>, value: &Value) -> u16
    requires { IsScale scale }
    ensures { IsPlainValue value.now → result ≡ mark_of scale value.now }
{
    match scale {
        Some(scale) => fold_to_mark(bucket_no(scale, value) + MIDDLE),
        None => fold_to_mark(1001 * u128::from(value.code_number())),
    }
}

// The mark of a number, which is a bucket or stands for a code: the number folded into 16 bits. As numbers
// rise, marks run up from 0 to 2^16 - 1, then down again, and so on. So two marks never differ more than
// their numbers do.
fn fold_to_mark(number: u128) -> u16
    ensures { result ≡ folded number }
{
    let up = number % PERIOD;
    up.min(PERIOD - 1 - up) as u16
}

/// How many whole buckets lie between two buckets, at most 1000; 0 where they are the same or neighbours.
/// The distance of two numbers is at least that, times the weight of their field. No memory.
#[inline(always)]
pub fn whole_buckets_between(first: u128, second: u128) -> u64
    ensures { result ≡ min 1000 (abs_diff first second - 1) }
{
    let apart = first.abs_diff(second);
    if apart > 1000 {
        1000
    } else {
        one_less(apart as u64)
    }
}

// How many whole buckets lie between one bucket and another that is `apart` further: one less than `apart`,
// and 0 where both are the same.
#[inline(always)]
fn one_less(apart: u64) -> u64
    requires { apart ≤ 1000 }
    ensures { result ≡ apart - 1 }
{
    apart.saturating_sub(1)
}
