//! How far two values of one field are apart, exactly, by the field's weight and scale. The distance of
//! two records is a sum of these. A yardstick is a field's weight, with its scale where it is numerical.
//! Fields are numbered from 0. In contracts, `IsMeasurable` asks for a code where there is no scale, and
//! for a plain number where there is one. `bucket_gap` is the weight times the whole buckets between two
//! values.
ghost use Rattle.std.specs.Prelude.{◌≡◌, ℕ, IfSome, ◌<◌, ◌≤◌, ◌*◌, ◌-ℤ◌, ◌*ℤ◌, ◌^◌, ◌==◌, ◌/◌, if◌then◌else◌, pos, true, unsigned_abs, min, length};
ghost use Rattle.edit_model.specs.PlainNumbers.{IsPlain};
ghost use Rattle.donor_measure.specs.Distances.{bucket_gap, field_distance, thousandths_apart, value_distance};
ghost use Rattle.donor_measure.specs.Measures.{IsMeasurable};
ghost use Rattle.donor_measure.specs.Yardsticks.{IsScale, IsYardstick, yardstick_at, yardsticks_of};

use crate::yardstick::{Yardstick, Yardsticks};
use edit_model::{Survey, Value};
use fraction128::Fraction;

// The greatest unit with which thousandths are counted in words of 64 bits: 1000 times a size below it fits
// in one.
const MOST_IN_WORDS: u128 = 10_000_000_000_000_000;

/// The distance of two values of a field of the survey: the field's weight times how far they are apart.
/// Equal codes are 0 apart, and other codes 1000. Numbers are apart by the thousandths of the field's scale
/// by which they differ, rounded down and at most 1000. The numbers have numerators below 10^21 and
/// denominators of at most 10^6. It is what a [`crate::Measure`] of the survey has to keep. No memory.
pub fn field_distance(survey: &Survey, field: u32, first: &Value, second: &Value) -> u64
    requires field { field < length survey.now.fields }
    requires first { IsMeasurable (yardstick_at (yardsticks_of survey.now.fields) field).scale first.now }
    requires second { IsMeasurable (yardstick_at (yardsticks_of survey.now.fields) field).scale second.now }
    ensures distance { result ≡ field_distance (yardstick_at (yardsticks_of survey.now.fields) field) first.now second.now }
    ensures gap { bucket_gap (yardstick_at (yardsticks_of survey.now.fields) field) first.now second.now ≤ result }
{
    distance_by(yardstick(survey, field), first, second)
}

impl Yardsticks {
    /// The distance of two values of a field of the survey that these yardsticks are of, as
    /// [`field_distance`] has it. No memory.
    pub fn distance(&self, field: u32, first: &Value, second: &Value) -> u64
        requires field { field < length self.now }
        requires first { IsMeasurable (yardstick_at self.now field).scale first.now }
        requires second { IsMeasurable (yardstick_at self.now field).scale second.now }
        ensures distance { result ≡ field_distance (yardstick_at self.now field) first.now second.now }
        ensures gap { bucket_gap (yardstick_at self.now field) first.now second.now ≤ result }
    {
        distance_by(self.at(field), first, second)
    }
}

// The yardstick of the survey's field: its weight, and its scale where it is numerical.
#[inline(always)]
fn yardstick(survey: &Survey, field: u32) -> Yardstick
    requires { field < length survey.now.fields }
    ensures is { result ≡ yardstick_at (yardsticks_of survey.now.fields) field }
    ensures fits { IsYardstick result }
{
    Yardstick::of(&survey.fields()[field as usize])
}

// The distance of two values of a field that has this yardstick: the field's weight times the distance of
// the values, which is from 0 to 1000.
#[inline(always)]
fn distance_by(yardstick: Yardstick, first: &Value, second: &Value) -> u64
    requires fits { IsYardstick yardstick }
    requires first { IsMeasurable yardstick.scale first.now }
    requires second { IsMeasurable yardstick.scale second.now }
    ensures distance { result ≡ field_distance yardstick first.now second.now }
    ensures gap { bucket_gap yardstick first.now second.now ≤ result }
{
    u64::from(yardstick.weight) * value_distance(yardstick.scale, first, second)
}

// The distance of two values without the weight of their field, from 0 to 1000. A field's values are codes
// where it has no scale, and else numbers. Other pairs do not come, and 0 stands for them.
#[inline(always)]
fn value_distance(scale: Option<u64>, first: &Value, second: &Value) -> u64
    requires scale { IsScale scale }
    requires first { IsMeasurable scale first.now }
    requires second { IsMeasurable scale second.now }
    ensures distance { result ≡ value_distance scale first.now second.now }
    ensures few { result ≤ 1000 }
{
    match (scale, first, second) {
        (None, Value::Code(a), Value::Code(b)) => code_distance(*a, *b),
        (Some(scale), Value::Number(x), Value::Number(y)) => number_distance(scale, x, y),
        _ => 0,
    }
}

// 0 for the same code and 1000 for another one.
#[inline(always)]
fn code_distance(a: u8, b: u8) -> u64
    ensures distance { result ≡ (if a == b then 0 else 1000) }
    ensures few { result ≤ 1000 }
{
    if a == b { 0 } else { 1000 }
}

// How far two numbers are apart, in thousandths of the scale, rounded down and at most 1000. Most numbers
// are whole: then nothing is multiplied but the difference.
#[inline(always)]
fn number_distance(scale: u64, x: &Fraction, y: &Fraction) -> u64
    requires scale { (1 ≤ scale) × (scale ≤ 10 ^ 12) }
    requires first { IsPlain x.now }
    requires second { IsPlain y.now }
    ensures distance { result ≡ min 1000 (thousandths_apart scale x.now y.now) }
    ensures few { result ≤ 1000 }
{
    if are_whole(x, y) {
        whole_distance(scale, x.numerator().abs_diff(y.numerator()))
    } else {
        fraction_distance(scale, x, y)
    }
}

// Whether both numbers are whole, as most are. Nothing is promised of False: what is then done is right for
// all numbers.
#[inline(always)]
fn are_whole(x: &Fraction, y: &Fraction) -> bool
    ensures { result ≡ true → (x.now.denominator ≡ pos 1) × (y.now.denominator ≡ pos 1) }
{
    x.denominator() == 1 && y.denominator() == 1
}

// How many thousandths of the scale `apart` is, the difference of two whole numbers: rounded down and at
// most 1000.
#[inline(always)]
fn whole_distance(scale: u64, apart: u128) -> u64
    requires scale { (1 ≤ scale) × (scale ≤ 10 ^ 12) }
    ensures distance { result ≡ min 1000 ((1000 * apart) / scale) }
    ensures few { result ≤ 1000 }
{
    if apart >= u128::from(scale) {
        1000
    } else {
        thousandths_in_words(apart as u64, scale)
    }
}

// How far two numbers are apart, of which one may be no whole number: in thousandths of the scale, rounded
// down and at most 1000.
#[inline(never)]
fn fraction_distance(scale: u64, x: &Fraction, y: &Fraction) -> u64
    requires scale { (1 ≤ scale) × (scale ≤ 10 ^ 12) }
    requires first { IsPlain x.now }
    requires second { IsPlain y.now }
    ensures distance { result ≡ min 1000 (thousandths_apart scale x.now y.now) }
    ensures few { result ≤ 1000 }
{
    let unit = u128::from(denominator_of(x) * denominator_of(y)) * u128::from(scale);
    thousandths(cross_difference(x, y), unit)
}

// How many thousandths of `unit` the number `size` is, rounded down and at most 1000. Most sizes are at
// least the unit. Then nothing is divided, which would take most of the time.
fn thousandths(size: u128, unit: u128) -> u64
    requires some { 1 ≤ unit }
    requires few { size < 2 * 10 ^ 27 }
    ensures thousandths { result ≡ min 1000 ((1000 * size) / unit) }
    ensures few { result ≤ 1000 }
{
    if size >= unit {
        1000
    } else if unit <= MOST_IN_WORDS {
        thousandths_in_words(size as u64, unit as u64)
    } else {
        (1000 * size / unit) as u64
    }
}

// How many thousandths of the unit a size below it is, rounded down. In words of 64 bits, in which 1000
// times the size fits, a quotient takes a small part of its time in 128.
#[inline(always)]
fn thousandths_in_words(size: u64, unit: u64) -> u64
    requires below { size < unit }
    requires few { unit ≤ 10 ^ 16 }
    ensures thousandths { result ≡ (1000 * size) / unit }
    ensures few { result ≤ 1000 }
{
    1000 * size / unit
}

// How far two numbers are apart, times the product of their denominators, which makes it whole.
fn cross_difference(x: &Fraction, y: &Fraction) -> u128
    requires first { IsPlain x.now }
    requires second { IsPlain y.now }
    ensures apart { result ≡ unsigned_abs (x.now.numerator *ℤ y.now.denominator -ℤ y.now.numerator *ℤ x.now.denominator) }
    ensures few { result < 2 * 10 ^ 27 }
{
    cross_product(x, y).abs_diff(cross_product(y, x))
}

// The numerator of `x` times the denominator of `y`: one of the two products by whose difference `x` and `y`
// are apart.
fn cross_product(x: &Fraction, y: &Fraction) -> i128
    requires first { IsPlain x.now }
    requires second { IsPlain y.now }
    ensures product { result ≡ x.now.numerator *ℤ y.now.denominator }
    ensures few { unsigned_abs result < 10 ^ 27 }
{
    x.numerator() * i128::from(denominator_of(y))
}

// The denominator of a number, in a word of 64 bits, which is multiplied faster than one of 128.
fn denominator_of(x: &Fraction) -> u64
    requires { IsPlain x.now }
    ensures size { x.now.denominator ≡ pos result }
    ensures some { 1 ≤ result }
    ensures few { result ≤ 10 ^ 6 }
{
    x.denominator() as u64
}

#[cfg(test)]
mod tests {
    use super::*;

    // The value with this numerator over this denominator. None where one of them is not as small as those
    // of records, or the denominator is below 1.
    fn number(numerator: i128, denominator: i128) -> Option<Value>
        ensures { IfSome result (λ v. (scale : ℕ) → IsMeasurable (Some scale) v) }
    {
        let small = numerator.unsigned_abs() < 1_000_000_000_000_000_000_000;
        if !small || denominator < 1 || denominator > 1_000_000 {
            return None;
        }
        plain_value(Fraction::reduced(numerator, denominator))
    }

    // The fraction, which is in lowest terms, as a value. None where its numerator or denominator is not as
    // small as those of records.
    fn plain_value(x: Fraction) -> Option<Value>
        ensures { IfSome result (λ v. (scale : ℕ) → IsMeasurable (Some scale) v) }
    {
        let small = x.numerator().unsigned_abs() < 1_000_000_000_000_000_000_000;
        if small && x.denominator() <= 1_000_000 {
            Some(Value::Number(x))
        } else {
            None
        }
    }

    // The distance of two numbers at a field of this weight and scale. Each number is a numerator and a
    // denominator. None where a part is past what surveys and records may have.
    fn apart_at(weight: u32, scale: u64, first: (i128, i128), second: (i128, i128)) -> Option<u64> {
        if weight > 1000 || scale < 1 || scale > 1_000_000_000_000 {
            return None;
        }
        let yardstick = Yardstick {
            weight,
            scale: Some(scale),
        };
        let first = number(first.0, first.1)?;
        let second = number(second.0, second.1)?;
        Some(distance_by(yardstick, &first, &second))
    }

    // Each row has the field's weight and scale, the two numbers, and their distance.
    #[test]
    fn numbers_are_measured_in_thousandths_of_the_scale(rt: HostRuntime) {
        let table: [(u32, u64, (i128, i128), (i128, i128), u64); 27] = [
            (1, 3000, (7, 1), (7, 1), 0),
            (1, 3000, (7, 1), (9, 1), 0),
            (1, 3000, (7, 1), (10, 1), 1),
            (1, 3000, (7, 1), (11, 1), 1),
            (1, 3000, (2999, 1), (0, 1), 999),
            (1, 3000, (3000, 1), (0, 1), 1000),
            (1, 3000, (3001, 1), (0, 1), 1000),
            (1, 3, (-1, 1), (1, 1), 666),
            (1, 1, (0, 1), (1, 1001), 0),
            (1, 1, (0, 1), (1, 1000), 1),
            (1, 1, (0, 1), (1, 999), 1),
            (1, 1, (1, 2), (1, 3), 166),
            (1, 1, (2, 3), (1, 6), 500),
            (1, 10, (7, 2), (10, 3), 16),
            (1, 2, (-1, 2), (1, 2), 500),
            (2, 1, (2, 5), (3, 7), 56),
            (1000, 1000, (0, 1), (-999, 1), 999_000),
            (1000, 1000, (0, 1), (-1000, 1), 1_000_000),
            (1000, 1, (1, 2), (-99_999, 1), 1_000_000),
            (1, 1_000_000_000_000, (999_999_999_999, 1), (0, 1), 999),
            (1, 1_000_000_000_000, (1_000_000_000_000, 1), (0, 1), 1000),
            (
                1,
                1_000_000_000_000,
                (4_999_999_999_999_999, 10_000),
                (0, 1),
                499,
            ),
            (
                1,
                1_000_000_000_000,
                (5_000_000_000_000_001, 10_000),
                (0, 1),
                500,
            ),
            (
                1,
                1_000_000_000_000,
                (499_999_999_999_999_999, 1_000_000),
                (0, 1),
                499,
            ),
            (
                1,
                1_000_000_000_000,
                (500_000_000_000_000_001, 1_000_000),
                (0, 1),
                500,
            ),
            (
                1,
                1_000_000_000_000,
                (999_999_999_999_999_999, 1_000_000),
                (0, 1),
                999,
            ),
            (
                3,
                1_000_000_000_000,
                (-999_999_999_999_999_999_999, 1_000_000),
                (999_999_999_999_999_999_999, 1_000_000),
                3000,
            ),
        ];
        for (weight, scale, first, second, distance) in table.iter() {
            assert_eq!(rt; apart_at(*weight, *scale, *first, *second), Some(*distance));
        }
    }

    // Each row has the field's weight, the numbers of two codes, and their distance.
    #[test]
    fn codes_are_equal_or_not(rt: HostRuntime) {
        for (weight, first, second, distance) in [
            (1, 2, 2, 0),
            (1, 2, 3, 1000),
            (1000, 0, 0, 0),
            (1000, 63, 0, 1_000_000),
        ]
        .iter()
        {
            let yardstick = Yardstick {
                weight: *weight,
                scale: None,
            };
            assert_eq!(rt;
                distance_by(yardstick, &Value::Code(*first), &Value::Code(*second)),
                *distance
            );
        }
    }
}
