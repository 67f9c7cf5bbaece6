//! The numbers of a line divided by their greatest common divisor, so that they stay small. Where they fit
//! in 64 bits the work is done there, which is faster.
ghost use Rattle.std.specs.Prelude.{◌≡◌, ◌<ℤ◌, ◌∷◌, All, IfSome, if◌then◌else◌, int_div, int_lt, map, neg_ℤ, pos, unsigned_abs};
ghost use Rattle.fraction128.specs.Divisor as euclid;
ghost use Rattle.fraction128.specs.Divisor.{int_gcd};
ghost use Rattle.fraction128.specs.Range.{InRange};
ghost use Rattle.edit_line.specs.Divisors.{gcd_all};
ghost use Rattle.edit_line.specs.Divisors as divisors;

use fraction128::gcd;

/// The greatest common divisor of the numbers, or 1 where they are all 0. They are in range. No memory.
pub(crate) fn divisor_of(factors: &[i128], constant: i128) -> i128
    requires factors { All InRange factors.now }
    requires constant { InRange constant }
    ensures value { result ≡ divisors.divisor_of factors.now constant }
    ensures positive { pos 0 <ℤ result }
    ensures in_range { InRange result }
{
    let divisor = gcd_of(factors, constant);
    if divisor == 0 { 1 } else { divisor }
}

/// Divides each of the numbers by the positive divisor, toward zero. No memory.
pub(crate) fn divide_all(numbers: &mut Vec<i128>, divisor: i128)
    requires { pos 0 <ℤ divisor }
    ensures { numbers.new.items ≡ map (λ c. int_div c divisor) numbers.old.items }
{
    if divisor == 1 {
        return;
    }
    for i in 0..numbers.len() {
        numbers[i] = quotient(numbers[i], divisor);
    }
}

/// The quotient by a positive divisor, rounded toward zero. By 1 nothing is divided, for speed. No memory.
pub fn quotient(number: i128, divisor: i128) -> i128
    requires { pos 0 <ℤ divisor }
    ensures { result ≡ int_div number divisor }
{
    if divisor == 1 {
        return number;
    }
    quotient_of(number, divisor)
}

// The quotient by any positive divisor, rounded toward zero: `quotient` without its short way for 1. It
// is found in 64 bits where both numbers, without their signs, fit there.
fn quotient_of(number: i128, divisor: i128) -> i128
    requires { pos 0 <ℤ divisor }
    ensures { result ≡ int_div number divisor }
{
    match (word_of(number), word_of(divisor)) {
        (Some(size), Some(by)) => with_sign(number, size / by),
        _ => long_quotient(number, divisor),
    }
}

// The quotient in 128 bits, for numbers that 64 bits do not hold.
fn long_quotient(number: i128, divisor: i128) -> i128
    requires { pos 0 <ℤ divisor }
    ensures { result ≡ int_div number divisor }
{
    number / divisor
}

// The number of this size, below 0 where `other` is, and else not.
fn with_sign(other: i128, size: u64) -> i128
    ensures { result ≡ (if int_lt other (pos 0) then neg_ℤ (pos size) else pos size) }
{
    if other < 0 {
        -i128::from(size)
    } else {
        i128::from(size)
    }
}

// The greatest common divisor of the numbers, 0 where they are all 0. It looks no further than where that
// is 1.
fn gcd_of(factors: &[i128], constant: i128) -> i128
    requires factors { All InRange factors.now }
    requires constant { InRange constant }
    ensures { result ≡ pos (gcd_all (constant ∷ factors.now)) }
{
    let mut divisor = common_divisor(0, constant);
    for factor in factors {
        if divisor == 1 {
            return divisor;
        }
        divisor = common_divisor(divisor, *factor);
    }
    divisor
}

// The greatest common divisor of two numbers. It is found in 64 bits where both fit.
fn common_divisor(a: i128, b: i128) -> i128
    requires a_in_range { InRange a }
    requires b_in_range { InRange b }
    ensures value { result ≡ int_gcd a b }
    ensures in_range { InRange result }
{
    match (word_of(a), word_of(b)) {
        (Some(first), Some(second)) => i128::from(gcd_of_words(first, second)),
        _ => gcd(a, b),
    }
}

// The number without its sign, as a number of 64 bits; None where it has no room there.
fn word_of(number: i128) -> Option<u64>
    ensures { IfSome result (λ word. word ≡ unsigned_abs number) }
{
    let size = number.unsigned_abs();
    if size < 0x1_0000_0000_0000_0000 {
        Some(size as u64)
    } else {
        None
    }
}

// The greatest common divisor of two numbers of 64 bits, by Euclid's remainders.
fn gcd_of_words(a: u64, b: u64) -> u64
    ensures { result ≡ euclid.gcd a b }
{
    let mut divisor = a;
    let mut remainder = b;
    while remainder != 0 {
        let rest = divisor % remainder;
        divisor = remainder;
        remainder = rest;
    }
    divisor
}
