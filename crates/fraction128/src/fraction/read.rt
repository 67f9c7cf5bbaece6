//! Fractions read from their canonical spelling, such as `-3` or `1/2`: one text for each fraction.
ghost use Rattle.std.specs.Prelude.{◌≡◌, IfSome, ℤ};
ghost use Rattle.std.specs.Fmt.{signed_decimal};
ghost use Rattle.fraction128.specs.declared.fraction.Fraction.{Fraction};
ghost use Rattle.fraction128.specs.Range.{InRange};
ghost use Rattle.fraction128.specs.Spelling.{spelling};

use crate::{Fraction, gcd};
use itoa::Buffer;

impl Fraction {
    /// The fraction that the bytes spell canonically; None for any other text, such as `2/4`, `3/1`, `+1`
    /// or `-0`. No memory.
    pub fn read_text(bytes: &[u8]) -> Option<Fraction>
        ensures canonical { IfSome result (λ x. spelling x ≡ bytes.now) }
        ensures reads { (x : Fraction) → spelling x ≡ bytes.now → result ≡ Some x }
    {
        let Ok(text) = str::from_utf8(bytes) else {
            return None;
        };
        match text.split_once('/') {
            None => in_lowest_terms(read_whole(text)?, 1),
            Some((above, below)) => {
                let numerator = read_whole(above)?;
                let denominator = read_whole(below)?;
                if denominator == 1 {
                    return None;
                }
                in_lowest_terms(numerator, denominator)
            }
        }
    }
}

/// The fraction with these two numbers as they were read, or None where the denominator is not positive
/// or they have a common divisor above 1. Such numbers are no canonical spelling.
fn in_lowest_terms(numerator: i128, denominator: i128) -> Option<Fraction>
    requires numerator_in_range { InRange numerator }
    requires denominator_in_range { InRange denominator }
    ensures made { IfSome result (λ x. (x.numerator ≡ numerator) × (x.denominator ≡ denominator)) }
    ensures found { (x : Fraction) → x.numerator ≡ numerator → x.denominator ≡ denominator →
        result ≡ Some x }
{
    if denominator > 0 && gcd(numerator, denominator) == 1 {
        Some(Fraction::from_lowest_terms(numerator, denominator))
    } else {
        None
    }
}

/// The whole number in range that the text spells as it is printed: no plus, no zero in front, and no minus
/// at 0. None for any other text. That it was printed so is seen by printing it again.
fn read_whole(text: &str) -> Option<i128>
    ensures canonical { IfSome result (λ n. InRange n × (signed_decimal n ≡ text.now)) }
    ensures reads { (n : ℤ) → InRange n → signed_decimal n ≡ text.now → result ≡ Some n }
{
    let Ok(number) = text.parse::<i128>() else {
        return None;
    };
    let mut buffer = Buffer::new();
    if number != i128::MIN && buffer.format(number) == text {
        Some(number)
    } else {
        None
    }
}
