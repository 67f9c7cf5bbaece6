//! The fraction that a text of a numerical field spells: a whole number, a decimal number or a quotient. A
//! sign may stand in front. `docs/record-files.md` has the limits on digits.
//!
//! In contracts, `IsNumeral` says that a text spells a fraction, and `IsUnsigned` that it does so without
//! a sign. `SpellsDecimal` and `SpellsQuotient` say so of the two sides of a point or a stroke.
//! `AreDigits most` says that a text is digits alone, at most `most` of them.
ghost use Rattle.std.specs.Prelude.{◌≡◌, ◌<◌, ◌≤◌, ◌^◌, ◌*ℤ◌, IfSome, IfNone, ℕ, pos, position};
ghost use Rattle.std.specs.Str.Parse.{digits_value};
ghost use Rattle.fraction128.specs.declared.fraction.Fraction.{Fraction as Spelled};
ghost use Rattle.record_text.specs.Numerals.{AreDigits, SpellsDecimal, IsNumeral, SpellsQuotient, IsUnsigned, has_minus, without_sign};
ghost use Rattle.record_text.specs.inner.Marks.{is_mark, signed};

use fraction128::Fraction;

/// The most digits before a point.
const MOST_WHOLE: usize = 15;

/// The most digits behind a point.
const MOST_DECIMALS: usize = 6;

/// The most digits above a stroke.
const MOST_ABOVE: usize = 21;

/// The most digits below a stroke.
const MOST_BELOW: usize = 7;

/// The greatest denominator.
const MOST_DENOMINATOR: u128 = 1_000_000;

/// What a numeral spells without its sign. It need not be in lowest terms, and the denominator is from 1 to
/// 10^6.
#[derive(Clone, Copy)]
struct Ratio {
    numerator: u128,
    denominator: u128,
}

/// The fraction that a numeral spells, in lowest terms, or None where the text is no numeral. Blanks at the
/// ends are no part of a numeral: the caller has trimmed the text. No memory.
pub(crate) fn fraction_of_text(text: &[u8]) -> Option<Fraction>
    ensures some { IfSome result (λ x. IsNumeral text.now x) }
    ensures none { IfNone result ((x : Spelled) → ¬ IsNumeral text.now x) }
{
    let ratio = unsigned_ratio(without_sign(text))?;
    Some(signed_fraction(has_minus(text), ratio))
}

/// Whether the text begins with a minus sign.
fn has_minus(text: &[u8]) -> bool
    ensures { result ≡ has_minus text.now }
{
    match text.split_first() {
        Some((first, _)) => *first == b'-',
        None => false,
    }
}

/// What follows the sign, `+` or `-`, or the whole text where there is no sign.
fn without_sign(text: &[u8]) -> &[u8]
    ensures { result.now ≡ without_sign text.now }
{
    match text.split_first() {
        Some((first, rest)) => {
            if *first == b'+' || *first == b'-' {
                rest
            } else {
                text
            }
        }
        None => text,
    }
}

/// The fraction `ratio` in lowest terms, negative where `minus` says so. Minus zero is zero. Both numbers of
/// `ratio` are from a numeral, so they are small enough for a fraction.
fn signed_fraction(minus: bool, ratio: Ratio) -> Fraction
    requires numerator { ratio.numerator < 10 ^ 21 }
    requires denominator { (1 ≤ ratio.denominator) × (ratio.denominator ≤ 1000000) }
    ensures { result.numerator *ℤ pos ratio.denominator ≡ signed minus ratio.numerator *ℤ result.denominator }
{
    let size = ratio.numerator as i128;
    let denominator = ratio.denominator as i128;
    if minus {
        Fraction::reduced(-size, denominator)
    } else {
        Fraction::reduced(size, denominator)
    }
}

/// What a text without its sign spells: digits, digits with a point before, among or behind them, or a
/// quotient. None where it is none of these, or has too many digits or too great a denominator.
fn unsigned_ratio(text: &[u8]) -> Option<Ratio>
    ensures some { IfSome result (λ ratio. IsUnsigned text.now ratio.numerator ratio.denominator) }
    ensures none { IfNone result ((numerator denominator : ℕ) → ¬ IsUnsigned text.now numerator denominator) }
{
    let Some(place) = mark_place(text) else {
        return decimal_ratio(text, &[]);
    };
    let front = &text[..place];
    let behind = &text[place + 1..];
    if text[place] == b'.' {
        decimal_ratio(front, behind)
    } else {
        quotient_ratio(front, behind)
    }
}

/// The place, from 0, of the first point or stroke, which says of what form the numeral is. None where
/// there is neither, as in a whole number.
fn mark_place(text: &[u8]) -> Option<usize>
    ensures { result ≡ position is_mark text.now }
{
    text.iter().position(|b| *b == b'.' || *b == b'/')
}

/// The number with `whole` before the point and `decimals` behind it, over a power of ten: `12` and `50`
/// give 1250 over 100. None where neither side has a digit, or one has too many digits or another byte.
fn decimal_ratio(whole: &[u8], decimals: &[u8]) -> Option<Ratio>
    ensures some { IfSome result (λ ratio. SpellsDecimal whole.now decimals.now ratio.numerator ratio.denominator) }
    ensures none { IfNone result ((numerator denominator : ℕ) → ¬ SpellsDecimal whole.now decimals.now numerator denominator) }
{
    if whole.is_empty() && decimals.is_empty() {
        return None;
    }
    let before = number_of_digits(whole, MOST_WHOLE)?;
    let behind = number_of_digits(decimals, MOST_DECIMALS)?;
    let denominator = 10_u128.pow(decimals.len() as u32);
    Some(Ratio {
        numerator: before * denominator + behind,
        denominator,
    })
}

/// The quotient with the digits `above` and `below` its stroke. None where no digit stands above, or where
/// one side has too many digits or another byte. None also where the denominator is above 10^6 or 0, as it
/// is without digits below.
fn quotient_ratio(above: &[u8], below: &[u8]) -> Option<Ratio>
    ensures some { IfSome result (λ ratio. SpellsQuotient above.now below.now ratio.numerator ratio.denominator) }
    ensures none { IfNone result ((numerator denominator : ℕ) → ¬ SpellsQuotient above.now below.now numerator denominator) }
{
    if above.is_empty() {
        return None;
    }
    let numerator = number_of_digits(above, MOST_ABOVE)?;
    let denominator = number_of_digits(below, MOST_BELOW)?;
    if denominator == 0 || denominator > MOST_DENOMINATOR {
        return None;
    }
    Some(Ratio {
        numerator,
        denominator,
    })
}

/// The number that the digits spell, 0 where there are none. None where some byte is no digit, or there
/// are more than `most`. `most` is at most 21, so that the number fits 128 bits.
fn number_of_digits(digits: &[u8], most: usize) -> Option<u128>
    requires { most ≤ 21 }
    ensures some { IfSome result (λ n. AreDigits most digits.now × (n ≡ digits_value 10 digits.now)) }
    ensures none { IfNone result (¬ AreDigits most digits.now) }
{
    if digits.len() > most {
        return None;
    }
    let mut number = 0;
    for digit in digits {
        if !digit.is_ascii_digit() {
            return None;
        }
        number = number * 10 + u128::from(*digit - b'0');
    }
    Some(number)
}
