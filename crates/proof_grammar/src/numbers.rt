//! Numbers that are spelled by one word, each in its only spelling. Each call answers None where the word
//! is no such number. What is named from 1 on in the text is numbered from 0 in memory. In contracts,
//! `long_said` and its like are these readings.
ghost use Rattle.std.specs.Prelude.{◌≡◌, ◌<◌, ◌^◌, IfSome, suc};
ghost use Rattle.proof_grammar.specs.Words.{decimal_said, divisor_said, long_said, named_long, named_short, named_short_or_0, place_said, positive_said, short_said, whole_said};

use edit_line::Place;
use itoa::Buffer;

/// The number that the word spells as it is printed: digits alone, no zero in front, and below 2^128. None
/// for any other word. It is printed again to see that, since `parse` also takes a plus and zeros.
fn read_decimal(word: &[u8]) -> Option<u128>
    ensures { result ≡ decimal_said word.now }
{
    let Ok(text) = str::from_utf8(word) else {
        return None;
    };
    let Ok(number) = text.parse::<u128>() else {
        return None;
    };
    let mut buffer = Buffer::new();
    if buffer.format(number) == text {
        Some(number)
    } else {
        None
    }
}

/// The number below 2^64 that the word spells. None for any other word.
pub fn read_u64(word: &[u8]) -> Option<u64>
    ensures { result ≡ long_said word.now }
{
    let number = read_decimal(word)?;
    if number <= u64::MAX as u128 {
        Some(number as u64)
    } else {
        None
    }
}

/// The number below 2^32 that the word spells. None for any other word.
pub fn read_u32(word: &[u8]) -> Option<u32>
    ensures { result ≡ short_said word.now }
{
    let number = read_decimal(word)?;
    if number <= u32::MAX as u128 {
        Some(number as u32)
    } else {
        None
    }
}

/// The number, from 0, of a line or a step whose name is from 1 to 2^64: one less than the name. None for
/// any other word.
pub fn read_named_u64(word: &[u8]) -> Option<u64>
    ensures { result ≡ named_long word.now }
{
    let number = read_decimal(word)?;
    if number == 0 || number - 1 > u64::MAX as u128 {
        None
    } else {
        Some((number - 1) as u64)
    }
}

/// The number, from 0, of a field, a rule, a row or a donor whose name is from 1 to 2^32. It is one less
/// than the name. None for any other word.
pub fn read_named_u32(word: &[u8]) -> Option<u32>
    ensures { result ≡ named_short word.now }
{
    let number = read_decimal(word)?;
    if number == 0 || number - 1 > u32::MAX as u128 {
        None
    } else {
        Some((number - 1) as u32)
    }
}

/// One less than the number from 1 to 2^64 - 1 that the word spells, for the weight of a change. None for
/// the word 0, since a change of weight 0 is spelled `clean`, and for any other word.
pub fn read_one_less(word: &[u8]) -> Option<u64>
    ensures read { result ≡ positive_said word.now }
    ensures fits { IfSome result (λ less. suc less < 2 ^ 64) }
{
    let number = read_decimal(word)?;
    if number == 0 || number > u64::MAX as u128 {
        None
    } else {
        Some((number - 1) as u64)
    }
}

/// The place of a number in a line: the field of this name, from 1 to 2^32, or the constant for the word
/// 0. None for any other word.
pub fn read_place(word: &[u8]) -> Option<Place>
    ensures { result ≡ place_said word.now }
{
    match read_named_u32_or_none(word) {
        None => None,
        Some(None) => Some(Place::Constant),
        Some(Some(field)) => Some(Place::Field(field)),
    }
}

/// The number, from 0, of what is named from 1 to 2^32; the inner None for the word 0, which names
/// nothing. The outer None for any other word.
pub fn read_named_u32_or_none(word: &[u8]) -> Option<Option<u32>>
    ensures { result ≡ named_short_or_0 word.now }
{
    let number = read_decimal(word)?;
    if number == 0 {
        Some(None)
    } else if number - 1 > u32::MAX as u128 {
        None
    } else {
        Some(Some((number - 1) as u32))
    }
}

/// The whole number in range that the word spells as it is printed: no plus, no zero in front, and no
/// minus at 0. None for any other word. Out of range is -2^127, since numbers are of absolute value at
/// most 2^127 - 1.
pub fn read_whole(word: &[u8]) -> Option<i128>
    ensures { result ≡ whole_said word.now }
{
    let Ok(text) = str::from_utf8(word) else {
        return None;
    };
    let Ok(number) = text.parse::<i128>() else {
        return None;
    };
    let mut buffer = Buffer::new();
    if number != i128::MIN && buffer.format(number) == text {
        Some(number)
    } else {
        None
    }
}

/// The whole number from 0 to 2^127 - 1 that the word spells, for the divisor of a combination. None for
/// any other word. That 0 divides nothing is a condition on a proof, and not on its text.
pub fn read_divisor(word: &[u8]) -> Option<i128>
    ensures { result ≡ divisor_said word.now }
{
    let number = read_whole(word)?;
    if 0 <= number { Some(number) } else { None }
}
