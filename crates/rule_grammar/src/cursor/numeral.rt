//! Numerals at the front of a text.
//!
//! In contracts, `IsFront` says that these are the token and the text behind it.
ghost use Rattle.std.specs.Prelude.{◌≡◌, ◌≤◌, length, true};
ghost use Rattle.std.specs.List.{list_all};
ghost use Rattle.edit_model.specs.Surveys.{is_digit};
ghost use Rattle.rule_grammar.specs.inner.Cursors.{IsFront};
ghost use Rattle.rule_grammar.specs.Tokens.{decimals_len, front_numeral, whole_numeral};

use super::lexeme::Lexeme;
use super::run::digits_len;
use crate::token::{Numeral, Token};

/// The greatest number that the language has a place for.
const MOST: u64 = 1_000_000_000_000_000;

/// The numeral at the front of a text that begins with a digit, and the text after it. One with a point
/// and digits is `OutOfRange`, as the language has whole numbers alone. A point without a digit behind it
/// is no part of it.
pub(super) fn first_numeral<'a>(text: &'a [u8]) -> Lexeme<'a>
    ensures { IsFront (front_numeral text.now) result.token result.rest.now }
{
    let (digits, rest) = text.split_at(digits_len(text));
    let decimals = decimals_len(rest);
    if decimals == 0 {
        return Lexeme {
            token: Token::Numeral(whole_numeral(digits)),
            rest,
        };
    }
    Lexeme {
        token: Token::Numeral(Numeral::OutOfRange),
        rest: &rest[decimals..],
    }
}

// How many bytes the decimals at the front take: a point and one digit or more. 0 where the text begins
// with none.
fn decimals_len(text: &[u8]) -> usize
    ensures count { result ≡ decimals_len text.now }
    ensures within { result ≤ length text.now }
{
    match text.split_first() {
        Some((point, decimals)) if *point == b'.' => {
            let digits = digits_len(decimals);
            if digits == 0 { 0 } else { 1 + digits }
        }
        _ => 0,
    }
}

// The number that the digits spell, or `OutOfRange` where it is above 10^15. There may be thousands of
// digits, so it stops as soon as the number is too great.
fn whole_numeral(digits: &[u8]) -> Numeral
    requires { list_all is_digit digits.now ≡ true }
    ensures { result ≡ whole_numeral digits.now }
{
    let mut number = 0;
    for digit in digits {
        number = number * 10 + u64::from(*digit - b'0');
        if number > MOST {
            return Numeral::OutOfRange;
        }
    }
    Numeral::Whole(number)
}
