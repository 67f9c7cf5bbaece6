//! Tokens that no letter and no digit begins: comparisons, signs and the other marks.
//!
//! In contracts, `IsFront` says that these are the token and the text behind it.
ghost use Rattle.std.specs.Prelude.{◌≡◌};
ghost use Rattle.rule_grammar.specs.inner.Cursors.{IsFront};
ghost use Rattle.rule_grammar.specs.Tokens.{front_compare, list_mark_token, mark_token};

use super::lexeme::Lexeme;
use crate::token::{Sign, Token};
use edit_model::Compare;

/// The comparison whose first byte, `<` or `>`, stands before the text. It is `wide` where `=` follows,
/// which is then taken as well, and else `strict`.
pub(super) fn first_compare<'a>(wide: Compare, strict: Compare, text: &'a [u8]) -> Lexeme<'a>
    ensures { IsFront (front_compare wide strict text.now) result.token result.rest.now }
{
    match text.split_first() {
        Some((mark, rest)) if *mark == b'=' => Lexeme {
            token: Token::Compare(wide),
            rest,
        },
        _ => Lexeme {
            token: Token::Compare(strict),
            rest: text,
        },
    }
}

/// The token of one byte outside braces; `<` and `>` don't come here. A byte that is no mark is a stray
/// one, which no statement takes.
pub(super) fn mark_token(byte: u8) -> Token
    ensures { result ≡ mark_token byte }
{
    match byte {
        b'=' => Token::Compare(Compare::Eq),
        b'+' => Token::Sign(Sign::Plus),
        b'-' => Token::Sign(Sign::Minus),
        b'*' => Token::Times,
        b'{' => Token::Open,
        _ => Token::Stray,
    }
}

/// The token of one byte inside braces. A byte that is no mark there is a stray one, which no statement
/// takes.
pub(super) fn list_mark_token(byte: u8) -> Token
    ensures { result ≡ list_mark_token byte }
{
    match byte {
        b',' => Token::Comma,
        b'}' => Token::Close,
        _ => Token::Stray,
    }
}
