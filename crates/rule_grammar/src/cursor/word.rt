//! Words and codes at the front of a text.
//!
//! In contracts, `IsFront` says that these are the token and the text behind it.
ghost use Rattle.std.specs.Prelude.{◌≡◌, ◌≤◌, length};
ghost use Rattle.rule_grammar.specs.inner.Cursors.{IsFront};
ghost use Rattle.rule_grammar.specs.Tokens.{word_token};
ghost use Rattle.rule_grammar.specs.inner.Fronts.{code_len, front_code, front_word, word_len};

use super::lexeme::Lexeme;
use super::run::{code_len, word_len};
use crate::token::{Keyword, Token};
use edit_model::Name;

/// The word at the front of a text that begins with a letter, and the text after it.
pub(super) fn first_word<'a>(text: &'a [u8]) -> Lexeme<'a>
    requires { 1 ≤ word_len text.now }
    ensures { IsFront (front_word text.now) result.token result.rest.now }
{
    let (word, rest) = text.split_at(word_len(text));
    Lexeme {
        token: word_token(word),
        rest,
    }
}

/// The code at the front of a text that begins with a byte of codes (`is_code_byte`), and the text after
/// it.
pub(super) fn first_code<'a>(text: &'a [u8]) -> Lexeme<'a>
    requires { 1 ≤ code_len text.now }
    ensures { IsFront (front_code text.now) result.token result.rest.now }
{
    let (code, rest) = text.split_at(code_len(text));
    Lexeme {
        token: code_token(code),
        rest,
    }
}

// The keyword that a word is, or else the name of a field. Keywords are written in small letters.
fn word_token(word: &[u8]) -> Token
    requires { (1 ≤ length word.now) × (length word.now ≤ 32) }
    ensures { result ≡ word_token word.now }
{
    if word == b"number".as_slice() {
        Token::Keyword(Keyword::Number)
    } else if word == b"code".as_slice() {
        Token::Keyword(Keyword::Code)
    } else if word == b"weight".as_slice() {
        Token::Keyword(Keyword::Weight)
    } else if word == b"scale".as_slice() {
        Token::Keyword(Keyword::Scale)
    } else if word == b"in".as_slice() {
        Token::Keyword(Keyword::In)
    } else if word == b"not".as_slice() {
        Token::Keyword(Keyword::Not)
    } else if word == b"if".as_slice() {
        Token::Keyword(Keyword::If)
    } else if word == b"and".as_slice() {
        Token::Keyword(Keyword::And)
    } else if word == b"then".as_slice() {
        Token::Keyword(Keyword::Then)
    } else {
        Token::Name(name_of(word))
    }
}

// The token of the code that has these bytes, 1 to 32 of them. Inside braces no word is a keyword.
fn code_token(code: &[u8]) -> Token
    requires { (1 ≤ length code.now) × (length code.now ≤ 32) }
    ensures { result ≡ Token.Code code.now }
{
    Token::Code(name_of(code))
}

// The bytes as a name. There are 1 to 32 of them, as a name asks, so that `unwrap` does not fail.
fn name_of(bytes: &[u8]) -> Name
    requires { (1 ≤ length bytes.now) × (length bytes.now ≤ 32) }
    ensures { result ≡ bytes.now }
{
    Name::new(bytes).unwrap()
}
