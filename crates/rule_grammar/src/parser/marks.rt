//! Single tokens at the front: whether one of some kind comes next, and taking it. A token of another kind
//! is taken as well where None is answered, since nothing more is read then.
//!
//! In contracts `name_at` and its like are what the grammar reads at the front of the tokens. `Reads` says
//! that a call without memory answers just that and leaves the tokens behind it, or answers None where
//! that is nothing. `begins` says that a token of this kind is at the front, and `rest_of` are the tokens
//! behind it.
ghost use Rattle.std.specs.Prelude.{◌≡◌, if◌then◌else◌};
ghost use Rattle.rule_grammar.specs.inner.Parsing.{Reads, begins, code_at, compare_at, ends, is_comma, is_name_token, is_sign, is_word};
ghost use Rattle.rule_grammar.specs.inner.Parsing.{name_at, numeral_at, rest_of, sign_at};

use crate::cursor::Cursor;
use crate::token::{Keyword, Numeral, Sign, Token};
use edit_model::{Compare, Name};

/// Whether no token is left on the line: the text has ended, or has blanks alone.
pub(crate) fn is_over(cursor: &Cursor) -> bool
    ensures { result ≡ ends cursor.now }
{
    cursor.front().is_none()
}

/// Whether the keyword `wanted` is at the front. It is taken where it is; any other token is left there.
pub(crate) fn take_word(cursor: &mut Cursor, wanted: Keyword) -> bool
    ensures found { result ≡ begins (is_word wanted) cursor.old }
    ensures left { cursor.new ≡ (if result then rest_of cursor.old else cursor.old) }
{
    match cursor.front() {
        Some(Token::Keyword(word)) if *word == wanted => {
            cursor.take();
            true
        }
        _ => false,
    }
}

/// Whether the keyword `wanted` is at the front. It is left there.
pub(crate) fn has_word(cursor: &Cursor, wanted: Keyword) -> bool
    ensures { result ≡ begins (is_word wanted) cursor.now }
{
    match cursor.front() {
        Some(Token::Keyword(word)) => *word == wanted,
        _ => false,
    }
}

/// Whether the name of a field is at the front. It is left there.
pub(crate) fn has_name(cursor: &Cursor) -> bool
    ensures { result ≡ begins is_name_token cursor.now }
{
    matches!(cursor.front(), Some(Token::Name(_)))
}

/// Whether a sign is at the front. It is left there.
pub(crate) fn has_sign(cursor: &Cursor) -> bool
    ensures { result ≡ begins is_sign cursor.now }
{
    matches!(cursor.front(), Some(Token::Sign(_)))
}

/// Whether a comma is at the front. It is left there.
pub(crate) fn has_comma(cursor: &Cursor) -> bool
    ensures { result ≡ begins is_comma cursor.now }
{
    matches!(cursor.front(), Some(Token::Comma))
}

/// Takes the name of a field, or answers None where another token or none comes next.
pub(crate) fn take_name(cursor: &mut Cursor) -> Option<Name>
    ensures { Reads (name_at cursor.old) cursor.new result }
{
    match cursor.take() {
        Some(Token::Name(name)) => Some(name),
        _ => None,
    }
}

/// Takes a numeral, or answers None where another token or none comes next.
pub(crate) fn take_numeral(cursor: &mut Cursor) -> Option<Numeral>
    ensures { Reads (numeral_at cursor.old) cursor.new result }
{
    match cursor.take() {
        Some(Token::Numeral(number)) => Some(number),
        _ => None,
    }
}

/// Takes a code, or answers None where another token or none comes next.
pub(crate) fn take_code(cursor: &mut Cursor) -> Option<Name>
    ensures { Reads (code_at cursor.old) cursor.new result }
{
    match cursor.take() {
        Some(Token::Code(code)) => Some(code),
        _ => None,
    }
}

/// Takes a sign, or answers None where another token or none comes next.
pub(crate) fn take_sign(cursor: &mut Cursor) -> Option<Sign>
    ensures { Reads (sign_at cursor.old) cursor.new result }
{
    match cursor.take() {
        Some(Token::Sign(sign)) => Some(sign),
        _ => None,
    }
}

/// Takes a comparison, or answers None where another token or none comes next.
pub(crate) fn take_compare(cursor: &mut Cursor) -> Option<Compare>
    ensures { Reads (compare_at cursor.old) cursor.new result }
{
    match cursor.take() {
        Some(Token::Compare(compare)) => Some(compare),
        _ => None,
    }
}
