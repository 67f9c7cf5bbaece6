//! The first token of a text, and the text after it. Inside braces a text falls into codes and marks, and
//! outside into words, numerals and marks.
//!
//! In contracts, `tokens_from inside` are the tokens of a text that begins inside braces, or outside.
//! `IsFrontOf inside` says that these are the token at the front of such a text, and the text behind it.
ghost use Rattle.std.specs.Prelude.{◌≡◌, [], ◌∷◌, IfSome, IfNone, false, true};
ghost use Rattle.rule_grammar.specs.inner.Cursors.{IsFrontOf};
ghost use Rattle.rule_grammar.specs.Tokens.{after_blanks, is_inside_after};
ghost use Rattle.rule_grammar.specs.inner.Fronts.{tokens_from};

use super::byte::{is_code_byte, is_digit, is_letter};
use super::mark::{first_compare, list_mark_token, mark_token};
use super::numeral::first_numeral;
use super::run::blanks_len;
use super::word::{first_code, first_word};
use crate::token::Token;
use edit_model::Compare;

/// A token, and the text after it.
#[derive(Drop)]
pub(super) struct Lexeme<'a> {
    pub(super) token: Token,
    pub(super) rest: &'a [u8],
}

/// The first token of a text that begins inside braces (`inside`) or outside, with the text after it. None
/// where the text has no token: it is blanks alone, or empty.
pub(super) fn first_lexeme<'a>(inside: bool, text: &'a [u8]) -> Option<Lexeme<'a>>
    ensures some { IfSome result (λ l. tokens_from inside text.now
        ≡ l.token ∷ tokens_from (is_inside_after inside l.token) l.rest.now) }
    ensures none { IfNone result (tokens_from inside text.now ≡ []) }
{
    let text = without_blanks(text);
    if inside {
        lexeme_in_braces(text)
    } else {
        lexeme_outside(text)
    }
}

// The text without the blanks at its front.
fn without_blanks<'a>(text: &'a [u8]) -> &'a [u8]
    ensures { result.now ≡ after_blanks text.now }
{
    &text[blanks_len(text)..]
}

// The token at the front of a text outside braces, which begins with no blank. None where the text is
// empty. The first byte tells the kind of the token.
fn lexeme_outside<'a>(text: &'a [u8]) -> Option<Lexeme<'a>>
    ensures some { IfSome result (λ l. IsFrontOf false text.now l.token l.rest.now) }
    ensures none { IfNone result (text.now ≡ []) }
{
    match text.split_first() {
        None => None,
        Some((first, rest)) => {
            if is_letter(*first) {
                Some(first_word(text))
            } else if is_digit(*first) {
                Some(first_numeral(text))
            } else if *first == b'>' {
                Some(first_compare(Compare::Ge, Compare::Gt, rest))
            } else if *first == b'<' {
                Some(first_compare(Compare::Le, Compare::Lt, rest))
            } else {
                Some(Lexeme {
                    token: mark_token(*first),
                    rest,
                })
            }
        }
    }
}

// The token at the front of a text inside braces, which begins with no blank. None where the text is empty.
fn lexeme_in_braces<'a>(text: &'a [u8]) -> Option<Lexeme<'a>>
    ensures some { IfSome result (λ l. IsFrontOf true text.now l.token l.rest.now) }
    ensures none { IfNone result (text.now ≡ []) }
{
    match text.split_first() {
        None => None,
        Some((first, rest)) => {
            if is_code_byte(*first) {
                Some(first_code(text))
            } else {
                Some(Lexeme {
                    token: list_mark_token(*first),
                    rest,
                })
            }
        }
    }
}
