//! The tokens of a text, read one after another, each when the parser takes the one before. Whether a byte
//! is part of a code depends on whether it stands inside braces, so the cursor keeps that. No memory.
ghost use Rattle.std.specs.Prelude.{◌≡◌, List, [], ◌∷◌, IfSome, IfNone};
ghost use Rattle.rule_grammar.specs.Tokens.{is_inside_after, tokens_of};
ghost use Rattle.rule_grammar.specs.inner.Fronts.{tokens_from};
ghost use Rattle.rule_grammar.specs.declared.token.Token.{Token as AnyToken};

mod byte;
mod lexeme;
mod mark;
mod numeral;
mod run;
mod word;

use crate::token::Token;
use lexeme::first_lexeme;
use std::marker::Model;

/// The tokens that are still to be read. The first of them is read ahead; where there is none, the text has
/// ended.
#[derive(Drop)]
pub(crate) struct Cursor<'a> {
    next: Option<Token>,
    /// Whether the rest begins inside braces.
    inside: bool,
    rest: &'a [u8],
}

impl<'a> Model for Cursor<'a> {
    ghost use Rattle.std.specs.Prelude.{List};
    ghost use Rattle.rule_grammar.specs.inner.Cursors.{left_of};
    ghost use Rattle.rule_grammar.specs.declared.token.Token.{Token as AnyToken};

    ghost Value = { List AnyToken };

    ghost view = { λ c. left_of c.next c.inside c.rest.now };
}

impl<'a> Cursor<'a> {
    /// The tokens of a line's text, which begins outside braces.
    pub(crate) fn new(text: &'a [u8]) -> Cursor<'a>
        ensures { result ≡ tokens_of text.now }
    {
        Cursor::begin(false, text)
    }

    /// The next token, which is not taken off, or None at the end of the text.
    pub(crate) fn front(&self) -> Option<&Token>
        ensures some { IfSome result (λ t. (rest : List AnyToken) × (self.now ≡ t.now ∷ rest)) }
        ensures none { IfNone result (self.now ≡ []) }
    {
        self.next.as_ref()
    }

    /// Takes off the next token, or answers None at the end of the text.
    pub(crate) fn take(&mut self) -> Option<Token>
        ensures some { IfSome result (λ t. self.old ≡ t ∷ self.new) }
        ensures none { IfNone result ((self.old ≡ []) × (self.new ≡ [])) }
    {
        match self.next.take() {
            None => None,
            Some(token) => {
                *self = Cursor::begin(self.inside, self.rest);
                Some(token)
            }
        }
    }

    // The tokens of a text that begins inside braces (`inside`) or outside. The first one is read ahead here,
    // at the beginning of a line and behind each token that is taken.
    fn begin(inside: bool, text: &'a [u8]) -> Cursor<'a>
        ensures { result ≡ tokens_from inside text.now }
    {
        match first_lexeme(inside, text) {
            None => Cursor {
                next: None,
                inside,
                rest: text,
            },
            Some(lexeme) => {
                let inside = is_inside_after(inside, &lexeme.token);
                Cursor {
                    next: Some(lexeme.token),
                    inside,
                    rest: lexeme.rest,
                }
            }
        }
    }
}

// Whether what follows the token stands inside braces. Behind an opening brace it does, and behind a
// closing one it doesn't. Behind any other token it is as before (`inside`).
fn is_inside_after(inside: bool, token: &Token) -> bool
    ensures { result ≡ is_inside_after inside token.now }
{
    match token {
        Token::Open => true,
        Token::Close => false,
        _ => inside,
    }
}
