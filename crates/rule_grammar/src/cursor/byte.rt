//! The kinds of bytes that tokens are made of. `docs/rule-language.md` has them as well.
ghost use Rattle.std.specs.Prelude.{◌≡◌};
ghost use Rattle.edit_model.specs.Surveys.{is_digit, is_letter};
ghost use Rattle.rule_grammar.specs.Tokens.{is_blank, is_code_byte, is_word_byte};

/// Whether the byte is a space or a tab.
pub(super) fn is_blank(byte: u8) -> bool
    ensures { result ≡ is_blank byte }
{
    byte == b' ' || byte == b'\t'
}

/// Whether the byte is an ASCII letter.
pub(super) fn is_letter(byte: u8) -> bool
    ensures { result ≡ is_letter byte }
{
    matches!(byte, b'A'..=b'Z' | b'a'..=b'z')
}

/// Whether the byte is an ASCII digit.
pub(super) fn is_digit(byte: u8) -> bool
    ensures { result ≡ is_digit byte }
{
    matches!(byte, b'0'..=b'9')
}

/// Whether the byte may stand in a word: a letter, a digit or `_`.
pub(super) fn is_word_byte(byte: u8) -> bool
    ensures { result ≡ is_word_byte byte }
{
    is_letter(byte) || is_digit(byte) || byte == b'_'
}

/// Whether the byte may stand in a code: a letter, a digit, `_`, `-` or `.`.
pub(super) fn is_code_byte(byte: u8) -> bool
    ensures { result ≡ is_code_byte byte }
{
    is_letter(byte) || is_digit(byte) || byte == b'_' || byte == b'-' || byte == b'.'
}
