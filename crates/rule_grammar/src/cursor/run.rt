//! How long the runs of bytes of one kind are that a text begins with. All lengths are in bytes, and 0 where
//! the first byte is of another kind, or the text is empty.
ghost use Rattle.std.specs.Prelude.{◌≡◌, ◌≤◌, length};
ghost use Rattle.std.specs.List.{prefix_len};
ghost use Rattle.edit_model.specs.Surveys.{is_digit};
ghost use Rattle.rule_grammar.specs.Tokens.{is_blank, is_code_byte, is_word_byte};
ghost use Rattle.rule_grammar.specs.inner.Fronts.{code_len, word_len};

use super::byte::{is_blank, is_code_byte, is_digit, is_word_byte};

/// The longest word or code, in bytes.
const LONGEST: usize = 32;

/// How many blanks there are at the front.
pub(super) fn blanks_len(text: &[u8]) -> usize
    ensures count { result ≡ prefix_len is_blank text.now }
    ensures within { result ≤ length text.now }
{
    text.iter().take_while(|b| is_blank(**b)).count()
}

/// How many digits there are at the front.
pub(super) fn digits_len(text: &[u8]) -> usize
    ensures count { result ≡ prefix_len is_digit text.now }
    ensures within { result ≤ length text.now }
{
    text.iter().take_while(|b| is_digit(**b)).count()
}

/// How many bytes the word at the front has, at most 32. What follows in a longer run begins a token of its
/// own, so no byte behind these is looked at.
pub(super) fn word_len(text: &[u8]) -> usize
    ensures count { result ≡ word_len text.now }
    ensures within { result ≤ length text.now }
{
    word_bytes_len(&text[..text.len().min(LONGEST)])
}

/// How many bytes the code at the front has, at most 32. What follows in a longer run begins a token of its
/// own, so no byte behind these is looked at.
pub(super) fn code_len(text: &[u8]) -> usize
    ensures count { result ≡ code_len text.now }
    ensures within { result ≤ length text.now }
{
    code_bytes_len(&text[..text.len().min(LONGEST)])
}

// How many bytes of the kind that words have stand at the front, without a limit.
fn word_bytes_len(text: &[u8]) -> usize
    ensures { result ≡ prefix_len is_word_byte text.now }
{
    text.iter().take_while(|b| is_word_byte(**b)).count()
}

// How many bytes of the kind that codes have stand at the front, without a limit.
fn code_bytes_len(text: &[u8]) -> usize
    ensures { result ≡ prefix_len is_code_byte text.now }
{
    text.iter().take_while(|b| is_code_byte(**b)).count()
}
