//! Which names fields may have, and which texts may be codes, in ASCII.
ghost use Rattle.std.specs.Prelude.{◌≡◌, ◌≢◌, ◌==◌, ◌||◌, ◌≤◌, ◌↔◌, All, IsTrue, length};
ghost use Rattle.std.specs.List.{list_all, list_any};
ghost use Rattle.std.specs.Str.{bytes_eq};
ghost use Rattle.edit_model.specs.inner.ReservedWords.{field_words, rule_words};
ghost use Rattle.edit_model.specs.Surveys.{IsName, has_code_form, is_digit, is_letter, has_name_form, reserved_words};

use crate::name::Name;

// Whether the byte is a letter of ASCII.
fn is_ascii_letter(byte: u8) -> bool
    ensures { result ≡ is_letter byte }
{
    matches!(byte, b'A'..=b'Z' | b'a'..=b'z')
}

// Whether the byte is a digit of ASCII.
fn is_ascii_digit(byte: u8) -> bool
    ensures { result ≡ is_digit byte }
{
    matches!(byte, b'0'..=b'9')
}

// Whether each byte is a letter, a digit or `_`, as behind the first letter of a name. True of no bytes.
fn are_name_bytes(bytes: &[u8]) -> bool
    ensures { result ≡ list_all (λ b. is_letter b || (is_digit b || (b == 95))) bytes.now }
{
    bytes.iter().all(|b| is_ascii_letter(*b) || is_ascii_digit(*b) || *b == b'_')
}

// Whether the bytes are a letter with letters, digits and `_` behind it. There is no name of 0 bytes.
fn has_name_form(bytes: &[u8]) -> bool
    ensures { result ≡ has_name_form bytes.now }
{
    match bytes.split_first() {
        None => false,
        Some((first, rest)) => is_ascii_letter(*first) && are_name_bytes(rest),
    }
}

// Whether the bytes are a word with which a field is declared.
fn is_field_word(bytes: &[u8]) -> bool
    ensures { result ≡ list_any (λ word. bytes_eq bytes.now word) field_words }
{
    bytes == b"number".as_slice()
        || bytes == b"code".as_slice()
        || bytes == b"weight".as_slice()
        || bytes == b"scale".as_slice()
}

// Whether the bytes are a word with which a rule is written.
fn is_rule_word(bytes: &[u8]) -> bool
    ensures { result ≡ list_any (λ word. bytes_eq bytes.now word) rule_words }
{
    bytes == b"in".as_slice()
        || bytes == b"not".as_slice()
        || bytes == b"if".as_slice()
        || bytes == b"and".as_slice()
        || bytes == b"then".as_slice()
}

// Whether the bytes are a word of the rule language, which no field may have as its name.
fn is_reserved(bytes: &[u8]) -> bool
    ensures { result ≡ list_any (λ word. bytes_eq bytes.now word) reserved_words }
{
    is_field_word(bytes) || is_rule_word(bytes)
}

/// Whether a field may have the name: a letter with letters, digits and `_` behind it, and none of the
/// words of the rule language. No memory.
pub fn is_field_name(name: &Name) -> bool
    ensures { IsTrue result ↔ IsName name.now }
{
    let bytes = name.as_bytes();
    has_name_form(bytes) && !is_reserved(bytes)
}

// Whether each byte may stand in a code: letters, digits, `_`, `-` and `.`. True of no bytes.
fn are_code_bytes(bytes: &[u8]) -> bool
    ensures { result ≡ has_code_form bytes.now }
{
    bytes.iter().all(|b| {
        is_ascii_letter(*b) || is_ascii_digit(*b) || *b == b'_' || *b == b'-' || *b == b'.'
    })
}

/// Whether the name may be a code: each byte is a letter, a digit, `_`, `-` or `.`. That it has 1 to 32
/// bytes is in its type. The words of the rule language may be codes, too.
pub(crate) fn is_code_name(name: &Name) -> bool
    ensures { IsTrue result ↔ (IsTrue (has_code_form name.now) × (1 ≤ length name.now) × (length name.now ≤ 32)) }
{
    are_code_bytes(name.as_bytes())
}
