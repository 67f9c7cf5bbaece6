//! The value that a text in a row stands for, by the kind of its field.
ghost use Rattle.std.specs.Prelude.{◌≡◌, ◌<◌, ◌≤◌, IfSome, length};
ghost use Rattle.edit_model.specs.Surveys.{IsKind};
ghost use Rattle.record_text.specs.Values.{IsValueText, code_number};

use crate::numeral::fraction_of_text;
use crate::trim::trimmed;
use edit_model::{Kind, Name, Value};

/// The value of a field's text, without the blanks at its ends: a fraction, or the number of a code from
/// 0. It is `Bad` where the text is no numeral, or no code of the field. `kind` is as in a survey, with at
/// most 64 codes. No memory.
pub(crate) fn value_of_text(kind: &Kind, text: &[u8]) -> Value
    requires { IsKind kind.now }
    ensures { IsValueText kind.now text.now result }
{
    let text = trimmed(text);
    match kind {
        Kind::Number { .. } => match fraction_of_text(text) {
            Some(x) => Value::Number(x),
            None => Value::Bad,
        },
        Kind::Code { codes } => match code_of_text(codes.as_slice(), text) {
            Some(code) => Value::Code(code),
            None => Value::Bad,
        },
    }
}

/// The number, from 0, of the code in `codes` that the text is, or None where it is none of them. There
/// are at most 64 codes, so that the number fits a byte.
fn code_of_text(codes: &[Name], text: &[u8]) -> Option<u8>
    requires { length codes.now ≤ 64 }
    ensures { result ≡ code_number codes.now text.now }
{
    match code_place(codes, text) {
        Some(place) => Some(place as u8),
        None => None,
    }
}

/// The place, from 0, of the code that has these bytes, or None where none has.
fn code_place(codes: &[Name], text: &[u8]) -> Option<usize>
    ensures place { result ≡ code_number codes.now text.now }
    ensures within { IfSome result (λ place. place < length codes.now) }
{
    codes.iter().position(|code| code.as_bytes() == text)
}
