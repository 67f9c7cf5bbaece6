//! The text that a value has in a file.
ghost use Rattle.std.specs.Prelude.{◌≡◌, ◌<◌, [], IfOk, length, slice_index_or};
ghost use Rattle.edit_model.specs.Rows.{IsRow};
ghost use Rattle.edit_report.specs.Released.{given_text, value_text};

use edit_model::{Kind, Name, Row, Survey, Value};
use foundation::OutOfMemory;
use std::alloc::Global;

/// The text of a record's value at the field of this number: a number's canonical spelling, or a code's
/// name. Nothing where the record has no value there.
pub(crate) fn text_at(
    alloc: Global,
    survey: &Survey,
    row: &Row,
    field: u32,
) -> Result<Vec<u8>, OutOfMemory>
    requires row { IsRow survey.now.fields row.now }
    requires field { field < length survey.now.fields }
    ensures { IfOk result (λ text. text.items ≡ given_text survey.now.fields row.now field) }
{
    let fields = survey.fields();
    value_text(alloc, &fields[field as usize].kind, row.value(field))
}

// The text of a value of a field of this kind. No bytes for a missing value, or for a code at a numerical
// field.
fn value_text(alloc: Global, kind: &Kind, value: &Value) -> Result<Vec<u8>, OutOfMemory>
    ensures { IfOk result (λ text. text.items ≡ value_text kind.now value.now) }
{
    match (kind, value) {
        (_, Value::Number(number)) => number.write_text(alloc),
        (Kind::Code { codes }, Value::Code(code)) => code_text(alloc, codes.as_slice(), *code),
        _ => Ok(Vec::new(alloc)),
    }
}

// A copy of the bytes of the code of this number; nothing where the field has fewer codes.
fn code_text(alloc: Global, codes: &[Name], code: u8) -> Result<Vec<u8>, OutOfMemory>
    ensures { IfOk result (λ text. text.items ≡ slice_index_or codes.now code []) }
{
    match codes.get(usize::from(code)) {
        Some(name) => Ok(name.as_bytes().to_vec(alloc)?),
        None => Ok(Vec::new(alloc)),
    }
}
