//! The values of a field in the rows of a released file. Where a row has a numerical field's value as
//! record files spell numbers, it is that; a new number may be longer than theirs, and is read as it is
//! printed. Rows and fields are numbered from 0.
//!
//! In contracts, `IsReleasedAs` says which value a released text has, where it is known what a record file
//! reads there; `AreReleasedValues` that each row has its value, and that it has no other.
ghost use Rattle.std.specs.Prelude.{◌≡◌, ◌<◌, IfOk, length};
ghost use Rattle.edit_model.specs.declared.value.Value.{Value as Other};
ghost use Rattle.page_counts.specs.Columns.{value_at};
ghost use Rattle.release_figures.specs.ReleasedValues.{AreReleasedValues, IsPrinted, IsReleasedAs, text_in};

use crate::sheet_text::text_in;
use edit_model::{Kind, Value};
use foundation::OutOfMemory;
use fraction128::Fraction;
use record_text::Sheet;
use std::alloc::Global;

/// The values of the field, which is of this kind, in all rows of a released file, in their order.
pub(crate) fn released_values(
    alloc: Global,
    released: &Sheet,
    kind: &Kind,
    field: u32,
) -> Result<Vec<Value>, OutOfMemory>
    ensures { IfOk result (λ values. AreReleasedValues released.now kind.now field values.items) }
{
    let rows = released.len();
    let mut values = Vec::with_capacity(alloc, rows as usize)?;
    for row in 0..rows {
        values.push(released_value(released, kind, field, row))?;
    }
    Ok(values)
}

// The value of the field in the row of this number. Its text is looked at only where a record file reads no
// value.
fn released_value(released: &Sheet, kind: &Kind, field: u32, row: u32) -> Value
    requires { row < length released.now.rows }
    ensures is { IsReleasedAs kind.now (text_in released.now field row) (value_at released.now.rows field row) result }
    ensures only { (v : Other) → IsReleasedAs kind.now (text_in released.now field row) (value_at released.now.rows field row) v
        → v ≡ result }
{
    match (kind, value_read(released, field, row)) {
        (Kind::Number { .. }, Value::Bad) => printed_value(text_in(released, field, row as usize)),
        (_, read) => read,
    }
}

// The value that a record file reads at the field in the row of this number; Bad where there is no such
// field.
fn value_read(sheet: &Sheet, field: u32, row: u32) -> Value
    requires { row < length sheet.now.rows }
    ensures { result ≡ value_at sheet.now.rows field row }
{
    match sheet.row(row).values().get(field as usize) {
        Some(value) => *value,
        None => Value::Bad,
    }
}

// The number that is printed as this text, or Bad where none is.
fn printed_value(text: &[u8]) -> Value
    ensures is { IsPrinted text.now result }
    ensures only { (v : Other) → IsPrinted text.now v → v ≡ result }
{
    match Fraction::read_text(text) {
        Some(x) => Value::Number(x),
        None => Value::Bad,
    }
}
