//! The values of a field in some rows of a sheet, and how many of them are numbers or missing. Rows and
//! fields are numbered from 0.
ghost use Rattle.std.specs.Prelude.{◌≡◌, IfOk, count_by};
ghost use Rattle.edit_model.specs.Rows.{is_bad};
ghost use Rattle.page_counts.specs.Columns.{column_of, value_at};
ghost use Rattle.page_counts.specs.Rules.{is_number};

use edit_model::Value;
use foundation::OutOfMemory;
use record_text::Sheet;
use std::alloc::Global;

/// The values of the field in the rows of these numbers, in their order. Where the sheet has no such row
/// or field, the value is Bad.
pub fn column(
    alloc: Global,
    sheet: &Sheet,
    numbers: &[u32],
    field: u32,
) -> Result<Vec<Value>, OutOfMemory>
    ensures { IfOk result (λ values. values.items ≡ column_of sheet.now.rows field numbers.now) }
{
    let mut values = Vec::with_capacity(alloc, numbers.len())?;
    for number in numbers {
        values.push(value_at(sheet, *number, field))?;
    }
    Ok(values)
}

/// How many of the values are missing (Bad). No memory.
pub fn bad_count(values: &[Value]) -> usize
    ensures { result ≡ count_by is_bad values.now }
{
    values.iter().filter(|value| value.is_bad()).count()
}

/// How many of the values are numbers. No memory.
pub fn number_count(values: &[Value]) -> usize
    ensures { result ≡ count_by is_number values.now }
{
    values
        .iter()
        .filter(|value| matches!(value, Value::Number(_)))
        .count()
}

// The value of the field in the row of this number, and Bad where there is no such row or field.
fn value_at(sheet: &Sheet, number: u32, field: u32) -> Value
    ensures { result ≡ value_at sheet.now.rows field number }
{
    if number >= sheet.len() {
        return Value::Bad;
    }
    match sheet.row(number).values().get(field as usize) {
        Some(value) => *value,
        None => Value::Bad,
    }
}
