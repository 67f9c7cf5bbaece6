//! Records, spelled in one word: for each field a code, a fraction, or `?` for a missing value, parted
//! by single spaces. In contracts, `IsRow` says that a record has for each field a value of its kind, or
//! none.
ghost use Rattle.std.specs.Prelude.{◌≡◌, IfOk, true};
ghost use Rattle.edit_model.specs.Rows.{IsOfKind, IsRow};

use crate::fault::CallFault;
use crate::rules::code_of;
use edit_model::{Field, Kind, Row, Survey, Value};
use fraction128::Fraction;
use std::alloc::Global;

/// The record of the survey that is spelled so. `CallFault::Record` where it has not a value for each
/// field, or a number is not in form; `CallFault::Field` where a field has no such code.
pub fn row_of(alloc: Global, survey: &Survey, text: &str) -> Result<Row, CallFault>
    ensures { IfOk result (λ row. IsRow survey.now.fields row) }
{
    let values = values_of(alloc, survey.fields(), text)?;
    if !are_values(survey.fields(), &values) {
        return Err(CallFault::Record);
    }
    Ok(Row::new(survey, values))
}

// The values that are spelled so, one for each field that has a word; where words are missing, there are
// fewer. Words past the last field are not looked at. The faults are those of `value_of`.
fn values_of(alloc: Global, fields: &[Field], text: &str) -> Result<Vec<Value>, CallFault> {
    let mut values = Vec::new(alloc);
    for (field, word) in fields.iter().zip(text.split(' ')) {
        values.push(value_of(field, word)?)?;
    }
    Ok(values)
}

// The value of the field that this word spells. `CallFault::Record` where a number is not in form, and
// `CallFault::Field` where the field has no such code.
fn value_of(field: &Field, word: &str) -> Result<Value, CallFault> {
    if word == "?" {
        return Ok(Value::Bad);
    }
    match &field.kind {
        Kind::Code { .. } => Ok(Value::Code(code_of(field, word)?)),
        Kind::Number { .. } => match Fraction::read_text(word.as_bytes()) {
            Some(number) => Ok(Value::Number(number)),
            None => Err(CallFault::Record),
        },
    }
}

// Whether the field may hold the value: a number or a code of the field, by its kind. A missing value
// fits each field.
fn fits(field: &Field, value: &Value) -> bool
    ensures { result ≡ true → IsOfKind field.now.kind value.now }
{
    match &field.kind {
        Kind::Number { .. } => match value {
            Value::Code(_) => false,
            Value::Number(_) => true,
            Value::Bad => true,
        },
        Kind::Code { codes } => match value {
            Value::Code(code) => (*code as usize) < codes.len(),
            Value::Number(_) => false,
            Value::Bad => true,
        },
    }
}

/// Whether there is a value for each field, which may hold it. It is asked before the record is made,
/// which requires it.
fn are_values(fields: &[Field], values: &[Value]) -> bool
    ensures { result ≡ true → IsRow fields.now values.now }
{
    if fields.len() != values.len() {
        return false;
    }
    for i in 0..fields.len() {
        if !fits(&fields[i], &values[i]) {
            return false;
        }
    }
    true
}

/// The spelling of a record, which [`row_of`] reads back. Want of memory is the only fault.
pub fn row_text(alloc: Global, survey: &Survey, row: &Row) -> Result<Vec<u8>, CallFault> {
    let mut text = Vec::new(alloc);
    for (place, (field, value)) in survey.fields().iter().zip(row.values()).enumerate() {
        if place > 0 {
            text.push(b' ')?;
        }
        push_value(alloc, field, value, &mut text)?;
    }
    Ok(text)
}

// Appends the spelling of a field's value: `?` for a missing one.
fn push_value(
    alloc: Global,
    field: &Field,
    value: &Value,
    text: &mut Vec<u8>,
) -> Result<(), CallFault> {
    match (value, &field.kind) {
        (Value::Number(x), _) => text.extend_from_slice(&x.write_text(alloc)?)?,
        (Value::Code(code), Kind::Code { codes }) if usize::from(*code) < codes.len() => {
            text.extend_from_slice(codes.as_slice()[usize::from(*code)].as_bytes())?;
        }
        _ => text.push(b'?')?,
    }
    Ok(())
}
