//! The values that a released row gives a record: those that were read at kept fields, and other ones at
//! changed fields.
//!
//! In contracts, `IsChecking` says that the parts of `checking` fit each other. `AreNewValues` says that
//! these are the values that the texts give, and `only` that no others are.
ghost use Rattle.std.specs.Prelude.{◌≡◌, ◌<◌, All, IfOk, IfSome, IsSomeAnd, false, length};
ghost use Rattle.edit_model.specs.Rows.{IsRow};
ghost use Rattle.edit_model.specs.Surveys.{IsKind};
ghost use Rattle.edit_model.specs.declared.value.Value.{Value as Given};
ghost use Rattle.record_text.specs.Values.{code_number};
ghost use Rattle.cert_check.specs.Released.{IsGivenText, is_same};
ghost use Rattle.cert_check.specs.inner.Checks.{AreNewValues, IsChecking, IsValueAt, OfNewValues};

use crate::changed_fields::changes;
use crate::checking::Checking;
use edit_model::{Kind, Name, Row, Value};
use foundation::OutOfMemory;
use fraction128::Fraction;
use record_text::Texts;
use std::alloc::Global;

/// The value of each field, in declared order. Of a field that `path` keeps it is the one that was read.
/// Of a changed one it is that of its released text, which has to be another one. None where some changed
/// field has no such value.
pub(crate) fn new_values(
    alloc: Global,
    checking: &Checking,
    row: &Row,
    path: &[bool],
    texts: &Texts,
) -> Result<Option<Vec<Value>>, OutOfMemory>
    requires checking { IsChecking checking.now }
    requires row { IsRow checking.now.survey.now.fields row.now }
    requires within { All (λ column. column < length texts.now) checking.now.columns.now }
    ensures values { IfOk result (λ found. IfSome found (λ v. AreNewValues checking.now row.now path.now texts.now v.items)) }
    ensures only { IfOk result (λ found. OfNewValues checking.now row.now path.now texts.now (λ new. IsSomeAnd found (λ v. v.items
        ≡ new))) }
{
    let count = checking.survey.fields().len();
    let mut values = Vec::with_capacity(alloc, count)?;
    for field in 0..count {
        match value_at(checking, row, path, texts, field) {
            Some(value) => values.push(value)?,
            None => return Ok(None),
        }
    }
    Ok(Some(values))
}

// The new value of the field of this number. None where `path` changes the field, and its text gives no
// value but the one that was read.
fn value_at(
    checking: &Checking,
    row: &Row,
    path: &[bool],
    texts: &Texts,
    field: usize,
) -> Option<Value>
    requires checking { IsChecking checking.now }
    requires row { IsRow checking.now.survey.now.fields row.now }
    requires within { All (λ column. column < length texts.now) checking.now.columns.now }
    requires field { field < length checking.now.survey.now.fields }
    ensures value { IfSome result (λ v. IsValueAt checking.now row.now path.now texts.now field v) }
    ensures only { (v : Given) → IsValueAt checking.now row.now path.now texts.now field v → result ≡ Some v }
{
    let kind = &checking.survey.fields()[field].kind;
    let read = row.value(field as u32);
    if changes(checking.survey, path, field) {
        other_value(kind, texts.get(checking.columns[field] as usize), read)
    } else {
        Some(*read)
    }
}

// The value of the released `text`, for a changed field. None where it gives no value, or the one that was
// read (`read`), since a changed field has to have another one.
fn other_value(kind: &Kind, text: &[u8], read: &Value) -> Option<Value>
    requires { IsKind kind.now }
    ensures value { IfSome result (λ v. IsGivenText kind.now text.now v × (is_same v read.now ≡ false)) }
    ensures only { (v : Given) → IsGivenText kind.now text.now v → is_same v read.now ≡ false → result ≡ Some v }
{
    match given_value(kind, text) {
        Some(value) => {
            if is_same(&value, read) {
                None
            } else {
                Some(value)
            }
        }
        None => None,
    }
}

// The value that has this text, byte for byte: a fraction in its one printed spelling, or a code. None
// where no value has it.
fn given_value(kind: &Kind, text: &[u8]) -> Option<Value>
    requires { IsKind kind.now }
    ensures given { IfSome result (IsGivenText kind.now text.now) }
    ensures only { (v : Given) → IsGivenText kind.now text.now v → result ≡ Some v }
{
    match kind {
        Kind::Number { .. } => match Fraction::read_text(text) {
            Some(x) => Some(Value::Number(x)),
            None => None,
        },
        Kind::Code { codes } => match code_place(codes.as_slice(), text) {
            Some(place) => Some(Value::Code(place as u8)),
            None => None,
        },
    }
}

// The place, from 0, of the code of a field that has these bytes, or None where none has.
fn code_place(codes: &[Name], text: &[u8]) -> Option<usize>
    ensures place { result ≡ code_number codes.now text.now }
    ensures within { IfSome result (λ place. place < length codes.now) }
{
    codes.iter().position(|code| code.as_bytes() == text)
}

// Whether two values are the same code, or the same number. A value that is `Bad` is not the same as any,
// not even as another `Bad`.
fn is_same(first: &Value, second: &Value) -> bool
    ensures { result ≡ is_same first.now second.now }
{
    match (first, second) {
        (Value::Code(a), Value::Code(b)) => a == b,
        (Value::Number(x), Value::Number(y)) => x.compare(*y).is_eq(),
        _ => false,
    }
}
