//! A record without values at its changed fields, which are then given one after the other.
ghost use Rattle.std.specs.Prelude.{◌≡◌, IfOk, false, true, ℕ};
ghost use Rattle.edit_model.specs.FieldSets.{has_number};
ghost use Rattle.edit_model.specs.Rows.{IsRow, value_of};
ghost use Rattle.edit_model.specs.declared.value.Value.TheVariants.{Bad};

use edit_model::{FieldSet, Row, Survey, Value};
use foundation::OutOfMemory;
use std::alloc::Global;

/// A copy of the record without a value (`Bad`) at the fields of the set `changed`, and with its own values
/// at all others.
pub(crate) fn blank_fields(
    alloc: Global,
    survey: &Survey,
    row: &Row,
    changed: FieldSet,
) -> Result<Row, OutOfMemory>
    requires { IsRow survey.now.fields row.now }
    ensures row { IfOk result (λ new. IsRow survey.now.fields new) }
    ensures blank { IfOk result (λ new. (f : ℕ) → has_number changed f ≡ true → value_of new f ≡ Bad) }
    ensures kept { IfOk result (λ new. (f : ℕ) → has_number changed f ≡ false → value_of new f ≡ value_of row.now f) }
{
    let mut new = row.copy(alloc)?;
    for field in 0..survey.fields().len() as u32 {
        if changed.has(field) {
            new.set(survey, field, Value::Bad);
        }
    }
    Ok(new)
}
