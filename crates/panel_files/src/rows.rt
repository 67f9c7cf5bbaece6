//! The values of two files as one row: those of a record, and those of the row of the last period that
//! has its key. The same is done for columns. A `set` is always that of the survey's last fields. In
//! contracts, `joined` is two lists as one. It has an element of the last ones for each field of the set,
//! and one of the own ones for each other field; `flags_of` tells which fields are in the set. `own_fields`
//! and `last_fields` are the fields that stand in the one file and in the other.
ghost use Rattle.std.specs.Prelude.{◌≡◌, ◌<◌, ◌≤◌, ◌-◌, IfOk, IfSome, IsTrue, false, if◌then◌else◌, length, map, slice_index_or};
ghost use Rattle.std.specs.Option.{option_map_or};
ghost use Rattle.edit_model.specs.Rows.{IsRow};
ghost use Rattle.panel_files.specs.Joined.{both_columns, joined};
ghost use Rattle.panel_files.specs.LastFields.{flags_of, last_fields, own_fields};

use edit_model::{Field, FieldSet, Row, Survey, Value};
use foundation::OutOfMemory;
use std::alloc::Global;

/// The record of the values of both files. `own` has the values of the fields outside of the set, and
/// `last` those of the fields of the set, both in declared order. Where there is no `last`, the fields of
/// the set have no value (Bad).
pub fn both_values(
    alloc: Global,
    survey: &Survey,
    set: FieldSet,
    own: &Row,
    last: Option<&Row>,
) -> Result<Row, OutOfMemory>
    requires own { IsRow (own_fields survey.now.fields set) own.now }
    requires last { IfSome last (λ row. IsRow (last_fields survey.now.fields set) row.now) }
    ensures values { IfOk result (λ both. both ≡ joined (flags_of set survey.now.fields) own.now
        (option_map_or (λ row. row.now) last.entry (map (λ field. Value.Bad) (last_fields survey.now.fields set)))) }
    ensures row { IfOk result (λ both. IsRow survey.now.fields both) }
{
    let values = joined_values(alloc, survey.fields(), set, own.values(), last)?;
    Ok(Row::new(survey, values))
}

// The values of all fields, in declared order, from those of both files. The fields of the set have those
// of `last`, or Bad where there is no such row.
fn joined_values(
    alloc: Global,
    fields: &[Field],
    set: FieldSet,
    own: &[Value],
    last: Option<&Row>,
) -> Result<Vec<Value>, OutOfMemory>
    requires few { length fields.now ≤ 64 }
    requires own { length own.now ≡ length (own_fields fields.now set) }
    requires last { IfSome last (λ row. length row.now ≡ length (last_fields fields.now set)) }
    ensures { IfOk result (λ both. both.items ≡ joined (flags_of set fields.now) own.now
        (option_map_or (λ row. row.now) last.entry (map (λ field. Value.Bad) (last_fields fields.now set)))) }
{
    match last {
        Some(row) => join(alloc, fields, set, own, row.values()),
        None => {
            let missing = vec![in alloc; Value::Bad; fields.len() - own.len()]?;
            join(alloc, fields, set, own, &missing)
        }
    }
}

/// The column of each field in the rows of the records. A field outside of the set has its column in
/// `columns`, and each field of the set has the column `past`. That is one which no row has, since the
/// last fields stand in the other file.
pub fn both_columns(
    alloc: Global,
    survey: &Survey,
    set: FieldSet,
    columns: &[u32],
    past: u32,
) -> Result<Vec<u32>, OutOfMemory>
    requires { length columns.now ≡ length (own_fields survey.now.fields set) }
    ensures { IfOk result (λ both. both.items ≡ both_columns survey.now.fields set columns.now past) }
{
    let fields = survey.fields();
    let pasts = vec![in alloc; past; fields.len() - columns.len()]?;
    join(alloc, fields, set, columns, &pasts)
}

// Both lists as one, with an element for each field in declared order. At a field of the set that is the next
// element of `last`, and at every other field the next one of `own`.
fn join<T: Copy>(
    alloc: Global,
    fields: &[Field],
    set: FieldSet,
    own: &[T],
    last: &[T],
) -> Result<Vec<T>, OutOfMemory>
    requires few { length fields.now ≤ 64 }
    requires own { length own.now ≡ length (own_fields fields.now set) }
    requires last { length last.now ≡ length (last_fields fields.now set) }
    ensures { IfOk result (λ both. both.items ≡ joined (flags_of set fields.now) own.now last.now) }
{
    let mut both = Vec::with_capacity(alloc, fields.len())?;
    let mut taken = 0; // of the last ones
    for number in 0..fields.len() {
        let is_last = set.has(number as u32);
        both.push(element(own, last, number, taken, is_last))?;
        taken += usize::from(is_last);
    }
    Ok(both)
}

// The element for the field of this number, from 0. `is_last` says whether the field is in the set. `taken`
// elements of `last` were taken for the fields before it, and so `number - taken` of `own`.
fn element<T: Copy>(own: &[T], last: &[T], number: usize, taken: usize, is_last: bool) -> T
    requires fewer { taken ≤ number }
    requires in_last { IsTrue is_last → taken < length last.now }
    requires in_own { is_last ≡ false → number - taken < length own.now }
    ensures { result ≡ (if is_last then slice_index_or last.now taken result else slice_index_or own.now (number - taken) result) }
{
    if is_last {
        last[taken]
    } else {
        own[number - taken]
    }
}
