//! The fields at which a record has no value (`Bad`), as a list, as a path and as a set. Path order has the
//! numerical fields first, and then the categorical ones.
ghost use Rattle.std.specs.Prelude.{◌≡◌, ◌<◌, ◌++◌, ◌∷◌, [], All, IfOk, OnOk, if◌then◌else◌, length};
ghost use Rattle.edit_model.specs.FieldSets.{set_of};
ghost use Rattle.edit_model.specs.Rows.{IsRow, is_bad, value_of};
ghost use Rattle.deduce_fill.specs.Tests.{bad_fields, own_path};

use edit_model::{FieldSet, Row, Survey};
use foundation::OutOfMemory;
use std::alloc::Global;

/// The numbers of the fields at which the record has no value, in path order: these are to be filled.
pub(crate) fn bad_fields(alloc: Global, survey: &Survey, row: &Row) -> Result<Vec<u32>, OutOfMemory>
    requires { IsRow survey.now.fields row.now }
    ensures { IfOk result (λ fields. fields.items ≡ bad_fields survey.now.fields row.now) }
{
    let mut fields = Vec::new(alloc);
    for place in 0..survey.fields().len() as u32 {
        push_if_bad(&mut fields, row, survey.path_field(place))?;
    }
    Ok(fields)
}

// Appends the field where the record has no value there.
fn push_if_bad(fields: &mut Vec<u32>, row: &Row, field: u32) -> Result<(), OutOfMemory>
    requires { field < length row.now }
    ensures { OnOk result (fields.new.items ≡ fields.old.items ++ (if is_bad (value_of row.now field) then field ∷ [] else [])) }
{
    if row.value(field).is_bad() {
        fields.push(field)?;
    }
    Ok(())
}

/// The record's own path: for each field in path order, whether the record has no value there. Such a field
/// is changed (true), and any other is kept (false).
pub(crate) fn own_path(alloc: Global, survey: &Survey, row: &Row) -> Result<Vec<bool>, OutOfMemory>
    requires { IsRow survey.now.fields row.now }
    ensures { IfOk result (λ path. path.items ≡ own_path survey.now.fields row.now) }
{
    let mut path = Vec::new(alloc);
    for place in 0..survey.fields().len() as u32 {
        path.push(row.value(survey.path_field(place)).is_bad())?;
    }
    Ok(path)
}

/// The set of these fields, by their numbers, each below 64. No memory.
pub(crate) fn set_of(fields: &[u32]) -> FieldSet
    requires { All (λ f. f < 64) fields.now }
    ensures { result ≡ set_of fields.now }
{
    let mut set = FieldSet::empty();
    for field in fields {
        set = set.with(*field);
    }
    set
}
