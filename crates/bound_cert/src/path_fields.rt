//! What a path says of a survey's fields and of a record. A path has false for a kept field and true for a
//! changed one, in path order: numerical fields before categorical ones. Places in it count from 0.
ghost use Rattle.std.specs.Prelude.{◌≡◌, ◌<◌, ◌≤◌, ◌&&◌, if◌then◌else◌, length, not};
ghost use Rattle.edit_model.specs.Rows.{IsRow, is_bad, value_of};
ghost use Rattle.edit_model.specs.Words.{weight_at};
ghost use Rattle.derivation.specs.Premises.{HasKept};
ghost use Rattle.bound_cert.specs.Paths.{keeps_bad, kept_set, path_weight};
ghost use Rattle.bound_cert.specs.inner.Places.{field_at, keeps_value, with_kept};

use edit_model::{FieldSet, Row, Survey};

/// The sum of the weights of the fields that the path changes. No memory.
pub(crate) fn path_weight(survey: &Survey, path: &[bool]) -> u64
    requires { length path.now ≤ length survey.now.fields }
    ensures { result ≡ path_weight survey.now.fields path.now }
{
    let _fields = survey.fields(); // read for what it says: there are at most 64
    let mut weight = 0;
    for (place, changed) in path.iter().enumerate() {
        weight += changed_weight(survey, place, *changed);
    }
    weight
}

/// Whether the path keeps a field at which the record has no value. No memory.
pub(crate) fn keeps_bad(survey: &Survey, row: &Row, path: &[bool]) -> bool
    requires short { length path.now ≤ length survey.now.fields }
    requires row { IsRow survey.now.fields row.now }
    ensures { result ≡ keeps_bad survey.now.fields row.now path.now }
{
    for (place, changed) in path.iter().enumerate() {
        if keeps_bad_at(survey, row, place, *changed) {
            return true;
        }
    }
    false
}

/// The set of the fields that the path keeps and at which the record has a value. No memory.
pub(crate) fn kept_set(survey: &Survey, row: &Row, path: &[bool]) -> FieldSet
    requires short { length path.now ≤ length survey.now.fields }
    requires row { IsRow survey.now.fields row.now }
    ensures set { result ≡ kept_set survey.now.fields row.now path.now }
    ensures held { HasKept row.now result }
{
    let _fields = survey.fields(); // read for what it says: there are at most 64
    let mut set = FieldSet::empty();
    for (place, changed) in path.iter().enumerate() {
        set = with_kept(set, survey, row, place, *changed);
    }
    set
}

// What the letter `changed` at this place of the path order adds to a path's weight: the field's weight, or
// 0 where it is kept.
fn changed_weight(survey: &Survey, place: usize, changed: bool) -> u64
    requires { place < length survey.now.fields }
    ensures weight { result ≡ (if changed then weight_at survey.now.fields (field_at survey.now.fields place) else 0) }
    ensures few { result ≤ 1000 }
{
    if !changed {
        return 0;
    }
    let fields = survey.fields();
    u64::from(fields[survey.path_field(place as u32) as usize].weight)
}

// Whether the field at this place of the path order is kept, and has no value in the record.
fn keeps_bad_at(survey: &Survey, row: &Row, place: usize, changed: bool) -> bool
    requires short { place < length survey.now.fields }
    requires row { IsRow survey.now.fields row.now }
    ensures { result ≡ (not changed && is_bad (value_of row.now (field_at survey.now.fields place))) }
{
    !changed && is_bad_at(survey, row, place)
}

// Whether the field at this place of the path order is kept, and has a value in the record.
fn keeps_value_at(survey: &Survey, row: &Row, place: usize, changed: bool) -> bool
    requires short { place < length survey.now.fields }
    requires row { IsRow survey.now.fields row.now }
    ensures { result ≡ keeps_value survey.now.fields row.now place changed }
{
    !changed && !is_bad_at(survey, row, place)
}

// The set with the field at this place of the path order, if that is kept and has a value in the record.
// Else it is the set as it was.
fn with_kept(set: FieldSet, survey: &Survey, row: &Row, place: usize, changed: bool) -> FieldSet
    requires short { place < length survey.now.fields }
    requires row { IsRow survey.now.fields row.now }
    ensures { result ≡ with_kept set survey.now.fields row.now place changed }
{
    let _fields = survey.fields(); // read for what it says: there are at most 64
    if keeps_value_at(survey, row, place, changed) {
        set.with(survey.path_field(place as u32))
    } else {
        set
    }
}

// Whether the record has no value at the field at this place of the path order.
fn is_bad_at(survey: &Survey, row: &Row, place: usize) -> bool
    requires short { place < length survey.now.fields }
    requires row { IsRow survey.now.fields row.now }
    ensures { result ≡ is_bad (value_of row.now (field_at survey.now.fields place)) }
{
    let _fields = survey.fields(); // read for what it says: there are at most 64
    row.value(survey.path_field(place as u32)).is_bad()
}
