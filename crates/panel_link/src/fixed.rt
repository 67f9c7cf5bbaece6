//! Whether a record has a value at each of its fixed fields: without these it is not searched.
ghost use Rattle.std.specs.Prelude.{◌≡◌, ◌<◌, ◌&&◌, length};
ghost use Rattle.edit_model.specs.FieldSets.{has_number};
ghost use Rattle.edit_model.specs.Rows.{IsRow, is_bad, value_of};
ghost use Rattle.panel_link.specs.LinkedCorrections.{lacks_value};

use edit_model::{FieldSet, Row, Survey};

/// Whether some fixed field has no value in the record: then the record can't be linked, and is not
/// searched. No memory.
pub(crate) fn lacks_value(survey: &Survey, row: &Row, fixed: FieldSet) -> bool
    requires { IsRow survey.now.fields row.now }
    ensures { result ≡ lacks_value survey.now row.now fixed }
{
    let _fields = survey.fields(); // read for what it says: there are at most 64
    for place in 0..survey.fields().len() as u32 {
        if lacks_at(row, fixed, survey.path_field(place)) {
            return true;
        }
    }
    false
}

// Whether the field is one of the `fixed` ones, and has no value in the record.
fn lacks_at(row: &Row, fixed: FieldSet, field: u32) -> bool
    requires few { field < 64 }
    requires within { field < length row.now }
    ensures { result ≡ (has_number fixed field && is_bad (value_of row.now field)) }
{
    fixed.has(field) && row.value(field).is_bad()
}
