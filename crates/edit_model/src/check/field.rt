//! Whether one field of a survey is well formed.
ghost use Rattle.std.specs.Prelude.{◌↔◌, IsTrue};
ghost use Rattle.edit_model.specs.Surveys.{IsField};

use crate::check::kind::is_kind;
use crate::check::name::is_field_name;
use crate::field::Field;

/// The largest weight of a field.
const MOST_WEIGHT: u32 = 1000;

/// Whether the field's name, weight and kind are within their limits.
pub(crate) fn is_field(field: &Field) -> bool
    ensures { IsTrue result ↔ IsField field.now }
{
    is_field_name(&field.name)
        && 1 <= field.weight
        && field.weight <= MOST_WEIGHT
        && is_kind(&field.kind)
}
