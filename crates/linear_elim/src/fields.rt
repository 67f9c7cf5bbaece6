//! The last of a set of fields: what the fold over the set eliminates last.
ghost use Rattle.std.specs.Prelude.{◌≡◌, ◌<◌, IfNone, IfSome};
ghost use Rattle.linear_elim.specs.LastFields.{IsLast};
ghost use Rattle.linear_elim.specs.Systems.{AreNumerical};

use edit_line::Edits;
use edit_model::FieldSet;

/// The field of the set with the greatest number, None where the set is empty. The system without the
/// set is made by one step, at this field, from the system without the other fields. All fields of the
/// set are numerical ones of the edits. No memory.
pub fn last_field(edits: &Edits, fields: FieldSet) -> Option<u32>
    requires { AreNumerical edits.now.shape fields }
    ensures some { IfSome result (λ field. IsLast fields field) }
    ensures few { IfSome result (λ field. field < 64) }
    ensures none { IfNone result (fields ≡ 0) }
{
    let shape = edits.shape();
    let count = shape.code_counts().len() as u32; // one for each field, also a numerical one
    let mut last = None;
    for field in 0..count {
        if fields.has(field) {
            last = Some(field);
        }
    }
    last
}
