//! Which fields are last fields: those that a panel takes from the file of the last period, told by their
//! names.
ghost use Rattle.std.specs.Prelude.{◌≡◌, ◌↔◌, ◌++◌, ℕ, List, IfNone, IfSome, IsTrue, codes};
ghost use Rattle.panel_files.specs.LastFields.{AreLastFields, IsLastName};

use edit_model::{FieldSet, Name, Survey, is_field_name};

/// What a last field's name begins with: `last_`.
const PREFIX: [u8; 5] = [b'l', b'a', b's', b't', b'_'];

/// The set of the survey's last fields: those whose name is `last_`, with a name behind it. No memory.
pub fn last_set(survey: &Survey) -> FieldSet
    ensures { AreLastFields survey.now.fields result }
{
    let mut set = FieldSet::empty();
    for (number, field) in survey.fields().iter().enumerate() {
        if is_last(&field.name) {
            set = set.with(number as u32);
        }
    }
    set
}

// Whether the name is that of a last field: `last_` with a name behind it that a field may have.
fn is_last(name: &Name) -> bool
    ensures { IsTrue result ↔ ((rest : List ℕ) × IsLastName name.now rest) }
{
    match name_behind(name) {
        Some(rest) => is_field_name(&rest),
        None => false,
    }
}

/// The bytes behind `last_` as a name. None where the name does not begin with `last_`, or nothing stands
/// behind it. Whether a field may have this name is not asked here. No memory.
pub(crate) fn name_behind(name: &Name) -> Option<Name>
    ensures some { IfSome result (λ rest. name.now ≡ codes "last_" ++ rest) }
    ensures none { IfNone result ((rest : List ℕ) → ¬ IsLastName name.now rest) }
{
    Name::new(name.as_bytes().strip_prefix(&PREFIX)?)
}
