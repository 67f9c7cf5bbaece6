//! The set of the fields that a complete path changes.
ghost use Rattle.std.specs.Prelude.{◌≡◌, length};
ghost use Rattle.back_subst.specs.Gifts.{path_of};

use edit_model::{FieldSet, Survey};

/// The set of the fields that a path changes. The path says of each field of the survey, in path order,
/// whether it is changed (true) or kept. No memory.
pub fn changed_set(survey: &Survey, path: &[bool]) -> FieldSet
    requires whole { length path.now ≡ length survey.now.fields }
    ensures path { path_of survey.now.fields result ≡ path.now }
{
    let mut changed = FieldSet::empty();
    for place in 0..survey.fields().len() as u32 {
        if path[place as usize] {
            changed = changed.with(survey.path_field(place));
        }
    }
    changed
}
