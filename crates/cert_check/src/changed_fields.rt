//! Which fields a path changes. A path has its letters in path order, and true is a changed field.
ghost use Rattle.std.specs.Prelude.{◌≡◌};
ghost use Rattle.std.specs.List.{list_any};
ghost use Rattle.bound_cert.specs.Paths.{changes, path_place};

use edit_model::Survey;

/// Whether the path changes some field. No memory.
pub(crate) fn changes_some(path: &[bool]) -> bool
    ensures { result ≡ list_any (λ changed. changed) path.now }
{
    path.iter().any(|changed| *changed)
}

/// Whether the path changes the field of this number; it doesn't change one that it says nothing of. No
/// memory.
pub(crate) fn changes(survey: &Survey, path: &[bool], field: usize) -> bool
    ensures { result ≡ changes survey.now.fields path.now field }
{
    let place = path_place(survey, field);
    place < path.len() && path[place]
}

// The place in path order, from 0, of the field of this number. Where there is no such field, it is the
// number of fields.
fn path_place(survey: &Survey, field: usize) -> usize
    ensures { result ≡ path_place survey.now.fields field }
{
    let count = survey.fields().len();
    for place in 0..count {
        if survey.path_field(place as u32) as usize == field {
            return place;
        }
    }
    count
}
